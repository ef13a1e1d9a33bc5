//! The tables of networks, in either face.

ghost use Rattle.std.specs.Prelude.{◌≡◌, flat_map};
ghost use Rattle.text_io.specs.Buffers.{CanWrite, Puts, watch};
ghost use Rattle.network_report.specs.NetworkText.{table_in};

use network::Network;
use network_report::ReportedNetwork;
use report::{LineForm, put_section_in};
use text_io::{Buffered, Sink};

/// Puts the table of each network in a form, in order of place: what the report says of it, but for its frames.
pub fn put_tables_in<F: LineForm, W: Sink>(out: &mut Buffered<'_, W>, networks: &[Network])
    requires { CanWrite W.failed out.old }
    ensures { Puts (watch W.taken W.failed) out.old out.new (flat_map (table_in F.written) networks.now) }
{
    for network in networks {
        put_table_in::<F, W>(out, network);
    }
}

/// Puts a network's table in a form.
fn put_table_in<F: LineForm, W: Sink>(out: &mut Buffered<'_, W>, network: &Network)
    requires { CanWrite W.failed out.old }
    ensures { Puts (watch W.taken W.failed) out.old out.new (table_in F.written network.now) }
{
    put_section_in::<F, ReportedNetwork<'_>, W>(out, &ReportedNetwork::without_frames(network));
}
