//! The report of several networks.

ghost use Rattle.std.specs.Prelude.{◌≡◌, ◌+◌, Ok, flat_map};
ghost use Rattle.text_io.specs.Endings.{Ends, failures_of, ending_of};
ghost use Rattle.text_io.specs.Sinks.{MayFail, report_ending};
ghost use Rattle.network_report.specs.NetworkText.{network_text};

use crate::section::put_network;
use networks::NetworkWithFrames;
use std::alloc::Global;
use text_io::{Buffered, PutItem, ReportFault, Sink, write_each};

/// Has the sink take the report of the networks, whole.
///
/// `Write` comes exactly if a write to the sink failed, and `NoMemory` if memory ran out. After either the sink
/// has taken a prefix of the report, perhaps nothing.
pub fn write_networks<W: Sink>(
    alloc: Global,
    networks: &[NetworkWithFrames],
    out: &mut W,
) -> Result<(), ReportFault>
    requires { MayFail (W.failed out.old) }
    ensures ends { Ends (ending_of report_ending result) (Ok (flat_map network_text networks.now))
        (W.taken out.old) (W.taken out.new) }
    ensures failures { W.failed out.new ≡ W.failed out.old + failures_of report_ending result }
{
    write_each(alloc, &Sections, networks, out)
}

/// Each network as its section.
struct Sections;

impl PutItem<NetworkWithFrames> for Sections {
    ghost written = { network_text };

    fn put<W: Sink>(&self, out: &mut Buffered<'_, W>, network: &NetworkWithFrames) {
        put_network(out, network);
    }
}
