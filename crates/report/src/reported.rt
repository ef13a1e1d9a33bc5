//! What a report tells of, and the section of it.

ghost use Rattle.std.specs.Prelude.{◌≡◌, ◌<◌, ◌++◌, Some, codes, flat_map, length, slice_get};
ghost use Rattle.text_io.specs.Buffers.{CanWrite, Puts, watch};
ghost use Rattle.report.specs.Report.{counts_line, station_line, frame_line};
ghost use Rattle.report.specs.Forms.{Told, heading_in, section_in, told_of, counts_in};

use crate::form::LineForm;
use crate::lines::{
    Totals, put_counts_line_in, put_end_line_in, put_frame_line, put_network_line_in,
    put_station_line_in,
};
use ap_config::NetConfig;
use events::{Section, StationRow};
use mac_frame::Octets;
use text_io::{Buffered, Sink};

/// What a report tells of: a network, however it is kept. Contracts see what is told.
pub trait Reported {
    // What is told of it.
    ghost told: { Self → Told };

    /// The network's configuration.
    fn config(&self) -> &NetConfig
        ensures { result.now ≡ (told self.now).config };

    /// Its counts, after the number of the events that it took.
    fn totals(&self) -> Totals
        ensures { counts_line result.events (counts_in result)
            ≡ counts_line (told self.now).events (told self.now).counts };

    /// How many rows its table of stations has.
    fn table_len(&self) -> usize
        ensures { result ≡ length (told self.now).table };

    /// The row at a place of its table, from 0.
    fn row(&self, place: usize) -> StationRow
        requires { place < length (told self.now).table }
        ensures { slice_get (told self.now).table place ≡ Some result };

    /// Puts a line for each frame that it sent: those on the air, and then those on the wire.
    fn put_frames<W: Sink>(&self, out: &mut Buffered<'_, W>)
        requires { CanWrite W.failed out.old }
        ensures { Puts (watch W.taken W.failed) out.old out.new
            (flat_map (frame_line (codes "air ")) (told self.now).air
            ++ flat_map (frame_line (codes "wire ")) (told self.now).wire) };
}

/// Puts the section of a network: its heading, its frames, and `end`, each line but those of frames in a form.
pub fn put_section_in<F: LineForm, R: Reported, W: Sink>(out: &mut Buffered<'_, W>, network: &R)
    requires { CanWrite W.failed out.old }
    ensures { Puts (watch W.taken W.failed) out.old out.new (section_in F.written (R.told network.now)) }
{
    put_heading_in::<F, R, W>(out, network);
    network.put_frames(out);
    put_end_line_in::<F, W>(out);
}

/// Puts what stands before the frames in a form: the network's name, its counts and its stations.
pub fn put_heading_in<F: LineForm, R: Reported, W: Sink>(out: &mut Buffered<'_, W>, network: &R)
    requires { CanWrite W.failed out.old }
    ensures { Puts (watch W.taken W.failed) out.old out.new (heading_in F.written (R.told network.now)) }
{
    put_network_line_in::<F, W>(out, network.config());
    put_counts_line_in::<F, W>(out, &network.totals());
    put_stations_in::<F, R, W>(out, network);
}

/// Puts a line for each station that a network knows.
fn put_stations_in<F: LineForm, R: Reported, W: Sink>(out: &mut Buffered<'_, W>, network: &R)
    requires { CanWrite W.failed out.old }
    ensures { Puts (watch W.taken W.failed) out.old out.new
        (flat_map (λ row. F.written (station_line row)) (R.told network.now).table) }
{
    for place in 0..network.table_len() {
        put_station_line_in::<F, W>(out, &network.row(place));
    }
}

impl Reported for Section {
    ghost told = { told_of };

    fn config(&self) -> &NetConfig {
        &self.config
    }

    fn totals(&self) -> Totals {
        Totals {
            events: self.events.as_slice().len() as u64,
            clock: u64::from(self.counts.clock),
            unread: u64::from(self.counts.unread),
            lost: u64::from(self.counts.lost),
            kept: u64::from(self.counts.kept),
        }
    }

    fn table_len(&self) -> usize {
        self.table.as_slice().len()
    }

    fn row(&self, place: usize) -> StationRow {
        self.table.as_slice()[place]
    }

    fn put_frames<W: Sink>(&self, out: &mut Buffered<'_, W>) {
        put_frames(out, b"air ", self.air.as_slice());
        put_frames(out, b"wire ", self.wire.as_slice());
    }
}

/// Puts a line for each frame, after a word that says where it was sent.
pub fn put_frames<W: Sink>(out: &mut Buffered<'_, W>, word: &[u8], frames: &[Octets])
    requires { CanWrite W.failed out.old }
    ensures { Puts (watch W.taken W.failed) out.old out.new (flat_map (frame_line word.now) frames.now) }
{
    for frame in frames {
        put_frame_line(out, word, frame.as_slice());
    }
}
