//! The section of a report about a network that kept no history.

ghost use Rattle.std.specs.Prelude.{◌≡◌, [], flat_map};
ghost use Rattle.text_io.specs.Buffers.{CanWrite, Puts, watch};
ghost use Rattle.report.specs.Report.{frame_line};
ghost use Rattle.network_report.specs.NetworkText.{told_network, told_with_frames, heading_text, network_text};

use crate::frame_slice::FrameSlice;
use ap_config::NetConfig;
use events::StationRow;
use network::Network;
use networks::NetworkWithFrames;
use report::{AsText, Reported, Totals, put_frame_line, put_heading_in, put_section_in};
use std::marker::Model;
use text_io::{Buffered, Sink};

/// A network that keeps no history, as a report tells of it.
#[derive(Drop)]
pub struct ReportedNetwork<'a> {
    network: &'a Network,
    air: FrameSlice<'a>,
    wire: FrameSlice<'a>,
}

impl<'a> Model for ReportedNetwork<'a> {
    ghost use Rattle.report.specs.Forms.{Told};
    ghost use Rattle.network_report.specs.NetworkText.{told_network};

    ghost Value = { Told };

    ghost view = { λ n. told_network n.network.now n.air n.wire };
}

impl<'a> ReportedNetwork<'a> {
    /// A network with the frames that it sent.
    pub fn of(network: &'a NetworkWithFrames) -> ReportedNetwork<'a>
        ensures { result ≡ told_with_frames network.now }
    {
        ReportedNetwork {
            network: &network.network,
            air: FrameSlice::of(&network.air),
            wire: FrameSlice::of(&network.wire),
        }
    }

    /// A network without its frames.
    pub fn without_frames(network: &'a Network) -> ReportedNetwork<'a>
        ensures { result ≡ told_network network.now [] [] }
    {
        ReportedNetwork {
            network,
            air: FrameSlice::none(),
            wire: FrameSlice::none(),
        }
    }
}

impl<'a> Reported for ReportedNetwork<'a> {
    ghost told = { λ told. told };

    fn config(&self) -> &NetConfig {
        &self.network.setting().network
    }

    fn totals(&self) -> Totals {
        Totals {
            events: self.network.events(),
            clock: u64::from(self.network.clock()),
            unread: self.network.unread(),
            lost: self.network.lost(),
            kept: u64::from(self.network.kept_len()),
        }
    }

    fn table_len(&self) -> usize {
        self.network.table_len()
    }

    fn row(&self, place: usize) -> StationRow {
        self.network.row(place)
    }

    fn put_frames<W: Sink>(&self, out: &mut Buffered<'_, W>) {
        put_sent_frames(out, b"air ", &self.air);
        put_sent_frames(out, b"wire ", &self.wire);
    }
}

/// Puts the section of a network: its name, its counts, its stations, its frames, and `end`.
pub fn put_network<W: Sink>(out: &mut Buffered<'_, W>, network: &NetworkWithFrames)
    requires { CanWrite W.failed out.old }
    ensures { Puts (watch W.taken W.failed) out.old out.new (network_text network.now) }
{
    put_section_in::<AsText, ReportedNetwork<'_>, W>(out, &ReportedNetwork::of(network));
}

/// Puts what stands before the frames: the network's name, its counts and its stations.
pub fn put_heading<W: Sink>(out: &mut Buffered<'_, W>, network: &NetworkWithFrames)
    requires { CanWrite W.failed out.old }
    ensures { Puts (watch W.taken W.failed) out.old out.new (heading_text network.now.network) }
{
    put_heading_in::<AsText, ReportedNetwork<'_>, W>(out, &ReportedNetwork::of(network));
}

/// Puts a line for each frame, after a word that says where it was sent.
pub fn put_sent_frames<W: Sink>(out: &mut Buffered<'_, W>, word: &[u8], frames: &FrameSlice<'_>)
    requires { CanWrite W.failed out.old }
    ensures { Puts (watch W.taken W.failed) out.old out.new (flat_map (frame_line word.now) frames.now) }
{
    let (lengths, octets) = frames.parts();
    let mut rest = octets;
    for len in lengths {
        let (frame, others) = rest.split_at(*len);
        put_frame_line(out, word, frame);
        rest = others;
    }
}
