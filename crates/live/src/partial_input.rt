//! The partial line or record at the end of what came in, and what is answered to the pieces that end it.

ghost use Rattle.std.specs.Prelude.{◌≡◌, ◌<◌, ◌≤◌, ◌+◌, ◌^◌, IfOk, length};
ghost use Rattle.text_io.specs.Buffers.{CanWrite, watch};
ghost use Rattle.live.specs.Inputs.{IsUnfinished, empty_partial, face_of, last_said};
ghost use Rattle.live.specs.LiveView.{reached};
ghost use Rattle.live.specs.Output.{AnswersPiece, AreAnswered, through};
ghost use Rattle.live_rules.specs.Moments.{bssids_at};

use crate::face::Face;
use crate::lines::answer_last_line;
use crate::live_networks::LiveNetworks;
use crate::partial::PartialLine;
use crate::record::PartialRecord;
use crate::records::{answer_cut_record, answer_records};
use mac_frame::NoMemory;
use std::alloc::Global;
use text_io::{Buffered, Sink};
use trace::cut_text;

/// The partial line or record at the end of what came in, and so in which face the access point runs.
#[derive(Drop)]
pub enum PartialInput {
    /// Of a line.
    Line(PartialLine),
    /// Of a record.
    Record(PartialRecord),
}

impl PartialInput {
    /// An empty partial line or record. `NoMemory` if memory ran out.
    pub fn new(alloc: Global, face: Face) -> Result<PartialInput, NoMemory>
        ensures { IfOk result (λ partial. partial ≡ empty_partial face) }
    {
        match face {
            Face::Lines => Ok(PartialInput::Line(PartialLine::new(alloc)?)),
            Face::Records => Ok(PartialInput::Record(PartialRecord::new(alloc)?)),
        }
    }

    /// Answers the lines or records that end in a piece.
    pub fn answer_piece<W: Sink>(
        &mut self,
        networks: &mut LiveNetworks,
        piece: &[u8],
        out: &mut Buffered<'_, W>,
    )
        requires unfinished { IsUnfinished self.old }
        requires countable { networks.old.lines + length piece.now < 2 ^ 62 }
        requires can_write { CanWrite W.failed out.old }
        ensures answers { AnswersPiece (through (face_of self.old) (watch W.taken W.failed) out.old out.new)
            (reached networks.old self.old) (reached networks.new self.new) piece.now }
        ensures lines { networks.new.lines ≤ networks.old.lines + length piece.now }
    {
        match self {
            PartialInput::Line(line) => match cut_text(line, piece, networks, out) {
                Ok(()) => {}
                Err(never) => match never {},
            },
            PartialInput::Record(record) => answer_records(networks, record, piece, out),
        }
    }

    /// Answers a partial line or record, unless it is empty.
    pub fn answer_last<W: Sink>(&self, networks: &mut LiveNetworks, out: &mut Buffered<'_, W>)
        requires countable { networks.old.lines < 2 ^ 62 }
        requires can_write { CanWrite W.failed out.old }
        ensures { AreAnswered (through (face_of self.now) (watch W.taken W.failed) out.old out.new)
            networks.old networks.new (last_said (bssids_at networks.old) self.now) }
    {
        match self {
            PartialInput::Line(line) => answer_last_line(networks, line, out),
            PartialInput::Record(record) => answer_cut_record(networks, record, out),
        }
    }
}
