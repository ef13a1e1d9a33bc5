//! Records that come in pieces, and their answers.

ghost use Rattle.std.specs.Prelude.{◌≡◌, ◌<◌, ◌≤◌, ◌+◌, ◌^◌, [], length};
ghost use Rattle.text_io.specs.Buffers.{CanWrite, watch};
ghost use Rattle.live.specs.Output.{AnswersRecords, AreAnswered, through, waiting};
ghost use Rattle.live_rules.specs.Records.{IsPartialRecord, IsRecord, cut_record};
ghost use Rattle.live.specs.declared.face.Face.TheVariants as faces;

use crate::face::Face;
use crate::live_networks::LiveNetworks;
use crate::reading::Reading;
use crate::record::{PartialRecord, first_record};
use live_rules::{answers_to_more, records_come_in_pieces};
use text_io::{Buffered, Sink};
use trace::LineFault;

/// Answers the records that end in a piece.
pub fn answer_records<W: Sink>(
    networks: &mut LiveNetworks,
    partial: &mut PartialRecord,
    piece: &[u8],
    out: &mut Buffered<'_, W>,
)
    requires partial { IsPartialRecord partial.old }
    requires countable { networks.old.lines + length piece.now < 2 ^ 62 }
    requires can_write { CanWrite W.failed out.old }
    ensures answers { AnswersRecords (through faces.Records (watch W.taken W.failed) out.old out.new)
        (waiting networks.old partial.old piece.now) (waiting networks.new partial.new []) }
{
    answers_to_more();
    let mut rest = piece;
    while !rest.is_empty() {
        rest = answer_next(networks, partial, rest, out);
    }
}

/// Answers the record at the front of a piece, without a copy, if nothing came of it before and all of it is there.
/// Else it takes of the piece what the partial record lacks, and answers it if it is whole then. It gives what follows
/// in the piece.
fn answer_next<'a, W: Sink>(
    networks: &mut LiveNetworks,
    partial: &mut PartialRecord,
    piece: &'a [u8],
    out: &mut Buffered<'_, W>,
) -> &'a [u8]
    requires some { 0 < length piece.now }
    requires partial { IsPartialRecord partial.old }
    requires countable { networks.old.lines < 2 ^ 62 }
    requires can_write { CanWrite W.failed out.old }
    ensures answers { AnswersRecords (through faces.Records (watch W.taken W.failed) out.old out.new)
        (waiting networks.old partial.old piece.now) (waiting networks.new partial.new result.now) }
    ensures shorter { length result.now < length piece.now }
{
    answers_to_more();
    records_come_in_pieces();
    if partial.is_empty() {
        if let Some((octets, rest)) = first_record(piece) {
            networks.answer_record(octets, out);
            return rest;
        }
    }
    let (more, rest) = piece.split_at(partial.lacking().min(piece.len()));
    partial.add(more);
    if partial.is_whole() {
        networks.answer_record(partial.as_slice(), out);
        partial.begin();
    }
    rest
}

/// Answers that the last record is cut, unless it is empty.
pub fn answer_cut_record<W: Sink>(
    networks: &mut LiveNetworks,
    partial: &PartialRecord,
    out: &mut Buffered<'_, W>,
)
    requires countable { networks.old.lines < 2 ^ 62 }
    requires can_write { CanWrite W.failed out.old }
    ensures { AreAnswered (through faces.Records (watch W.taken W.failed) out.old out.new)
        networks.old networks.new (cut_record partial.now) }
{
    if partial.is_empty() {
        return;
    }
    networks.answer(
        Face::Records,
        Reading::Fault(LineFault::NotHexadecimal),
        out,
    );
}
