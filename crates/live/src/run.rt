//! The access point from its configuration's text to the end of its input.

ghost use Rattle.std.specs.Prelude.{◌≡◌, ◌<◌, ◌≤◌, ◌+◌, ◌^◌, length, take, Ok, Err, IfOk, OnErr, OnOk};
ghost use Rattle.std.specs.Io.KnownBytes.{Consumes, IsAtEnd, Keeps};
ghost use Rattle.text_io.specs.Endings.{Ends, failures_of, ending_of};
ghost use Rattle.text_io.specs.Sinks.{MayFail, failed_reads, report_ending};
ghost use Rattle.text_io.specs.Streams.{reads_after};
ghost use Rattle.live.specs.AnswerOctets.{count_record};
ghost use Rattle.live.specs.Inputs.{empty_partial, face_of};
ghost use Rattle.live.specs.Run.{AllAnswered, AnswersInput, Runs, live_ending, progress, seen, setup, streams};
ghost use Rattle.live.specs.Written.{written_count};

use crate::face::{Face, InFace};
use crate::fault::LiveFault;
use crate::live_in::LiveIn;
use config_text::read_config;
use live_rules::{answers_to_more, enough_memory, lines_come_in_pieces, records_come_in_pieces};
use report::write_count;
use std::alloc::Global;
use std::marker::Brand;
use text_io::{Failed, ReportFault, Sink, Source, write_all};

/// How many octets are read at a time.
const PIECE_LEN: usize = 4096;

/// The most reads.
const MAX_READS: u64 = 1 << 46;

impl<F: InFace> LiveIn<F> {
    /// Runs the access point of a configuration. It appends to what `out` has taken how many networks are open, as `ok
    /// N` and LF or as the record `O`. Then it appends the answer to each line or record that a source gives. It reads
    /// a piece only when what ended in the piece before is answered. At the source's end it appends the answer to what
    /// follows the last LF, if anything does. Of a record that is cut it takes nothing, and appends its fault. Last
    /// comes the table of each network in order of place.
    ///
    /// A fault of the configuration is the first one, and `NoMemory` comes if memory ran out before the first read;
    /// nothing is read or written then. If it runs out later, nothing ends: the answer says so. `Read` comes if a
    /// read of the source failed, or 2^46 were made; what ended is answered then, and no table comes. `Write` comes
    /// exactly if a write of `out` failed, which has then taken a prefix of what is said of all that was read;
    /// reading stops there.
    pub fn run<R: Source, W: Sink>(
        alloc: Global,
        config: &[u8],
        input: &mut R,
        out: &mut W,
    ) -> Result<(), LiveFault>
        requires input { MayFail (R.failed input.old) }
        requires out { MayFail (W.failed out.old) }
        ensures ends { Runs (setup F.face config.now) result
            (streams (seen (R.left input.old) (R.failed input.old) (R.reads input.old))
            (W.taken out.old) (W.failed out.old))
            (streams (seen (R.left input.new) (R.failed input.new) (R.reads input.new))
            (W.taken out.new) (W.failed out.new)) }
        ensures failures { W.failed out.new ≡ W.failed out.old + failures_of live_ending result }
    {
        answers_to_more();
        lines_come_in_pieces();
        enough_memory();
        let config = read_config(alloc, config)?;
        let count = config.networks.as_slice().len();
        let mut live = LiveIn::<F>::new(alloc, config)?;
        write_open::<F, W>(alloc, count, out)?;
        answer_input::<Brand, F, R, W>(&mut live, input, out)?;
        live.end(out)?;
        Ok(())
    }
}

/// Writes how many networks are open.
fn write_open<F: InFace, W: Sink>(
    alloc: Global,
    count: usize,
    out: &mut W,
) -> Result<(), ReportFault>
    requires { MayFail (W.failed out.old) }
    ensures ends { Ends (ending_of report_ending result) (Ok (written_count F.face count)) (W.taken out.old) (W.taken out.new) }
    ensures memory { result ≡ Err ReportFault.NoMemory → Keeps (W.taken out.old) (W.taken out.new) }
    ensures failures { W.failed out.new ≡ W.failed out.old + failures_of report_ending result }
{
    match F::face() {
        Face::Lines => write_count(alloc, count, out),
        Face::Records => write_count_record(count, out),
    }
}

/// Writes the record of how many networks are open.
fn write_count_record<W: Sink>(count: usize, out: &mut W) -> Result<(), ReportFault>
    requires { MayFail (W.failed out.old) }
    ensures ends { Ends (ending_of report_ending result) (Ok (count_record count)) (W.taken out.old) (W.taken out.new) }
    ensures memory { result ≡ Err ReportFault.NoMemory → Keeps (W.taken out.old) (W.taken out.new) }
    ensures failures { W.failed out.new ≡ W.failed out.old + failures_of report_ending result }
{
    write_all(out, &[b'O', 0, 0, 0, 0, 0, (count % 256) as u8, 0, 0])?;
    Ok(())
}

/// An access point before its first read, as the clauses of later reads name it.
trait Beginning {
    ghost use Rattle.live.specs.Run.{Progress};

    // The access point, its input and its output then.
    ghost first: { Progress };
}

impl Beginning for Brand {
    ghost use Rattle.live.specs.Run.{unknown};

    ghost first = { unknown };
}

/// Reads more of a source. It may be called only if the sink has taken the answers to all that ended in what was
/// read since the beginning.
fn read_more<B: Beginning, R: Source, W: Sink>(
    input: &mut R,
    _out: &W,
    buffer: &mut [u8],
) -> Result<usize, Failed>
    requires some { 0 < length buffer.old }
    requires few { MayFail (R.failed input.old) }
    requires answered { AllAnswered B.first (R.left input.old) (W.taken _out.now) }
    ensures prefix { IfOk result (λ count. (count ≤ length buffer.new)
        × Consumes (R.left input.old) (R.left input.new) (take count buffer.new)) }
    ensures end { IfOk result (λ count. count ≡ 0 → IsAtEnd (R.left input.new)) }
    ensures err { OnErr result (Keeps (R.left input.old) (R.left input.new)) }
    ensures failures { R.failed input.new ≡ R.failed input.old + failed_reads result }
    ensures reads { R.reads input.new ≡ reads_after (R.reads input.old) 1 }
{
    input.read_some(buffer)
}

/// Answers what ends in what a source has left, of a piece before the next is read.
fn answer_input<B: Beginning, F: InFace, R: Source, W: Sink>(
    live: &mut LiveIn<F>,
    input: &mut R,
    out: &mut W,
) -> Result<(), LiveFault>
    requires beginning { B.first ≡ progress live.old
        (streams (seen (R.left input.old) (R.failed input.old) (R.reads input.old))
        (W.taken out.old) (W.failed out.old)) }
    requires empty { live.old.partial ≡ empty_partial (face_of live.old.partial) }
    requires first { live.old.moment.lines ≡ 0 }
    requires input { MayFail (R.failed input.old) }
    requires out { MayFail (W.failed out.old) }
    ensures answers { AnswersInput (face_of live.old.partial) result
        (progress live.old
        (streams (seen (R.left input.old) (R.failed input.old) (R.reads input.old))
        (W.taken out.old) (W.failed out.old)))
        (progress live.new
        (streams (seen (R.left input.new) (R.failed input.new) (R.reads input.new))
        (W.taken out.new) (W.failed out.new))) }
    ensures failures { W.failed out.new ≡ W.failed out.old + failures_of live_ending result }
    ensures countable { OnOk result (live.new.moment.lines < 2 ^ 62) }
{
    answers_to_more();
    lines_come_in_pieces();
    records_come_in_pieces();
    let mut piece = [0; PIECE_LEN];
    for _ in 0..MAX_READS {
        let Ok(count) = read_more::<B, R, W>(input, out, &mut piece) else {
            return Err(LiveFault::Read);
        };
        if count == 0 {
            return Ok(());
        }
        live.feed(&piece[..count], out)?;
    }
    Err(LiveFault::Read)
}
