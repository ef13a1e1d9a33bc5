//! The report of what was played, whose frames become text in several threads.

ghost use Rattle.std.specs.Prelude.{◌≡◌, ◌≤◌, ◌+◌, IfOk, Ok, length, flat_map};
ghost use Rattle.text_io.specs.Buffers.{CanWrite, Puts, watch};
ghost use Rattle.text_io.specs.Endings.{Ends, failures_of, ending_of};
ghost use Rattle.report.specs.Report.{frame_line};
ghost use Rattle.text_io.specs.Sinks.{MayFail, report_ending, write_ending};
ghost use Rattle.network_report.specs.NetworkText.{network_text};

use mac_frame::{NoMemory, Octets};
use network_report::{FrameSlice, put_heading, put_sent_frames};
use networks::NetworkWithFrames;
use report::put_end_line;
use std::alloc::Global;
use std::thread;
use std::thread::Threads;
use text_io::{Buffered, Counted, Failed, ReportFault, Sink};

/// How many octets of text stand in memory at a time for each network.
const MOST_TEXT: usize = 1 << 18;

/// How many octets are collected before they go to the sink, so that a device is not asked for each line.
const PIECE: usize = 65536;

/// How many octets a thread collects before it appends them to its text.
const SMALL_PIECE: usize = 4096;

/// Has the sink take the report of networks, whole, as [`network_report::write_networks`] does (*profile*). The frames
/// of each become text in several threads, as far as there are any. `Write` comes exactly if a write of `out`
/// failed, and `NoMemory` if memory ran out; what `out` took by then is nothing or a prefix of the report.
pub(crate) fn write_by_threads<R: Threads + Sync, W: Sink>(
    rt: &R,
    alloc: Global,
    networks: &[NetworkWithFrames],
    out: &mut W,
) -> Result<(), ReportFault>
    requires { MayFail (W.failed out.old) }
    ensures ends { Ends (ending_of report_ending result) (Ok (flat_map network_text networks.now))
        (W.taken out.old) (W.taken out.new) }
    ensures failures { W.failed out.new ≡ W.failed out.old + failures_of report_ending result }
{
    let mut piece = vec![in alloc; 0; PIECE]?;
    write_through(rt, alloc, piece.as_mut_slice(), networks, out)?;
    Ok(())
}

/// Has the sink take the report of the networks, through a piece of memory.
fn write_through<R: Threads + Sync, W: Sink>(
    rt: &R,
    alloc: Global,
    piece: &mut [u8],
    networks: &[NetworkWithFrames],
    out: &mut W,
) -> Result<(), Failed>
    requires { MayFail (W.failed out.old) }
    ensures ends { Ends (ending_of write_ending result) (Ok (flat_map network_text networks.now))
        (W.taken out.old) (W.taken out.new) }
    ensures failures { W.failed out.new ≡ W.failed out.old + failures_of write_ending result }
{
    let most = MOST_TEXT.saturating_mul(networks.len());
    let mut buffered = Buffered::new(out, piece);
    for network in networks {
        put_section(rt, alloc, most, &mut buffered, network);
    }
    buffered.flush()
}

/// Puts what one network did.
fn put_section<R: Threads + Sync, W: Sink>(
    rt: &R,
    alloc: Global,
    most: usize,
    out: &mut Buffered<'_, W>,
    network: &NetworkWithFrames,
)
    requires { CanWrite W.failed out.old }
    ensures { Puts (watch W.taken W.failed) out.old out.new (network_text network.now) }
{
    put_heading(out, network);
    put_parts(rt, alloc, most, out, b"air ", &FrameSlice::of(&network.air));
    put_parts(
        rt,
        alloc,
        most,
        out,
        b"wire ",
        &FrameSlice::of(&network.wire),
    );
    put_end_line(out);
}

/// Puts a line for each frame, as [`put_sent_frames`] does. About as many octets of text stand in memory at a time.
fn put_parts<R: Threads + Sync, W: Sink>(
    rt: &R,
    alloc: Global,
    most: usize,
    out: &mut Buffered<'_, W>,
    word: &[u8],
    frames: &FrameSlice<'_>,
)
    requires { CanWrite W.failed out.old }
    ensures { Puts (watch W.taken W.failed) out.old out.new (flat_map (frame_line word.now) frames.now) }
{
    let (_, mut rest) = frames.split_at(0);
    while !rest.lengths().is_empty() {
        let (some, others) = rest.split_at(first_of(word, rest.lengths(), most));
        put_by_threads(rt, alloc, out, word, &some);
        rest = others;
    }
}

/// How many frames there are of these lengths, from the first on, whose lines are as many octets at most; but one at
/// least.
fn first_of(word: &[u8], lengths: &[usize], most: usize) -> usize
    requires { 1 ≤ length lengths.now }
    ensures some { 1 ≤ result }
    ensures within { result ≤ length lengths.now }
{
    let mut text = 0usize;
    for place in 0..lengths.len() {
        text = text.saturating_add(len_of(word, lengths[place]));
        if text > most {
            return place.max(1);
        }
    }
    lengths.len()
}

/// How many octets the line of a frame of this length has, as far as a number of this size goes.
fn len_of(word: &[u8], len: usize) -> usize {
    let digits = len.saturating_mul(2);
    digits.saturating_add(word.len()).saturating_add(1)
}

/// Puts the lines of frames, which become text in several threads.
fn put_by_threads<R: Threads + Sync, W: Sink>(
    rt: &R,
    alloc: Global,
    out: &mut Buffered<'_, W>,
    word: &[u8],
    frames: &FrameSlice<'_>,
)
    requires { CanWrite W.failed out.old }
    ensures { Puts (watch W.taken W.failed) out.old out.new (flat_map (frame_line word.now) frames.now) }
{
    match texts_of(rt, alloc, word, frames) {
        Ok(texts) => put_texts(out, texts.as_slice()),
        Err(NoMemory) => put_sent_frames(out, word, frames),
    }
}

/// Puts texts, one after the other.
fn put_texts<W: Sink>(out: &mut Buffered<'_, W>, texts: &[Octets])
    requires { CanWrite W.failed out.old }
    ensures { Puts (watch W.taken W.failed) out.old out.new (flat_map (λ text. text) texts.now) }
{
    for text in texts {
        out.put(text.as_slice());
    }
}

/// The lines of frames, in parts.
fn texts_of<R: Threads + Sync>(
    rt: &R,
    alloc: Global,
    word: &[u8],
    frames: &FrameSlice<'_>,
) -> Result<Vec<Octets>, NoMemory>
    ensures { IfOk result (λ texts. flat_map (λ t. t) texts.items ≡ flat_map (frame_line word.now) frames.now) }
{
    let parts = parts_of(alloc, frames)?;
    let texts = thread::map_vec(
        rt,
        parts,
        &|frames: FrameSlice<'_>| -> Result<Octets, NoMemory>
            ensures { IfOk result (λ t. t ≡ flat_map (frame_line word.entry.now) frames.entry) }
        { text_of(alloc, word, &frames) },
    )?;
    let mut all = Vec::with_capacity(alloc, texts.len())?;
    for text in texts {
        all.push(text?)?;
    }
    Ok(all)
}

/// Frames in parts of about as many.
fn parts_of<'a>(alloc: Global, frames: &FrameSlice<'a>) -> Result<Vec<FrameSlice<'a>>, NoMemory>
    ensures { IfOk result (λ parts. flat_map (λ p. p) parts.items ≡ frames.now) }
{
    let (front, back) = frames.split_at(frames.lengths().len() / 2);
    let (one, two) = front.split_at(front.lengths().len() / 2);
    let (three, four) = back.split_at(back.lengths().len() / 2);
    Ok(vec![in alloc; one, two, three, four]?)
}

/// The lines of frames.
fn text_of(alloc: Global, word: &[u8], frames: &FrameSlice<'_>) -> Result<Octets, NoMemory>
    ensures { IfOk result (λ text. text ≡ flat_map (frame_line word.now) frames.now) }
{
    let mut piece = [0; SMALL_PIECE];
    let mut text = Counted::new(Vec::with_capacity(alloc, text_len(word, frames.lengths()))?);
    let mut out = Buffered::new(&mut text, &mut piece);
    put_sent_frames(&mut out, word, frames);
    let Ok(()) = out.flush() else {
        return Err(NoMemory);
    };
    Ok(Octets::from_vec(text.into_inner()))
}

/// How many octets the lines of frames of these lengths have together, as far as a number of this size goes.
fn text_len(word: &[u8], lengths: &[usize]) -> usize {
    let mut text = 0usize;
    for len in lengths {
        text = text.saturating_add(len_of(word, *len));
    }
    text
}
