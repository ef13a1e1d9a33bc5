//! Traces that are read by threads.

ghost use Rattle.std.specs.Prelude.{◌≡◌, ◌<◌, [], IfOk, length, slice_index_or};
ghost use Rattle.text_io.specs.Endings.{Gives};
ghost use Rattle.text_io.specs.Faults.{read_ending};
ghost use Rattle.trace.specs.TraceText.{lines_of};
ghost use Rattle.play_text.specs.Reading.{AreRead};

use ap_config::RadioConfig;
use events::LentLine;
use mac_frame::{NoMemory, Octets};
use play::LineLog;
use std::alloc::{AllocError, Global};
use std::thread;
use std::thread::Threads;
use trace::{LineReader, TakeLines, TraceTextFault};

/// What is read of each of several traces, in order: its lines, or its first fault, as [`trace::read_trace`] tells them,
/// or `NoMemory` (*profile*). The traces are lent, and read by threads, as far as there are any. `AllocError` if
/// memory ran out beside them.
pub(crate) fn read_by_threads<R: Threads + Sync>(
    rt: &R,
    alloc: Global,
    config: &RadioConfig,
    traces: &[Octets],
) -> Result<Vec<Result<LineLog, TraceTextFault>>, AllocError>
    ensures { IfOk result (λ read. AreRead config.now traces.now read.items) }
{
    let read = thread::map_indices(
        rt,
        alloc,
        traces.len(),
        &|place| -> Result<LineLog, TraceTextFault>
            requires { place < length traces.now }
            ensures { Gives (λ lines. lines) read_ending result
                (lines_of config.entry.now (slice_index_or traces.entry.now place [])) }
        { read_one(alloc, config, traces, place) },
    )?;
    Ok(read)
}

/// What is read of the trace at this place.
fn read_one(
    alloc: Global,
    config: &RadioConfig,
    traces: &[Octets],
    place: usize,
) -> Result<LineLog, TraceTextFault>
    requires { place < length traces.now }
    ensures { Gives (λ lines. lines) read_ending result
        (lines_of config.now (slice_index_or traces.now place [])) }
{
    read_lines(alloc, config, traces[place].as_slice())
}

/// The lines of a trace text, or its first fault, as [`trace::read_trace`] tells them.
fn read_lines(alloc: Global, config: &RadioConfig, text: &[u8]) -> Result<LineLog, TraceTextFault>
    ensures { Gives (λ lines. lines) read_ending result (lines_of config.now text.now) }
{
    let reader = LineReader::new(alloc, config)?;
    let mut kept = KeptLines {
        lines: LineLog::new(alloc),
    };
    reader.take_text(text, &mut kept)?;
    Ok(kept.lines)
}

/// Lines that are read, where they stay.
#[derive(Drop)]
struct KeptLines {
    lines: LineLog,
}

impl TakeLines for KeptLines {
    ghost has_taken = { λ _ said kept. kept.lines ≡ said };

    fn take_line(&mut self, line: LentLine<'_>) -> Result<(), NoMemory> {
        self.lines.push(line)
    }
}
