//! Traces that are read as they come.

use ap_config::ConfigFault;
use fixtures::texts::{CONFIGURATION, PROBE_LINE};
use replay::{StreamFault, report_texts, run_stream, run_text};
use report::write_report;
use std::alloc::Global;
use std::io::{self, ErrorKind, Read};
use std::test::Fail;
use text_io::{Counted, Source};
use trace::TraceFault;

/// A reader that gives a few octets at a time, and may fail where they end.
#[derive(Drop)]
struct Pieces<'a> {
    octets: &'a [u8],
    most: usize,
    fails: bool,
}

impl Read for Pieces<'_> {
    fn read(&mut self, buf: &mut [u8]) -> io::Result<usize> {
        if self.fails && self.octets.is_empty() {
            return Err(io::Error::from(ErrorKind::Other));
        }
        let most = self.most.min(buf.len());
        self.octets.read(&mut buf[..most])
    }
}

/// What a configuration and a trace are answered, and what was written; how often the reader failed, and how many
/// octets it has left.
type Ended = (Result<(), StreamFault>, Vec<u8>, u64, usize);

fn stream(alloc: Global, config: &[u8], reader: Pieces) -> Ended {
    let mut source = Counted::new(reader);
    let mut out = Counted::new(Vec::new(alloc));
    let answer = run_stream(alloc, config, &mut source, &mut out);
    let failures = source.failures();
    let left = source.into_inner().octets.len();
    (answer, out.into_inner(), failures, left)
}

/// A station authenticates and associates itself, and a beacon interval begins; then come a line that is skipped, an
/// empty one, a probe, and a tick without the end of its line.
const LINES: &str = "A b0000000 020000000001 02aa00000001 020000000001 0000 0000 0100 0000\n\
    A 00000000 020000000001 02aa00000001 020000000001 0000 0100 0a00 00036c6162 010402040b16\n\
    T\n# a line\r\n\n\
    A 40000000 ffffffffffff 02aa00000001 ffffffffffff 0000 0000 010402040b16\nT";

#[test]
fn pieces_of_any_length_have_one_report(rt: HostRuntime) -> Result<(), Fail> {
    let alloc = rt.alloc();
    let (config, octets) = (CONFIGURATION.as_bytes(), LINES.as_bytes());
    let mut out = Counted::new(Vec::new(alloc));
    assert_eq!(rt; run_text(alloc, config, octets, &mut out), Ok(()));
    let whole = out.into_inner();
    for most in [1, 7, 4096] {
        let reader = Pieces {
            octets,
            most,
            fails: false,
        };
        let (answer, written, failures, left) = stream(alloc, config, reader);
        assert_eq!(rt; answer, Ok(()));
        assert_eq!(rt; written.as_slice(), whole.as_slice());
        assert_eq!(rt; (failures, left), (0, 0));
    }
    Ok(())
}

/// A unit of that station for one on the wire.
const UNIT_LINE: &str =
    "\nA 08010000 020000000001 02aa00000001 02bb00000001 0000 aaaa03000000 0800 01\n";

/// `run_text` and `run_stream` keep no history, and what they write is the report of the sections that `report_texts`
/// hands out, also if more lines come than a history may have events.
#[test]
fn one_report_with_histories_and_without(rt: HostRuntime) -> Result<(), Fail> {
    let alloc = rt.alloc();
    let config = CONFIGURATION.as_bytes();
    let mut trace = String::new(alloc);
    for _ in 0..30 {
        trace.push_str(LINES)?;
        trace.push_str(UNIT_LINE)?;
    }
    let mut out = Counted::new(Vec::new(alloc));
    let sections = report_texts(alloc, config, trace.as_bytes(), &mut out)?;
    let report = out.into_inner();
    let mut out = Counted::new(Vec::new(alloc));
    assert_eq!(rt; write_report(alloc, sections.as_slice(), &mut out), Ok(()));
    assert_eq!(rt; out.into_inner().as_slice(), report.as_slice());
    for section in sections.as_slice() {
        assert_eq!(rt; section.events.as_slice().len(), 100);
        assert_eq!(rt; section.wire.as_slice().len(), 16);
    }
    let mut out = Counted::new(Vec::new(alloc));
    assert_eq!(rt; run_text(alloc, config, trace.as_bytes(), &mut out), Ok(()));
    assert_eq!(rt; out.into_inner().as_slice(), report.as_slice());
    let (answer, written, _, _) = stream(alloc, config, whole_pieces(trace.as_bytes()));
    assert_eq!(rt; answer, Ok(()));
    assert_eq!(rt; written.as_slice(), report.as_slice());
    Ok(())
}

/// A reader that gives as many octets as are asked for.
fn whole_pieces(octets: &[u8]) -> Pieces<'_> {
    Pieces {
        octets,
        most: 4096,
        fails: false,
    }
}

#[test]
fn failing_reader(rt: HostRuntime) {
    for place in 0..PROBE_LINE.len() {
        let (octets, _) = PROBE_LINE.as_bytes().split_at(place);
        let reader = Pieces {
            octets,
            most: 4096,
            fails: true,
        };
        let (answer, written, failures, _) = stream(rt.alloc(), CONFIGURATION.as_bytes(), reader);
        assert_eq!(rt; answer, Err(StreamFault::Read));
        assert_eq!(rt; (written.len(), failures), (0, 1));
    }
}

/// One of the configuration comes before any read, one of the trace after the piece in which it is: two octets are left
/// each time.
#[test]
fn a_fault_ends_reading(rt: HostRuntime) {
    let in_config = StreamFault::Config(ConfigFault::of_radio(4));
    let no_digits = StreamFault::Trace(TraceFault { code: 2, line: 2 });
    let no_word = StreamFault::Trace(TraceFault { code: 1, line: 2 });
    for (config, octets, most, fault) in [
        ("version = 1\nchannel = 15\n", "X\n", 4096, in_config),
        (CONFIGURATION, "A 00\nA 4\nT\n", 3, no_digits),
        (CONFIGURATION, "T\nX\nT\n", 4, no_word),
    ] {
        let octets = octets.as_bytes();
        let reader = Pieces {
            octets,
            most,
            fails: true,
        };
        let (answer, written, failures, left) = stream(rt.alloc(), config.as_bytes(), reader);
        assert_eq!(rt; answer, Err(fault));
        assert_eq!(rt; (written.len(), failures, left), (0, 0, 2));
    }
}
