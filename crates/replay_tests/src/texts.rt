//! Whole texts: writers that fail, a configuration that is no text, and a long trace.

use ap_config::ConfigFault;
use fixtures::texts::{ANSWERED_REPORT, CONFIGURATION, PROBE_LINE, TICK_LINE};
use replay::{TextFault, run_text};
use std::test::Fail;
use text_io::{Counted, Sink};

#[test]
fn failing_writer(rt: HostRuntime) -> Result<(), Fail> {
    let alloc = rt.alloc();
    for room in 0..ANSWERED_REPORT.len() {
        let mut device = vec![in alloc; 0; room]?;
        let mut out = Counted::new(device.as_mut_slice());
        let (config, trace) = (CONFIGURATION.as_bytes(), PROBE_LINE.as_bytes());
        let answer = run_text(alloc, config, trace, &mut out);
        assert_eq!(rt; answer, Err(TextFault::Write));
        assert_eq!(rt; out.failures(), 1);
        assert_eq!(rt; out.into_inner().len(), 0);
        assert!(rt; ANSWERED_REPORT.as_bytes().starts_with(device.as_slice()));
    }
    Ok(())
}

#[test]
fn a_configuration_that_is_no_utf_8_is_refused(rt: HostRuntime) {
    let mut out = Counted::new(Vec::new(rt.alloc()));
    let config = b"version = 1\n# \xff\n".as_slice();
    let answer = run_text(rt.alloc(), config, PROBE_LINE.as_bytes(), &mut out);
    assert_eq!(rt; answer, Err(TextFault::Config(ConfigFault::of_radio(1))));
    assert_eq!(rt; out.into_inner().len(), 0);
}

/// The last two of 4097 answers to a probe, and the end of the report.
const LAST_TWO_ANSWERS: &str = "\
    air 5000000002aa00000001020000000001020000000001f0ff\
    00000000000000006400010000036c6162010482840b16030106\n\
    air 5000000002aa000000010200000000010200000000010000\
    00000000000000006400010000036c6162010482840b16030106\n\
    end\n";

/// The last two of 4097 beacons.
const LAST_TWO_BEACONS: &str = "\
    air 80000000ffffffffffff020000000001020000000001f0ff\
    00000019000000006400010000036c6162010482840b16030106050400010000\n\
    air 80000000ffffffffffff0200000000010200000000010000\
    00900119000000006400010000036c6162010482840b16030106050400010000\n\
    end\n";

#[test]
fn sequence_numbers_begin_again(rt: HostRuntime) -> Result<(), Fail> {
    let alloc = rt.alloc();
    let config = CONFIGURATION.replace(alloc, "max_events = 100", "max_events = 5000")?;
    for (line, last_two) in [
        (PROBE_LINE, LAST_TWO_ANSWERS),
        (TICK_LINE, LAST_TWO_BEACONS),
    ] {
        let mut trace = String::new(alloc);
        for _ in 0..4097 {
            trace.push_str(line)?;
        }
        let mut out = Counted::new(Vec::new(alloc));
        let answer = run_text(alloc, config.as_bytes(), trace.as_bytes(), &mut out);
        assert_eq!(rt; answer, Ok(()));
        let report = out.into_inner();
        assert!(rt; report.as_slice().ends_with(last_two.as_bytes()));
        let lines = report.iter().filter(|octet| **octet == b'\n').count();
        assert_eq!(rt; lines, 4097 + 3);
    }
    Ok(())
}
