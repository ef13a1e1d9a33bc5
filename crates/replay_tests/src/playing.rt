//! Traces that are played at once.

use fixtures::texts::{ANSWERED_REPORT, CONFIGURATION, PROBE_LINE};
use mac_frame::Octets;
use play_text::{PlayTextFault, play_text};
use std::test::Fail;
use text_io::Counted;
use trace::TraceFault;

/// The first trace with a fault is told, and how many there are before any of their faults.
#[test]
fn one_to_sixty_four_traces_are_played(rt: HostRuntime) -> Result<(), Fail> {
    let alloc = rt.alloc();
    let fault = TraceFault { code: 1, line: 2 };
    for (texts, answer, report) in [
        ([PROBE_LINE].as_slice(), Ok(()), ANSWERED_REPORT),
        (
            [PROBE_LINE, "T\nX\n", "X\n"].as_slice(),
            Err(PlayTextFault::Trace { source: 1, fault }),
            "",
        ),
        ([].as_slice(), Err(PlayTextFault::Sources), ""),
        (["X"; 65].as_slice(), Err(PlayTextFault::Sources), ""),
    ] {
        let mut traces = Vec::new(alloc);
        for text in texts {
            traces.push(Octets::from_slice(alloc, text.as_bytes())?)?;
        }
        let mut out = Counted::new(Vec::new(alloc));
        let config = CONFIGURATION.as_bytes();
        let found = play_text(&rt, alloc, config, traces.as_slice(), &mut out);
        assert_eq!(rt; found, answer);
        assert_eq!(rt; out.into_inner().as_slice(), report.as_bytes());
    }
    Ok(())
}
