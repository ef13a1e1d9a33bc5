//! Lines of each kind, and what is written of them.

use crate::samples::Sample;
use live::Face;
use std::alloc::{AllocError, Global};

/// Lines of each kind, of which the last has no end.
pub(crate) const TEXT: &str = "T\r\n# a line\n\nX\n\
    A 40000000 ffffffffffff 02aa00000001 ffffffffffff 0000 0000 010402040b16  \r\n\
    I\nI \r\nA 4\r\nT 1\r";

/// What is written before the first line.
pub(crate) const OK: &str = "ok 1\n";

/// What is answered to each line of [`TEXT`].
const ANSWERS: &[&str] = &[
    "air 02:00:00:00:00:01 80000000ffffffffffff020000000001020000000001000000900100000000006400010000036c6162\
        010482840b16030106050400010000\n",
    "",
    "",
    "fault L1 line 4\n",
    "air 02:00:00:00:00:01 5000000002aa00000001020000000001020000000001100000900100000000006400010000036c6162\
        010482840b16030106\n",
    TABLE,
    TABLE,
    "fault L2 line 8\n",
    "fault L1 line 9\n",
];

/// The table from the sixth line on.
const TABLE: &str = "network 02:00:00:00:00:01 ssid 6c6162\n\
    events 2 clock 1 unread 0 lost 0 kept 0\n\
    end\n";

/// [`TEXT`] and its answers: a line is answered at its LF, and one that has none at the end.
pub(crate) fn conversation(alloc: Global) -> Result<Sample, AllocError> {
    let mut sample = Sample::new(alloc, Face::Lines, OK.as_bytes())?;
    for (line, answer) in TEXT.split_inclusive('\n').zip(ANSWERS) {
        if line.ends_with('\n') {
            sample.ask(line.as_bytes(), answer.as_bytes())?;
        } else {
            sample.say(line.as_bytes())?;
            sample.end(answer.as_bytes())?;
        }
    }
    sample.end(TABLE.as_bytes())?;
    Ok(sample)
}
