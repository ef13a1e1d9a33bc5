//! The input of a workload, as it is read.

use crate::script::Script;
use std::io::{self, ErrorKind, Read};

/// How many acts are put together at a time.
const FEW: u32 = 32;

/// A script that is read, up to a number of acts.
#[derive(Drop)]
pub(crate) struct Input<'a> {
    script: Script<'a>,
    // how many octets of what was put together last are given
    given: usize,
    // how many acts are left
    left: u32,
}

impl<'a> Input<'a> {
    /// The first acts of a script.
    pub(crate) fn new(script: Script<'a>, acts: u32) -> Input<'a> {
        Input {
            script,
            given: 0,
            left: acts,
        }
    }
}

impl Read for Input<'_> {
    fn read(&mut self, buf: &mut [u8]) -> io::Result<usize> {
        if self.given >= self.script.as_slice().len() {
            let acts = self.left.min(FEW);
            self.left = self.left.saturating_sub(acts);
            self.given = 0;
            if self.script.refill(acts).is_err() {
                return Err(io::Error::from(ErrorKind::OutOfMemory));
            }
        }
        let mut rest = self.script.as_slice().get(self.given..).unwrap_or(b"");
        let count = rest.read(buf)?;
        self.given = self.given.saturating_add(count);
        Ok(count)
    }
}
