//! What is said to an access point, and what is written of it.

use live::Face;
use std::alloc::{AllocError, Global};

/// An input, and what is written of it by when.
#[derive(Drop)]
pub(crate) struct Sample {
    pub(crate) face: Face,
    /// What is said.
    pub(crate) input: Vec<u8>,
    /// What is written.
    pub(crate) written: Vec<u8>,
    /// How many octets of it are due after no octet of the input, after one, and so on.
    pub(crate) due: Vec<usize>,
}

impl Sample {
    /// Nothing is said, and this is written before anything is read.
    pub(crate) fn new(alloc: Global, face: Face, opened: &[u8]) -> Result<Sample, AllocError> {
        Ok(Sample {
            face,
            input: Vec::new(alloc),
            written: opened.to_vec(alloc)?,
            due: vec![in alloc; opened.len()]?,
        })
    }

    /// This is said too, and has no answer.
    pub(crate) fn say(&mut self, said: &[u8]) -> Result<(), AllocError> {
        self.input.extend_from_slice(said)?;
        for _ in said {
            self.due.push(self.written.len())?;
        }
        Ok(())
    }

    /// This is said too, and this is its answer, which is due once all of it is there.
    pub(crate) fn ask(&mut self, said: &[u8], answer: &[u8]) -> Result<(), AllocError> {
        self.say(said)?;
        self.written.extend_from_slice(answer)?;
        let _before = self.due.pop();
        self.due.push(self.written.len())?;
        Ok(())
    }

    /// This is written too, if the input ends.
    pub(crate) fn end(&mut self, answer: &[u8]) -> Result<(), AllocError> {
        self.written.extend_from_slice(answer)
    }

    /// How many octets are due once all was read.
    pub(crate) fn due_at_end(&self) -> usize {
        self.due.as_slice().last().copied().unwrap_or(0)
    }
}
