//! What decides when a source may go on (*profile*).

/// Is called before each line that a source gives, and returns when the line may be given (*profile*). So who uses an
/// access point may hold one source until another has come to some line.
pub trait Gate {
    /// Is called before a line of a source. Sources are numbered from 0 and the lines of each from 1; it is called
    /// with 4,294,967,295 for every later line too.
    fn before(&self, source: u32, line: u32);
}

/// Holds no source.
#[derive(Clone, Copy, Debug)]
pub(crate) struct NoGate;

impl Gate for NoGate {
    #[inline(always)]
    fn before(&self, _source: u32, _line: u32) {}
}
