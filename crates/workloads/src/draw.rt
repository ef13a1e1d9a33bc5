//! Numbers that are drawn from a seed, the same for the same seed.

/// What is drawn next. A linear congruential generator modulo 2^64 with Knuth's multiplier, of which the high half is
/// given.
#[derive(Drop)]
pub(crate) struct Draw {
    state: u64,
}

impl Draw {
    /// What is drawn from a seed.
    pub(crate) fn new(seed: u32) -> Draw {
        Draw {
            state: u64::from(seed).wrapping_mul(0x9e37_79b9_7f4a_7c15),
        }
    }

    /// A number below a bound of at most 2^32, or 0 if the bound is 0.
    #[inline]
    pub(crate) fn below(&mut self, bound: usize) -> usize {
        self.state = self
            .state
            .wrapping_mul(6_364_136_223_846_793_005)
            .wrapping_add(1_442_695_040_888_963_407);
        ((self.state >> 32).wrapping_mul(bound as u64) >> 32) as usize
    }
}
