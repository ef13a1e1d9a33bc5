//! Which access point it is, for proofs alone (*profile*).
//!
//! An access point has a name, for contracts alone ([`ApName`]). So who uses one is a function that is generic in it,
//! and the call of that function picks the name, by the parts that it hands on:
//!
//! ```text
//! fn beacons<R: Wait>(rt: &R, alloc: Global, config: RadioConfig) -> Result<Finished, Fail> {
//!     beacons_of::<Brand, R>(rt, alloc, Parts::open(alloc, config, 1)?)
//! }
//!
//! fn beacons_of<N: ApName, R: Wait>(rt: &R, alloc: Global, parts: Parts) -> Result<Finished, Fail>
//!     requires { AreNamed N.config N.queue parts }
//! {
//!     let (ap, mut callers, transmitter) = Ap::<N>::start(alloc, parts)?;
//!     for caller in callers.iter_mut() {
//!         ap.tick(rt, caller)?;
//!     }
//!     for place in 0..ap.networks() {
//!         ap.pump(rt, place);
//!     }
//!     Ok(ap.finish(rt, callers, transmitter)?)
//! }
//! ```
//!
//! and in `proofs/beacons/Invariants.antt`, the pick:
//!
//! ```text
//! ghosts-beacons_of g a = record { config = a.parts.config; queue = a.parts.queue }
//! ```

use std::marker::Brand;

/// Names one access point: its configuration, and the name of its air queue. The call of a function that is generic
/// in it picks both, from the [`crate::Parts`] that it hands on. It has no code, and no value of it is made.
pub trait ApName {
    ghost use Rattle.ap_config.specs.declared.config.RadioConfig.{RadioConfig};
    ghost use Rattle.air_queue.specs.Passes.{QueueName};

    ghost config: { RadioConfig };

    ghost queue: { QueueName };
}

/// What such a call passes, so that its proof picks the name. If it picks none, the name is nobody's.
impl ApName for Brand {
    ghost use Rattle.play.specs.Plays.{no_config, no_queue};

    ghost config = { no_config };

    ghost queue = { no_queue };
}
