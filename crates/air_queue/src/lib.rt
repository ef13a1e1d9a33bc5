//! The air queue: each network's frames, once and in order, on their way to the transmitter.
//!
//! Up to sixteen threads push, one for each network's pass, and one pops, all at the same time. A frame goes in by the
//! network's own [`NetPass`] and leaves by the one [`RadioPass`] (*profile*; a frame is one of IEEE Std 802.11-2016,
//! 9.2). However their steps fall, what left of a network and then what is queued of it is what its pass pushed. Each
//! frame is there once and in its order, and nothing else is there (`specs/Rule.antt`); [`AirQueue::take_in`] shows it,
//! once all passes are back. A call may wait for other threads. Nothing here promises that a thread gets on, or when.
//! Nor does it promise that a push which gives its frame back found the queue full, or that a pop which answers `false`
//! found it empty. The library's queue says that it was so at one moment of the call. Other threads may have changed it
//! by the time of the answer, so a fact about that moment would say nothing to a caller. Tests show both on one thread;
//! between threads none does.
//!
//! Which frames are pushed, and when, is left to the crates above.
//!
//! A frame of one network goes in by its pass, and leaves by that of the radio:
//!
//! ```
//! use air_queue::AirQueue;
//! use events::AirItem;
//! use mac_frame::Octets;
//!
//! let (queue, mut nets, mut radio) = AirQueue::open(rt.alloc(), 64, 1)?;
//! let [pass] = nets.as_mut_slice() else {
//!     panic!(rt; "another number of passes");
//! };
//! let octets = Octets::from_slice(rt.alloc(), &[0x80, 0])?;
//! assert!(rt; queue.push(&rt, pass, AirItem { place: 0, octets }).is_ok());
//! radio.reserve(1)?;
//! assert!(rt; queue.pop(&rt, &mut radio));
//! assert_eq!(rt; radio.left().len(), 1);
//! ```
#![tactic(auto)]

mod closing;
mod ending;
mod known;
mod laws;
mod pass;
mod queue;
mod rule;

pub use closing::ClosedQueue;
pub use ending::{Left, TakeInFault};
pub use laws::rule_is_kept;
pub use pass::{NetPass, PopPass, RadioPass};
pub use queue::AirQueue;
