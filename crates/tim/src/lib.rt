//! The TIM element (IEEE Std 802.11-2016, 9.4.2.6): a beacon tells which stations have units waiting.
//!
//! It promises that a string of octets shows a set of association identifiers exactly if it is a TIM that has their
//! bits, in one spelling. The types to know first are [`Bitmap`], a set of association identifiers, and [`Tim`], what
//! an element shows. [`write_tim`] writes an element, and [`read_tim`] reads one.
//!
//! Whose units wait, and when a beacon is sent, is left to the crates above.
//!
//! A TIM shows two stations, and is read again:
//!
//! ```
//! use mac_frame::Octets;
//! use tim::{Bitmap, read_tim, write_tim};
//!
//! let mut waiting = Bitmap::new();
//! waiting.set(1);
//! waiting.set(10);
//! let mut element = Octets::new(rt.alloc());
//! write_tim(&mut element, 0, 3, false, &waiting)?;
//! assert_eq!(rt; element.as_slice(), [5, 5, 0, 3, 0, 2, 4].as_slice());
//! let tim = read_tim(element.as_slice()).ok_or("no TIM")?;
//! assert!(rt; tim.period == 3 && tim.bits.has(1) && tim.bits.has(10) && !tim.bits.has(2));
//! ```
#![tactic(auto)]

mod bitmap;
mod element;

pub use bitmap::{Bitmap, numbers_are_aids};
pub use element::{TIM, Tim, one_tim, read_tim, write_tim};
