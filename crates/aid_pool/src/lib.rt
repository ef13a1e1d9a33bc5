//! The association identifiers that a network hands out (IEEE Std 802.11-2016, 9.4.1.8).
//!
//! The one type to know first is an [`AidPool`]: the set of the identifiers that are in use. It promises that it hands
//! out the smallest free identifier, and fails exactly if as many are in use as it hands out at most. [`least_is_free`]
//! is the law that there is such an identifier.
//!
//! Which station has which number, and how one is written into a frame, is left to the crates above.
//!
//! Two identifiers are taken, and one comes back:
//!
//! ```
//! use aid_pool::AidPool;
//!
//! let mut pool = AidPool::new(2);
//! assert_eq!(rt; pool.take(), Some(1));
//! assert_eq!(rt; pool.take(), Some(2));
//! assert_eq!(rt; pool.take(), None);
//! pool.give(1);
//! assert_eq!(rt; pool.take(), Some(1));
//! ```
#![tactic(auto)]

mod marks;
mod pool;

pub use pool::{AidPool, least_is_free};
