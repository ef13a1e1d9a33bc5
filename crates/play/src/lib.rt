//! Several sources of lines that are played at once, each by a thread, to the networks of a configuration (*profile*; the
//! networks are those of IEEE Std 802.11-2016, 11.1 to 11.3).
//!
//! Its one idea: an event of a network is the next line of some source that this network hears. So under the lock of each
//! network stand the network and, for each source, the number of its next line; the lines are lent, and none is copied.
//! Whatever thread has the lock, the network took of each source the first events that it hears there, in their order.
//!
//! Frames leave by the air queue, in which those of all networks meet. Where it is full a frame waits with its network.
//! What was pushed of a network, and then what waits, is all that it sent. The sources' threads let frames leave: who
//! handed on enough does, and who finds the queue full does until none of its own wait.
//!
//! [`play_with_frames`] borrows each source from a [`LineLog`]. It promises that once all lines are given each network,
//! with the frames that it sent, is such a one, alone with its events. [`play_finished`] keeps besides who gave each
//! event, and what left in its order: a [`Finished`]. It asks a [`Gate`] before each line. The definitions say what a
//! `Finished` promises (`Sections`, `Givers`, `Played`), also one of callers that are no sources; a [`PlayFault`] says
//! why there is none. Nothing here promises which thread is served when, that a thread gets on, or time.
//!
//! One source says that a beacon interval began:
//!
//! ```
//! use config_text::read_config;
//! use events::LentLine;
//! use fixtures::texts::CONFIGURATION;
//! use play::{LineLog, play_with_frames};
//!
//! let config = read_config(rt.alloc(), CONFIGURATION.as_bytes())?;
//! let mut source = LineLog::new(rt.alloc());
//! source.push(LentLine::Tick)?;
//! let networks = play_with_frames(&rt, rt.alloc(), config, &[source])?;
//! let [lab] = networks.as_slice() else {
//!     panic!(rt; "another number of networks");
//! };
//! assert_eq!(rt; lab.network.clock(), 1);
//! ```
#![tactic(auto)]

mod batch;
mod ending;
mod finish_fault;
mod finished;
mod gate;
mod kept;
mod lines;
mod locked_networks;
mod mark;
mod name;
mod outlet;
mod parts;
mod play_fault;
mod playing;
mod seat;
mod sources;
mod spares;
mod threads;

pub use finish_fault::FinishFault;
pub use finished::Finished;
pub use gate::Gate;
pub use lines::LineLog;
pub use play_fault::PlayFault;
pub use playing::{play_finished, play_with_frames};

/// The most callers or sources of an access point (*profile*).
pub const MAX_CALLERS: u32 = 64;
