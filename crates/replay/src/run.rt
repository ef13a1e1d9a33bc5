//! The way of `run`: the networks of a configuration take the lines of a trace and keep the frames that they send, and no
//! event.

mod networks_with_frames;
mod stream;
mod text;

pub use stream::run_stream;
pub use text::run_text;
