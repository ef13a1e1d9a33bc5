//! The way of standard input, which is the model: a radio with its queue takes the lines of a trace, and each network
//! keeps its history. No other word of the program runs a radio.

mod drained_radio;
mod frames_left;
mod radio_replay;
mod text;

pub use radio_replay::Replay;
pub use text::report_texts;
