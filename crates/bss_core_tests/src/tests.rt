//! What neither the prover nor the program's report can say: what calls answer. A test asserts on what came out of a
//! function that made the calls: one that asserts much itself, while a network is at hand, takes long to prove.

use events::{AirItem, Event};
use fixtures::octets;
use hex::FromHexError;
use mac_frame::Octets;
use std::alloc::Global;

mod aging;
mod one_network;
mod radio;
mod read_once;
mod runs;

/// The event that octets, as a text spells them, were heard on the air.
fn heard(alloc: Global, text: &str) -> Result<Event, FromHexError> {
    Ok(Event::Air(octets(alloc, text)?))
}

/// Whether frames are those that texts spell, in their order.
fn are_frames(alloc: Global, frames: &[Octets], texts: &[&str]) -> Result<bool, FromHexError> {
    for (frame, text) in frames.iter().zip(texts) {
        if frame.as_slice() != octets(alloc, *text)?.as_slice() {
            return Ok(false);
        }
    }
    Ok(frames.len() == texts.len())
}

/// Whether items are the frames that texts spell, of the networks at these places, in their order.
fn are_items(
    alloc: Global,
    items: &[AirItem],
    frames: &[(usize, &str)],
) -> Result<bool, FromHexError> {
    for (item, (place, text)) in items.iter().zip(frames) {
        if item.place != *place || item.octets.as_slice() != octets(alloc, *text)?.as_slice() {
            return Ok(false);
        }
    }
    Ok(items.len() == frames.len())
}
