//! The queues of `downlink` for programs in other languages, as a static library over memory that the caller keeps.
//!
//! A caller keeps the memory of a radio, of [`downlink_size`] octets, and hands in a [`RadioHandle`] that points there.
//! It makes the radio once, before all other calls, and calls from one thread. All else each function tests itself,
//! since nothing checks that such a caller meets a condition: it tells what it refuses, and then all is as it was.
//! Frames, calls and answers are numbers.
#![tactic(auto)]

ghost use Rattle.std.specs.Prelude.{◌≡◌, ◌+◌, ◌*◌, ◌<◌, ◌≤◌, ◌^◌, ◌↔◌, [], length, true, false, is_some};
ghost use Rattle.std.specs.Prelude.{IsTrue, IsSome, None};
ghost use Rattle.std.specs.Bool.{OnTrue, OnFalse};
ghost use Rattle.std.specs.Option.{option_map};
ghost use Rattle.air_share.specs.Lanes.{chosen, lane_at};
ghost use Rattle.downlink.specs.Receiver.{are_ignored};
ghost use Rattle.downlink.specs.Calls.{Comes, Told, Returns, GivesUp};
ghost use Rattle.downlink.specs.Networks.{new_network};
ghost use Rattle.downlink.specs.Radios.{new_radio, with_network, receiver_at};
ghost use Rattle.downlink.specs.Radios.{Of, Next, NextOf, Pauses, Used, radio_step, radio_answer, network_answer_of};
ghost use Rattle.downlink_c.specs.Holding.{IsSameHandle};
ghost use Rattle.downlink_c.specs.Owned.{radio_size};
ghost use Rattle.downlink_c.specs.Numbers.{frame_told, chosen_told, change_of, after_change};

mod handle;
mod holding;
mod numbers;

use downlink::{NetworkQueue, RadioQueue, Refusal};
pub use handle::RadioHandle;
use holding::{lend, put, take};
pub use numbers::{Added, Changed, Chosen, FrameTold, Taken};
use numbers::{NOTHING, change_of, chosen_told, frame_told};
use std::alloc::Global;

/// The largest weight of a network; the least is 1.
const MAX_WEIGHT: u8 = 16;

/// How many octets of memory a radio takes, at a multiple of 8.
#[unsafe(no_mangle)]
pub extern "C" fn downlink_size() -> usize
    ensures { result ≡ radio_size }
{
    size_of::<RadioQueue>()
}

/// [`RadioQueue::new`], in the memory of a handle that holds no radio.
#[unsafe(no_mangle)]
pub extern "C" fn downlink_new(alloc: Global, radio: &mut RadioHandle)
    requires none { radio.old.is_made ≡ false }
    ensures { radio.new ≡ record radio.old { is_made = true; radio = new_radio [] } }
{
    put(radio, RadioQueue::new(alloc));
}

/// Frees all that a radio took, but for the caller's own memory. The handle holds none then.
#[unsafe(no_mangle)]
pub extern "C" fn downlink_free(radio: &mut RadioHandle)
    requires made { radio.old.is_made ≡ true }
    ensures { radio.new ≡ record radio.old { is_made = false } }
{
    drop(take(radio));
}

/// [`RadioQueue::add`] of a network with a receiver for each of these numbers: of the frames that may wait for it.
#[unsafe(no_mangle)]
pub extern "C" fn downlink_add(
    alloc: Global,
    radio: &mut RadioHandle,
    weight: u8,
    mosts: &[usize],
) -> Added
    requires made { radio.old.is_made ≡ true }
    ensures handle { IsSameHandle radio.old radio.new }
    ensures allowed { IsTrue result.is_allowed ↔ ((1 ≤ weight) × (weight ≤ 16)) }
    ensures allows { IsTrue result.is_added → IsTrue result.is_allowed }
    ensures added { OnTrue result.is_added
        (radio.new.radio ≡ with_network radio.old.radio weight (new_network mosts.now)) }
    ensures refused { OnFalse result.is_added (radio.new.radio ≡ radio.old.radio) }
{
    let is_allowed = 1 <= weight && weight <= MAX_WEIGHT;
    let is_added = is_allowed && add(alloc, radio, weight, mosts);
    Added {
        is_allowed,
        is_added,
    }
}

/// [`downlink_add`] of an allowed weight: whether there was memory.
fn add(alloc: Global, radio: &mut RadioHandle, weight: u8, mosts: &[usize]) -> bool
    requires made { radio.old.is_made ≡ true }
    requires allowed { (1 ≤ weight) × (weight ≤ 16) }
    ensures handle { IsSameHandle radio.old radio.new }
    ensures added { OnTrue result
        (radio.new.radio ≡ with_network radio.old.radio weight (new_network mosts.now)) }
    ensures refused { OnFalse result (radio.new.radio ≡ radio.old.radio) }
{
    match NetworkQueue::new(alloc, mosts) {
        Ok(network) => lend(radio).add(weight, network).is_ok(),
        Err(_) => false,
    }
}

/// [`RadioQueue::has_next`].
#[unsafe(no_mangle)]
pub extern "C" fn downlink_has_next(radio: &mut RadioHandle) -> bool
    requires made { radio.old.is_made ≡ true }
    ensures handle { IsSameHandle radio.old radio.new }
    ensures same { radio.new.radio ≡ radio.old.radio }
    ensures next { result ≡ is_some (chosen radio.old.radio.lanes) }
{
    lend(radio).has_next()
}

/// [`RadioQueue::turn_of`].
#[unsafe(no_mangle)]
pub extern "C" fn downlink_turn(radio: &mut RadioHandle) -> Chosen
    requires made { radio.old.is_made ≡ true }
    ensures handle { IsSameHandle radio.old radio.new }
    ensures same { radio.new.radio ≡ radio.old.radio }
    ensures turn { result ≡ chosen_told (chosen radio.old.radio.lanes) }
{
    chosen_told(lend(radio).turn_of())
}

/// [`RadioQueue::comes`].
#[unsafe(no_mangle)]
pub extern "C" fn downlink_comes(
    radio: &mut RadioHandle,
    network: usize,
    receiver: usize,
    ticket: u64,
    is_unit: bool,
    until: u64,
    now: u64,
) -> Taken
    requires made { radio.old.is_made ≡ true }
    ensures handle { IsSameHandle radio.old radio.new }
    ensures there { IsTrue result.is_there ↔ IsSome (receiver_at radio.old.radio network receiver) }
    ensures taken { IsTrue result.is_taken → IsTrue result.is_there }
    ensures after { OnTrue result.is_taken (radio.new.radio
        ≡ radio_step radio.old.radio (Of network receiver (Comes ticket is_unit until now))) }
    ensures answer { OnTrue result.is_taken (result.told ≡ frame_told (option_map network_answer_of
        (radio_answer radio.old.radio (Of network receiver (Comes ticket is_unit until now))))) }
    ensures refused { OnFalse result.is_taken (radio.new.radio ≡ radio.old.radio) }
    ensures nothing { OnFalse result.is_taken (result.told ≡ frame_told None) }
{
    match lend(radio).comes(network, receiver, ticket, is_unit, until, now) {
        Ok(dropped) => Taken {
            is_there: true,
            is_taken: true,
            told: frame_told(dropped),
        },
        Err(refusal) => Taken {
            is_there: matches!(refusal, Refusal::NoMemory),
            is_taken: false,
            told: NOTHING,
        },
    }
}

/// [`RadioQueue::next`].
#[unsafe(no_mangle)]
pub extern "C" fn downlink_next(radio: &mut RadioHandle, now: u64) -> FrameTold
    requires made { radio.old.is_made ≡ true }
    ensures handle { IsSameHandle radio.old radio.new }
    ensures after { radio.new.radio ≡ radio_step radio.old.radio (Next now) }
    ensures answer { result ≡ frame_told (option_map network_answer_of (radio_answer radio.old.radio (Next now))) }
{
    frame_told(lend(radio).next(now))
}

/// [`RadioQueue::next_of`].
#[unsafe(no_mangle)]
pub extern "C" fn downlink_next_of(
    radio: &mut RadioHandle,
    network: usize,
    receiver: usize,
    now: u64,
) -> FrameTold
    requires made { radio.old.is_made ≡ true }
    ensures handle { IsSameHandle radio.old radio.new }
    ensures after { radio.new.radio ≡ radio_step radio.old.radio (NextOf network receiver now) }
    ensures answer { result
        ≡ frame_told (option_map network_answer_of (radio_answer radio.old.radio (NextOf network receiver now))) }
{
    frame_told(lend(radio).next_of(network, receiver, now))
}

/// [`RadioQueue::ignores_polls`].
#[unsafe(no_mangle)]
pub extern "C" fn downlink_ignores_polls(
    radio: &mut RadioHandle,
    network: usize,
    receiver: usize,
) -> bool
    requires made { radio.old.is_made ≡ true }
    ensures handle { IsSameHandle radio.old radio.new }
    ensures same { radio.new.radio ≡ radio.old.radio }
    ensures ignored { result ≡ are_ignored (receiver_at radio.old.radio network receiver) }
{
    lend(radio).ignores_polls(network, receiver)
}

/// [`RadioQueue::pauses`].
#[unsafe(no_mangle)]
pub extern "C" fn downlink_pauses(radio: &mut RadioHandle, network: usize, is_paused: bool) -> bool
    requires made { radio.old.is_made ≡ true }
    ensures handle { IsSameHandle radio.old radio.new }
    ensures there { IsTrue result ↔ (network < length radio.old.radio.networks) }
    ensures after { radio.new.radio ≡ radio_step radio.old.radio (Pauses network is_paused) }
{
    lend(radio).pauses(network, is_paused)
}

/// [`RadioQueue::used`].
#[unsafe(no_mangle)]
pub extern "C" fn downlink_used(radio: &mut RadioHandle, network: usize, units: u32) -> bool
    requires made { radio.old.is_made ≡ true }
    ensures handle { IsSameHandle radio.old radio.new }
    ensures fits { IsTrue result ↔ ((network < length radio.old.radio.lanes)
        × ((lane_at radio.old.radio.lanes network).debt + (lane_at radio.old.radio.lanes network).scale * units
        < 2 ^ 64)) }
    ensures after { OnTrue result (radio.new.radio ≡ radio_step radio.old.radio (Used network units)) }
    ensures refused { OnFalse result (radio.new.radio ≡ radio.old.radio) }
{
    lend(radio).used(network, units)
}

/// [`RadioQueue::told`].
#[unsafe(no_mangle)]
pub extern "C" fn downlink_told(
    radio: &mut RadioHandle,
    network: usize,
    receiver: usize,
    ticket: u64,
    is_acknowledged: bool,
) -> FrameTold
    requires made { radio.old.is_made ≡ true }
    ensures handle { IsSameHandle radio.old radio.new }
    ensures after { radio.new.radio ≡ radio_step radio.old.radio (Of network receiver (Told ticket is_acknowledged)) }
    ensures answer { result ≡ frame_told (option_map network_answer_of
        (radio_answer radio.old.radio (Of network receiver (Told ticket is_acknowledged)))) }
{
    frame_told(lend(radio).told(network, receiver, ticket, is_acknowledged))
}

/// [`RadioQueue::returns`].
#[unsafe(no_mangle)]
pub extern "C" fn downlink_returns(
    radio: &mut RadioHandle,
    network: usize,
    receiver: usize,
) -> FrameTold
    requires made { radio.old.is_made ≡ true }
    ensures handle { IsSameHandle radio.old radio.new }
    ensures after { radio.new.radio ≡ radio_step radio.old.radio (Of network receiver Returns) }
    ensures answer { result
        ≡ frame_told (option_map network_answer_of (radio_answer radio.old.radio (Of network receiver Returns))) }
{
    frame_told(lend(radio).returns(network, receiver))
}

/// [`RadioQueue::gives_up`].
#[unsafe(no_mangle)]
pub extern "C" fn downlink_gives_up(
    radio: &mut RadioHandle,
    network: usize,
    receiver: usize,
) -> FrameTold
    requires made { radio.old.is_made ≡ true }
    ensures handle { IsSameHandle radio.old radio.new }
    ensures after { radio.new.radio ≡ radio_step radio.old.radio (Of network receiver GivesUp) }
    ensures answer { result
        ≡ frame_told (option_map network_answer_of (radio_answer radio.old.radio (Of network receiver GivesUp))) }
{
    frame_told(lend(radio).gives_up(network, receiver))
}

/// [`RadioQueue::change`], by the number of the change: it joins, leaves, dozes, settles, wakes or polls, from 0 on.
#[unsafe(no_mangle)]
pub extern "C" fn downlink_change(
    radio: &mut RadioHandle,
    network: usize,
    receiver: usize,
    change: u8,
    until: u64,
) -> Changed
    requires made { radio.old.is_made ≡ true }
    ensures handle { IsSameHandle radio.old radio.new }
    ensures known { IsTrue result.is_known ↔ IsSome (change_of change until) }
    ensures there { OnTrue result.is_known
        (IsTrue result.is_there ↔ IsSome (receiver_at radio.old.radio network receiver)) }
    ensures unknown { IsTrue result.is_there → IsTrue result.is_known }
    ensures after { radio.new.radio ≡ after_change radio.old.radio network receiver (change_of change until) }
{
    match change_of(change, until) {
        Some(change) => Changed {
            is_known: true,
            is_there: lend(radio).change(network, receiver, change),
        },
        None => Changed {
            is_known: false,
            is_there: false,
        },
    }
}
