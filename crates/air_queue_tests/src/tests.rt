//! Frames through a queue, of as many networks as there may be, and on one thread and on three.

ghost use Rattle.std.specs.Prelude.{◌≡◌, ◌≤◌, IfOk};
ghost use Rattle.std.specs.FinMap as finite;
ghost use Rattle.air_queue.specs.Passes.{AllThere, fresh_pass};

use air_queue::{AirQueue, Left, NetPass, RadioPass};
use ap_config::MAX_NETWORKS;
use events::AirItem;
use fixtures::{guest, lab, octets};
use hex::FromHexError;
use mac_frame::{NoMemory, Octets};
use std::alloc::Global;
use std::sync::Wait;
use std::test::Fail;
use std::thread;
use std::thread::Threads;

/// How many frames each thread pushes.
const FRAMES: u8 = 100;

/// How often a thread tries to push one frame at most, and how often one tries to pop in all.
const TURNS: u32 = 1_000_000;

/// The frame that a text spells, of the network at a place.
fn frame(alloc: Global, place: usize, text: &str) -> Result<AirItem, FromHexError>
    ensures { IfOk result (λ item. item.place ≡ place) }
{
    let octets = octets(alloc, text)?;
    Ok(AirItem { place, octets })
}

/// A frame of one octet.
fn item(alloc: Global, place: usize, octet: u8) -> Result<AirItem, NoMemory>
    ensures { IfOk result (λ item. item.place ≡ place) }
{
    let octets = Octets::from_slice(alloc, &[octet])?;
    Ok(AirItem { place, octets })
}

/// A queue for two networks.
fn open_two(
    alloc: Global,
    capacity: u16,
) -> Result<(AirQueue, NetPass, NetPass, RadioPass), NoMemory>
    requires { (1 ≤ capacity) × (capacity ≤ 4096) }
    ensures first { IfOk result (λ r. r.1 ≡ fresh_pass r.0.name 0) }
    ensures second { IfOk result (λ r. r.2 ≡ fresh_pass r.0.name 1) }
    ensures radio { IfOk result (λ r. (r.3.name ≡ r.0.name) × (r.3.networks ≡ 2) × (r.3.taken_in ≡ finite.empty)) }
{
    let (queue, mut nets, radio) = AirQueue::open(alloc, capacity, 2)?;
    let second = nets.pop();
    let first = nets.pop();
    let (Some(first), Some(second)) = (first, second) else {
        return Err(NoMemory);
    };
    Ok((queue, first, second, radio))
}

/// Takes the queue in, with the passes of two networks.
fn end_two<R: Wait>(
    rt: &R,
    alloc: Global,
    queue: AirQueue,
    first: NetPass,
    second: NetPass,
    radio: RadioPass,
) -> Result<Left, NoMemory>
    requires first { (first.name ≡ queue.name) × (first.place ≡ 0) }
    requires second { (second.name ≡ queue.name) × (second.place ≡ 1) }
    requires radio { (radio.name ≡ queue.name) × (radio.networks ≡ 2) × (radio.taken_in ≡ finite.empty) }
{
    let mut nets = Vec::with_capacity(alloc, 2)?;
    nets.push_reserved(first);
    nets.push_reserved(second);
    queue.take_in(rt, radio, nets).map_err(|_fault| NoMemory)
}

/// Pushes a frame of each network. Whether the queue took both.
fn push_both<R: Wait>(
    rt: &R,
    alloc: Global,
    queue: &AirQueue,
    first: &mut NetPass,
    second: &mut NetPass,
) -> Result<bool, FromHexError>
    requires first { (first.old.name ≡ queue.now.name) × (first.old.place ≡ 0) }
    requires second { (second.old.name ≡ queue.now.name) × (second.old.place ≡ 1) }
    ensures first { (first.new.name ≡ queue.now.name) × (first.new.place ≡ 0) }
    ensures second { (second.new.name ≡ queue.now.name) × (second.new.place ≡ 1) }
{
    let of_first = frame(alloc, 0, lab::BEACON)?;
    let of_second = frame(alloc, 1, guest::BEACON)?;
    Ok(queue.push(rt, first, of_first).is_ok() && queue.push(rt, second, of_second).is_ok())
}

/// Makes room for a frame and pops one. Whether it is the only one that left.
fn pop_first<R: Wait>(rt: &R, queue: &AirQueue, radio: &mut RadioPass) -> Result<bool, NoMemory>
    requires { radio.old.name ≡ queue.now.name }
    ensures { (radio.new.name ≡ radio.old.name) × (radio.new.networks ≡ radio.old.networks)
        × (radio.new.taken_in ≡ radio.old.taken_in) }
{
    radio.reserve(1)?;
    let has_room = radio.spare() >= 1;
    Ok(queue.pop(rt, radio) && has_room && radio.left().len() == 1)
}

/// Whether an item is the frame that a text spells, of the network at a place.
fn is_frame(
    alloc: Global,
    item: &AirItem,
    (place, text): (usize, &str),
) -> Result<bool, FromHexError> {
    Ok(item.place == place && item.octets.as_slice() == octets(alloc, text)?.as_slice())
}

/// Whether items are such frames, in their order.
fn are_frames(
    alloc: Global,
    items: &[AirItem],
    frames: &[(usize, &str)],
) -> Result<bool, FromHexError> {
    for (item, frame) in items.iter().zip(frames) {
        if !is_frame(alloc, item, *frame)? {
            return Ok(false);
        }
    }
    Ok(items.len() == frames.len())
}

/// The frame that the full queue of the test below gives back.
const GIVEN_BACK: (usize, &str) = (0, lab::PROBE_RESPONSE);

/// The frames in the order in which the queue took them.
const TAKEN: [(usize, &str); 3] = [(0, lab::BEACON), (1, guest::BEACON), GIVEN_BACK];

#[test]
fn a_full_queue_gives_the_frame_back(rt: HostRuntime) -> Result<(), Fail> {
    let (queue, mut first, mut second, mut radio) = open_two(rt.alloc(), 2)?;
    assert_eq!(rt; (first.place(), second.place()), (0, 1));
    assert!(rt; push_both(&rt, rt.alloc(), &queue, &mut first, &mut second)?);
    let third = frame(rt.alloc(), 0, lab::PROBE_RESPONSE)?;
    let back = queue.push(&rt, &mut first, third).err();
    let back = back.ok_or("the queue took a third frame")?;
    assert!(rt; is_frame(rt.alloc(), &back, GIVEN_BACK)?);
    assert!(rt; pop_first(&rt, &queue, &mut radio)?);
    assert!(rt; queue.push(&rt, &mut first, back).is_ok());
    let left = end_two(&rt, rt.alloc(), queue, first, second, radio)?;
    assert!(rt; are_frames(rt.alloc(), left.items.as_slice(), &TAKEN)?);
    Ok(())
}

/// The frames that a queue hands out: one before it is closed with the passes of two networks, and then those that are
/// left.
fn handed_out<R: Wait>(
    rt: &R,
    alloc: Global,
    queue: AirQueue,
    first: NetPass,
    second: NetPass,
    radio: RadioPass,
) -> Result<Vec<AirItem>, NoMemory>
    requires first { (first.name ≡ queue.name) × (first.place ≡ 0) }
    requires second { (second.name ≡ queue.name) × (second.place ≡ 1) }
    requires radio { (radio.name ≡ queue.name) × (radio.networks ≡ 2) × (radio.taken_in ≡ finite.empty) }
{
    let mut pass = radio.into_pop_pass();
    let mut items = Vec::new(alloc);
    if let Some(item) = queue.pop_item(rt, &mut pass) {
        items.push(item)?;
    }
    let mut nets = Vec::with_capacity(alloc, 2)?;
    nets.push_reserved(first);
    nets.push_reserved(second);
    let mut closed = queue.close(pass, nets);
    for _ in 0..TURNS {
        let Some(item) = closed.pop(rt) else {
            break;
        };
        items.push(item)?;
    }
    Ok(items)
}

/// Frames of two networks are queued at once, and each is handed out once and in its order.
#[test]
fn frames_of_two_networks_are_handed_out(rt: HostRuntime) -> Result<(), Fail> {
    let alloc = rt.alloc();
    let (queue, mut first, mut second, radio) = open_two(alloc, 3)?;
    assert!(rt; push_both(&rt, alloc, &queue, &mut first, &mut second)?);
    let third = frame(alloc, 0, lab::PROBE_RESPONSE)?;
    assert!(rt; queue.push(&rt, &mut first, third).is_ok());
    let items = handed_out(&rt, alloc, queue, first, second, radio)?;
    assert!(rt; are_frames(alloc, items.as_slice(), &TAKEN)?);
    Ok(())
}

#[test]
fn an_empty_queue_gives_nothing(rt: HostRuntime) -> Result<(), Fail> {
    let (queue, _nets, mut radio) = AirQueue::open(rt.alloc(), 1, MAX_NETWORKS)?;
    radio.reserve(1)?;
    assert!(rt; !queue.pop(&rt, &mut radio));
    assert!(rt; radio.left().is_empty());
    Ok(())
}

/// Pushes a frame of one octet, the network's place, by its pass. If the frame comes back, it is missing in the end.
fn push_place<R: Wait>(
    rt: &R,
    alloc: Global,
    queue: &AirQueue,
    mut pass: NetPass,
) -> Result<NetPass, NoMemory>
    requires { pass.name ≡ queue.now.name }
    ensures { IfOk result (λ back. (back.name ≡ pass.name) × (back.place ≡ pass.place)) }
{
    let place = pass.place();
    let frame = item(alloc, place, u8::try_from(place).unwrap_or(u8::MAX))?;
    let _ = queue.push(rt, &mut pass, frame);
    Ok(pass)
}

/// Does so by the pass of each network.
fn push_each<R: Wait>(
    rt: &R,
    alloc: Global,
    queue: &AirQueue,
    nets: Vec<NetPass>,
) -> Result<Vec<NetPass>, NoMemory>
    requires { AllThere queue.now.name MAX_NETWORKS nets.items }
    ensures { IfOk result (λ back. AllThere queue.now.name MAX_NETWORKS back.items) }
{
    let mut back = Vec::new(alloc);
    for pass in nets {
        back.push(push_place(rt, alloc, queue, pass)?)?;
    }
    Ok(back)
}

#[test]
fn most_networks_push(rt: HostRuntime) -> Result<(), Fail> {
    let (queue, nets, radio) = AirQueue::open(rt.alloc(), 4096, MAX_NETWORKS)?;
    let nets = push_each(&rt, rt.alloc(), &queue, nets)?;
    let left = queue.take_in(&rt, radio, nets).map_err(|_fault| NoMemory)?;
    let items = left.items.as_slice();
    assert_eq!(rt; items.len(), MAX_NETWORKS);
    for (item, octet) in items.iter().zip(0..MAX_NETWORKS as u8) {
        assert_eq!(rt; item.place, usize::from(octet));
        assert_eq!(rt; item.octets.as_slice(), [octet].as_slice());
    }
    Ok(())
}

/// Pushes a frame, and tries again while it comes back. Whether the queue took it in time.
fn push_in_time<R: Wait>(rt: &R, queue: &AirQueue, pass: &mut NetPass, item: AirItem) -> bool
    requires queue { pass.old.name ≡ queue.now.name }
    requires place { item.place ≡ pass.old.place }
    ensures { (pass.new.name ≡ pass.old.name) × (pass.new.place ≡ pass.old.place) }
{
    let mut item = item;
    for _ in 0..TURNS {
        match queue.push(rt, pass, item) {
            Ok(()) => return true,
            Err(back) => item = back,
        }
        thread::yield_now();
    }
    false
}

/// Pushes frames of the octets 0, 1, .. and answers how many the queue took in time.
fn push_all<R: Wait>(rt: &R, alloc: Global, queue: &AirQueue, mut pass: NetPass) -> (NetPass, u8)
    requires { pass.name ≡ queue.now.name }
    ensures { (result.0.name ≡ pass.name) × (result.0.place ≡ pass.place) }
{
    for octet in 0..FRAMES {
        let Ok(next) = item(alloc, pass.place(), octet) else {
            return (pass, octet);
        };
        if !push_in_time(rt, queue, &mut pass, next) {
            return (pass, octet);
        }
    }
    (pass, FRAMES)
}

/// Pops while there is room, and tries again while the queue is empty.
fn pop_all<R: Wait>(rt: &R, queue: &AirQueue, mut radio: RadioPass) -> RadioPass
    requires { radio.name ≡ queue.now.name }
    ensures { (result.name ≡ radio.name) × (result.networks ≡ radio.networks) × (result.taken_in ≡ radio.taken_in) }
{
    for _ in 0..TURNS {
        if radio.spare() == 0 {
            break;
        }
        if !queue.pop(rt, &mut radio) {
            thread::yield_now();
        }
    }
    radio
}

/// Two threads push while this one pops.
fn push_and_pop<R: Threads + Wait + Sync>(
    rt: &R,
    alloc: Global,
    queue: &AirQueue,
    first: NetPass,
    second: NetPass,
    radio: RadioPass,
) -> ((NetPass, u8), ((NetPass, u8), RadioPass))
    requires first { (first.name ≡ queue.now.name) × (first.place ≡ 0) }
    requires second { (second.name ≡ queue.now.name) × (second.place ≡ 1) }
    requires radio { (radio.name ≡ queue.now.name) × (radio.networks ≡ 2) × (radio.taken_in ≡ finite.empty) }
    ensures first { (result.0.0.name ≡ queue.now.name) × (result.0.0.place ≡ 0) }
    ensures second { (result.1.0.0.name ≡ queue.now.name) × (result.1.0.0.place ≡ 1) }
    ensures radio { (result.1.1.name ≡ queue.now.name) × (result.1.1.networks ≡ 2)
        × (result.1.1.taken_in ≡ finite.empty) }
{
    thread::join(
        rt,
        move ||
            requires { (first.name ≡ queue.now.name) × (first.place ≡ 0) }
            ensures { (result.0.name ≡ queue.entry.now.name) × (result.0.place ≡ 0) }
        { push_all(rt, alloc, queue, first) },
        move ||
            requires second { (second.name ≡ queue.now.name) × (second.place ≡ 1) }
            requires radio { (radio.name ≡ queue.now.name) × (radio.networks ≡ 2) × (radio.taken_in ≡ finite.empty) }
            ensures second { (result.0.0.name ≡ queue.entry.now.name) × (result.0.0.place ≡ 1) }
            ensures radio { (result.1.name ≡ queue.entry.now.name) × (result.1.networks ≡ 2)
                × (result.1.taken_in ≡ finite.empty) }
        { push_beside(rt, alloc, queue, second, radio) },
    )
}

/// One thread pushes while this one pops.
fn push_beside<R: Threads + Wait + Sync>(
    rt: &R,
    alloc: Global,
    queue: &AirQueue,
    second: NetPass,
    radio: RadioPass,
) -> ((NetPass, u8), RadioPass)
    requires second { (second.name ≡ queue.now.name) × (second.place ≡ 1) }
    requires radio { (radio.name ≡ queue.now.name) × (radio.networks ≡ 2) × (radio.taken_in ≡ finite.empty) }
    ensures second { (result.0.0.name ≡ queue.now.name) × (result.0.0.place ≡ 1) }
    ensures radio { (result.1.name ≡ queue.now.name) × (result.1.networks ≡ 2) × (result.1.taken_in ≡ finite.empty) }
{
    thread::join(
        rt,
        move ||
            requires { (second.name ≡ queue.now.name) × (second.place ≡ 1) }
            ensures { (result.0.name ≡ queue.entry.now.name) × (result.0.place ≡ 1) }
        { push_all(rt, alloc, queue, second) },
        move ||
            requires { (radio.name ≡ queue.now.name) × (radio.networks ≡ 2) × (radio.taken_in ≡ finite.empty) }
            ensures { (result.name ≡ queue.entry.now.name) × (result.networks ≡ 2) × (result.taken_in ≡ finite.empty) }
        { pop_all(rt, queue, radio) },
    )
}

/// What two threads pushed through a queue of four, and how many frames each pushed.
fn pushed_by_two<R: Threads + Wait + Sync>(
    rt: &R,
    alloc: Global,
) -> Result<(Left, u8, u8), NoMemory> {
    let (queue, first, second, mut radio) = open_two(alloc, 4)?;
    radio.reserve(2 * usize::from(FRAMES))?;
    let ((first, of_first), ((second, of_second), radio)) = push_and_pop(
        rt, alloc, &queue, first, second, radio,
    );
    let left = end_two(rt, alloc, queue, first, second, radio)?;
    Ok((left, of_first, of_second))
}

#[test]
fn two_pushers(rt: HostRuntime) -> Result<(), Fail> {
    let (left, of_first, of_second) = pushed_by_two(&rt, rt.alloc())?;
    assert_eq!(rt; (of_first, of_second), (FRAMES, FRAMES));
    let items = left.items.as_slice();
    assert_eq!(rt; items.len(), 2 * usize::from(FRAMES));
    for place in 0..2 {
        let mut next: u8 = 0;
        for item in items.iter().filter(|item| item.place == place) {
            assert_eq!(rt; item.octets.as_slice(), [next].as_slice());
            next = next.wrapping_add(1);
        }
        assert_eq!(rt; next, FRAMES);
    }
    Ok(())
}
