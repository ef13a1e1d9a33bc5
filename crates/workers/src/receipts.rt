//! The callers' entries against the networks' histories (*profile*).

ghost use Rattle.std.specs.Prelude.{ℕ, ◌≡◌, ◌↔◌, ◌==◌, ◌∷◌, ◌<◌, ◌≤◌, [], None, length, map, option_map};
ghost use Rattle.std.specs.Prelude.{All, IfOk, IsTrue, MatchOption, OnOk};
ghost use Rattle.play.specs.Givers.{AreGivers, dealt};
ghost use Rattle.workers.specs.Receipts.{AreFullLast, AreReceipts, AreThere, AreReceiptsOf, IsFullLast, MarksFull};
ghost use Rattle.workers.specs.Receipts.{histories, limits, numbered, receipt_for, receipts_of};

use crate::caller::{Caller, Entry};
use events::Event;
use mac_frame::{List, NoMemory};
use network::{Bss, Refusal};
use play::FinishFault;
use std::alloc::Global;

/// `BadReceipt` if a receipt's place, number or event is not there, if another receipt tells of the same event, or if a
/// caller's numbers don't rise. Else `Uncovered` if no receipt tells of an event. Else `FullEarly` if a network that a
/// caller was told is full is not, or if that caller has a later receipt for it.
pub(crate) fn givers_of(
    alloc: Global,
    networks: &[Bss],
    callers: &[Caller],
) -> Result<List<List<usize>>, FinishFault>
    ensures receipts { IfOk result (AreReceipts callers.now (histories networks.now)) }
    ensures givers { IfOk result (AreGivers (length callers.now) (histories networks.now)) }
    ensures full { OnOk result (AreFullLast (limits networks.now) (histories networks.now) callers.now) }
{
    let mut givers = Vec::with_capacity(alloc, networks.len())?;
    for (place, network) in networks.iter().enumerate() {
        givers.push(told_givers(alloc, place, network.history().len(), callers)?)?;
    }
    for (number, caller) in callers.iter().enumerate() {
        if !are_receipts(networks, givers.as_slice(), number, caller.entries()) {
            return Err(FinishFault::BadReceipt);
        }
    }
    if !are_known(callers.len(), givers.as_slice()) {
        return Err(FinishFault::Uncovered);
    }
    for caller in callers {
        check_full(alloc, networks, caller.entries())?;
    }
    Ok(List::from_vec(givers))
}

/// Who gave each event of the network at a place, as receipts tell, which may be wrong: the number after the last
/// caller's if none tells of it.
fn told_givers(
    alloc: Global,
    place: usize,
    events: usize,
    callers: &[Caller],
) -> Result<List<usize>, FinishFault>
    ensures { IfOk result (λ givers. length givers ≡ events) }
{
    let mut givers = vec![in alloc; callers.len(); events]?;
    for (number, caller) in callers.iter().enumerate() {
        for entry in caller.entries() {
            let Some((event, _)) = receipt_for(place, entry) else {
                continue;
            };
            if event as usize >= givers.len() {
                return Err(FinishFault::BadReceipt);
            }
            givers[event as usize] = number;
        }
    }
    Ok(List::from_vec(givers))
}

/// Whether a caller's receipts tell of the events that it gave, those of each network in order, and of no others.
fn are_receipts(networks: &[Bss], givers: &[List<usize>], caller: usize, entries: &[Entry]) -> bool
    requires { map length givers.now ≡ map length (histories networks.now) }
    ensures { IsTrue result → AreReceiptsOf caller (histories networks.now) givers.now entries.now }
{
    for (place, network) in networks.iter().enumerate() {
        let givers = givers[place].as_slice();
        if !are_dealt(place, network.history(), givers, caller, entries) {
            return false;
        }
    }
    are_there(networks.len(), entries)
}

/// Whether each receipt is of one of this number of networks.
fn are_there(networks: usize, entries: &[Entry]) -> bool
    ensures { IsTrue result → AreThere networks entries.now }
{
    for entry in entries {
        if !is_there(networks, entry) {
            return false;
        }
    }
    true
}

/// The same of one entry.
fn is_there(networks: usize, entry: &Entry) -> bool
    ensures { IsTrue result → (place : ℕ) → networks ≤ place → receipt_for place entry.now ≡ None }
{
    match entry {
        Entry::Receipt { place, .. } => *place < networks,
        Entry::Refused { .. } => true,
    }
}

/// Whether a caller's receipts for the network at a place tell, in order, of the events that it gave.
fn are_dealt(
    place: usize,
    history: &[Event],
    givers: &[usize],
    caller: usize,
    entries: &[Entry],
) -> bool
    requires { length givers.now ≡ length history.now }
    ensures { IsTrue result → receipts_of place entries.now ≡ dealt givers.now (numbered history.now) caller }
{
    let mut rest = entries;
    for (number, giver) in givers.iter().enumerate() {
        if *giver != caller {
            continue;
        }
        match next_receipt(place, rest) {
            Some((told, event, others))
                if told as usize == number && is_same(&history[number], event) => {
                rest = others;
            }
            _ => return false,
        }
    }
    next_receipt(place, rest).is_none()
}

/// The next receipt for the network at a place: the event's number, the event, and the entries after it.
fn next_receipt(place: usize, entries: &[Entry]) -> Option<(u32, &Event, &[Entry])>
    ensures { MatchOption result (receipts_of place entries.now ≡ [])
        (λ next. receipts_of place entries.now ≡ (next.0, next.1.now) ∷ receipts_of place next.2.now) }
{
    let mut rest = entries;
    while let [entry, others @ ..] = rest {
        if let Some((number, event)) = receipt_for(place, entry) {
            return Some((number, event, others));
        }
        rest = others;
    }
    None
}

/// The event's number and the event, if an entry is a receipt for the network at a place.
fn receipt_for(place: usize, entry: &Entry) -> Option<(u32, &Event)>
    ensures { option_map (λ r. (r.0, r.1.now)) result ≡ receipt_for place entry.now }
{
    match entry {
        Entry::Receipt {
            place: named,
            number,
            event,
        } if *named == place => Some((*number, event)),
        _ => None,
    }
}

/// Whether an event is another.
fn is_same(event: &Event, other: &Event) -> bool
    ensures { IsTrue result ↔ (event.now ≡ other.now) }
{
    match (event, other) {
        (Event::Air(took), Event::Air(told)) => took.as_slice() == told.as_slice(),
        (Event::Wire(took), Event::Wire(told)) => took.as_slice() == told.as_slice(),
        (Event::Tick, Event::Tick) => true,
        _ => false,
    }
}

/// Whether all who gave events are among this number of callers.
fn are_known(callers: usize, givers: &[List<usize>]) -> bool
    ensures { IsTrue result → All (All (λ giver. giver < callers)) givers.now }
{
    givers.iter().all(|each| each.as_slice().iter().all(|giver| *giver < callers))
}

/// Whether each network is full that a caller was told is full, and that caller has no later receipt for it.
fn check_full(alloc: Global, networks: &[Bss], entries: &[Entry]) -> Result<(), FinishFault>
    ensures { OnOk result (IsFullLast (limits networks.now) (histories networks.now) entries.now) }
{
    let mut full = vec![in alloc; false; networks.len()]?;
    for entry in entries {
        check_entry(networks, entry, full.as_mut_slice())?;
    }
    Ok(())
}

/// The same of one entry, after those by which networks were marked as full.
fn check_entry(networks: &[Bss], entry: &Entry, full: &mut [bool]) -> Result<(), FinishFault>
    requires { length full.old ≡ length networks.now }
    ensures { OnOk result (MarksFull networks.now entry.now full.old full.new) }
{
    match entry {
        Entry::Receipt { place, .. } => {
            let place = *place;
            if place < full.len() && full[place] {
                return Err(FinishFault::FullEarly);
            }
        }
        Entry::Refused {
            place,
            refusal: Refusal::HistoryFull,
        } => {
            let place = *place;
            if place >= full.len() || !is_full(&networks[place]) {
                return Err(FinishFault::FullEarly);
            }
            full[place] = true;
        }
        Entry::Refused {
            place: _,
            refusal: Refusal::NoMemory,
        } => {}
    }
    Ok(())
}

/// Whether a network has taken as many events as it may.
fn is_full(network: &Bss) -> bool
    ensures { result ≡ (length network.now.history == network.now.setting.network.max_events) }
{
    network.history().len() == network.config().max_events as usize
}
