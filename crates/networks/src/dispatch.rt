//! Each line to the networks that hear it.

ghost use Rattle.std.specs.Prelude.{◌≡◌, ◌<◌, ◌≤◌, ℕ, List, [], Bool, true, false, OnOk, OnErr, length, map};
ghost use Rattle.std.specs.Prelude.{slice_index_or};
ghost use Rattle.std.specs.List.{AllByRecursion};
ghost use Rattle.events.specs.LentEvents.{event_of, line_of};
ghost use Rattle.events.specs.Lines.{event_for, event_of_line};
ghost use Rattle.events.specs.declared.event.Event.{Event};
ghost use Rattle.events.specs.declared.line.Line.{Line};
ghost use Rattle.network.specs.ReceivedEvents.{event_received};
ghost use Rattle.events.specs.Audiences.{IsAudience, is_in};
ghost use Rattle.networks.specs.Takes.{Change, Takes, TakesIf, change, dispatch};

use association::ReceivedFrame;
use events::{Audience, LentEvent, LentLine};
use mac_frame::{MacAddr, NoMemory};
use network::{Network, ReceivedEvent, Spare};

/// What stands for a network, and has its address.
pub trait Addressed {
    // Its address.
    ghost bssid: { Self → List ℕ };

    /// The address of the network (IEEE Std 802.11-2016, 9.2.4.3.4).
    fn bssid(&self) -> MacAddr
        ensures { result ≡ bssid self.now };
}

impl Addressed for Network {
    ghost bssid = { λ n. n.setting.network.bssid };

    fn bssid(&self) -> MacAddr {
        self.setting().network.bssid
    }
}

/// What becomes of an event at a network that hears it, and of the frames that the network sends then: they are kept
/// with the network, or go into an output.
pub trait Deliver<N: Addressed, O> {
    // What holds of each network before a line.
    ghost may_take: { N → Type 0 };

    // What holds of the output before each event.
    ghost is_ready: { O → Type 0 };

    // Whether it may stop, so that no further network takes the line.
    ghost may_stop: { Bool };

    // What an event made of a network, and of the output.
    ghost delivers: { Self → Event → Change N → Change O → Type 0 };

    /// Has a network take an event, whose frames may be built in spare memory. Its address stays. `NoMemory` where
    /// memory ran out and it stops for that.
    fn deliver(
        &self,
        network: &mut N,
        event: &ReceivedEvent<'_>,
        spare: &mut Spare,
        out: &mut O,
    ) -> Result<(), NoMemory>
        requires may { may_take network.old }
        requires ready { is_ready out.old }
        ensures delivered { OnOk result
            (delivers self.now (event_received event.now) (change network.old network.new) (change out.old out.new)) }
        ensures ready { OnOk result (is_ready out.new) }
        ensures address { N.bssid network.new ≡ N.bssid network.old }
        ensures stops { OnErr result (may_stop ≡ true) };
}

/// Has each network that hears a line take it, in order of place, of networks with these addresses, and leaves the
/// others alone, of which the address is read at most. What of the line is the same for each of them is read once. After
/// `NoMemory` those behind the one at which it stopped took nothing.
pub(crate) fn take_line<N: Addressed, O, D: Deliver<N, O>>(
    how: &D,
    bssids: &[MacAddr],
    networks: &mut [N],
    line: LentLine<'_>,
    spare: &mut Spare,
    out: &mut O,
) -> Result<(), NoMemory>
    requires addresses { bssids.now ≡ map N.bssid networks.old }
    requires may { AllByRecursion D.may_take networks.old }
    requires ready { D.is_ready out.old }
    ensures taken { OnOk result (Takes (dispatch N.bssid (D.delivers how.now) (line_of line.entry) 0)
        networks.old networks.new (change out.old out.new)) }
    ensures addresses { map N.bssid networks.new ≡ map N.bssid networks.old }
    ensures stops { OnErr result (D.may_stop ≡ true) }
{
    let audience = Audience::of(line);
    let lent = line.event();
    let event = read_for(&audience, lent);
    let (first, end) = places(&audience, bssids);
    for place in first..end {
        take_at(
            how,
            &audience,
            place,
            bssids[place],
            &mut networks[place],
            &event,
            spare,
            out,
        )?;
    }
    Ok(())
}

/// Two places between which all networks of an audience stand, of networks with these addresses: one before which none
/// stands, and one from which on none does. Those with an address are not looked for: that takes longer than to ask each
/// of few.
#[inline(always)]
fn places(audience: &Audience, bssids: &[MacAddr]) -> (usize, usize)
    ensures order { result.0 ≤ result.1 }
    ensures few { result.1 ≤ length bssids.now }
    ensures before { (place : ℕ) → place < result.0
        → is_in audience.now place (slice_index_or bssids.now place []) ≡ false }
    ensures after { (place : ℕ) → result.1 ≤ place → place < length bssids.now
        → is_in audience.now place (slice_index_or bssids.now place []) ≡ false }
{
    match audience {
        Audience::Nobody => (0, 0),
        Audience::All | Audience::Addressed(_) => (0, bssids.len()),
        Audience::At(named) => {
            let first = (*named).min(bssids.len());
            (first, named.saturating_add(1).min(bssids.len()))
        }
    }
}

/// An event for the networks that hear it: what is the same for each is read once, where more than one may hear it.
#[inline(always)]
fn read_for<'a>(audience: &Audience, event: LentEvent<'a>) -> ReceivedEvent<'a>
    ensures { event_received result ≡ event_of event.entry }
{
    match (audience, event) {
        (Audience::Addressed(_), LentEvent::Air(octets)) => {
            ReceivedEvent::Air(ReceivedFrame::for_one(octets))
        }
        (_, event) => ReceivedEvent::for_all(event),
    }
}

/// Has the network at a place take the event of a line, if it is of the line's audience.
#[inline(always)]
fn take_at<N: Addressed, O, D: Deliver<N, O>>(
    how: &D,
    audience: &Audience,
    place: usize,
    bssid: MacAddr,
    network: &mut N,
    event: &ReceivedEvent<'_>,
    spare: &mut Spare,
    out: &mut O,
) -> Result<(), NoMemory>
    requires may { D.may_take network.old }
    requires ready { D.is_ready out.old }
    ensures taken { OnOk result ((said : Line) → IsAudience audience.now said
        → event_received event.now ≡ event_of_line said
        → TakesIf (D.delivers how.now) (event_for place bssid said)
        (change network.old network.new) (change out.old out.new)) }
    ensures ready { OnOk result (D.is_ready out.new) }
    ensures address { N.bssid network.new ≡ N.bssid network.old }
    ensures stops { OnErr result (D.may_stop ≡ true) }
{
    if !audience.has(place, bssid) {
        return Ok(());
    }
    how.deliver(network, event, spare, out)
}
