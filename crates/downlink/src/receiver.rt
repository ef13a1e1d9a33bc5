//! The queue of one receiver of a network: a station, or the groups.

ghost use Rattle.std.specs.Prelude.{◌≡◌, map, IfOk, OnOk, OnErr};
ghost use Rattle.downlink.specs.Receiver.{new_queue, takes_way, way_of, first_by, unsent_fate, ignores_polls};
ghost use Rattle.downlink.specs.Receiver.{again_without, waiting_without};
ghost use Rattle.downlink.specs.Receiver.{may_go, may_go_again, leaving_fate, in_mode, sent_another_way};
ghost use Rattle.downlink.specs.Calls.{Comes, Turn, Told, Returns, GivesUp, Joins, Leaves, Dozes, Settles, Wakes};
ghost use Rattle.downlink.specs.Calls.{Polls, step, answer, call_of};

use crate::answer::{Answer, Fate};
use crate::frame::{Frame, Sent, Way};
use crate::station_change::StationChange;
use crate::station_mode::StationMode;
use crate::waiting::{any_answers_poll, any_unit, place_of, place_of_ticket};
use std::alloc::{AllocError, Global};
use std::marker::Model;

/// What waits for one receiver, and what went to it. Contracts see it as the record `Queue`. A call answers what became
/// of a frame by it, and of no other one. A caller gives each frame a ticket of its own, until it has left for good.
/// Who dozes and what a poll brings is of IEEE Std 802.11-2016, 11.2.3; turns, times and bounds are *profile*.
///
/// A caller bounds how many frames are out: it asks for no turn while as many are.
#[derive(Debug, Drop)]
pub struct ReceiverQueue {
    most: usize,
    mode: StationMode,
    right: Option<u64>,
    waiting: Vec<Frame>,
    again: Option<Frame>,
    out: Vec<Sent>,
    last: Option<u64>,
}

impl Model for ReceiverQueue {
    ghost use Rattle.std.specs.Prelude.{◌+◌, ◌≤◌, length};
    ghost use Rattle.std.specs.Option.{option_to_list};
    ghost use Rattle.std.specs.Vec.{vec_capacity};
    ghost use Rattle.downlink.specs.Receiver.{Queue};

    ghost Value = { Queue };

    ghost view = { λ q. record {
      most = q.most;
      mode = q.mode;
      right = q.right;
      waiting = q.waiting.items;
      again = q.again;
      out = q.out.items;
      last = q.last;
    } };

    // `out` has room for all that waits, so that a turn takes no memory.
    ghost invariant = { λ q. length q.waiting.items + length (option_to_list q.again) + length q.out.items
        ≤ vec_capacity q.out };
}

impl ReceiverQueue {
    /// A receiver for which at most so many frames wait. Nothing waits, and no station is associated.
    pub fn new(alloc: Global, most: usize) -> ReceiverQueue
        ensures { result ≡ new_queue most }
    {
        ReceiverQueue {
            most,
            mode: StationMode::Absent,
            right: None,
            waiting: Vec::new(alloc),
            again: None,
            out: Vec::new(alloc),
            last: None,
        }
    }

    /// Whether a frame may go when its turn comes.
    pub fn may_go(&self) -> bool
        ensures { result ≡ may_go self.now }
    {
        self.next_by(true).is_some()
    }

    /// A frame comes, and waits behind the others. It `is_unit` if it is an MSDU. The last time at which it may go is
    /// `until`, and the time is `now`, both by one clock of the caller. If too many wait by it, the oldest is dropped
    /// and answered. It refuses only if memory ran out, also for the frame's turn, and then all is as it was
    /// (*profile*).
    pub fn comes(
        &mut self,
        ticket: u64,
        is_unit: bool,
        until: u64,
        now: u64,
    ) -> Result<Option<Answer>, AllocError>
        ensures after { OnOk result (self.new ≡ step self.old (Comes ticket is_unit until now)) }
        ensures answer { IfOk result (λ dropped. dropped ≡ answer self.old (Comes ticket is_unit until now)) }
        ensures err { OnErr result (self.new ≡ self.old) }
    {
        let way = self.way_of(is_unit, now);
        let frame = Frame {
            ticket,
            is_unit,
            until,
            way,
        };
        let held = self.waiting.len() + usize::from(self.again.is_some());
        self.out.reserve(held + 1)?;
        self.waiting.push(frame)?;
        if let Way::AnswersPoll = way {
            self.right = None;
        }
        if self.waiting.len() <= self.most {
            return Ok(None);
        }
        let frame = self.waiting.remove(0);
        Ok(Some(Answer {
            frame,
            fate: Fate::Crowded,
        }))
    }

    /// It is the receiver's turn: the next frame goes, unless it is too late, and then it leaves. `None` where none
    /// may go, and then nothing changes. It takes no memory.
    pub fn turn(&mut self, now: u64) -> Option<Answer>
        ensures after { self.new ≡ step self.old (Turn now) }
        ensures answer { result ≡ answer self.old (Turn now) }
    {
        let sent = self.next_by(true)?;
        let frame = sent.frame;
        if frame.until < now {
            remove_by(&mut self.again, &mut self.waiting, true);
            let fate = self.unsent_fate(Fate::Late, frame);
            return Some(Answer { frame, fate });
        }
        self.out.push_reserved(sent);
        remove_by(&mut self.again, &mut self.waiting, true);
        self.last = Some(frame.ticket);
        let fate = if sent.is_again {
            Fate::GoesAgain
        } else {
            Fate::Goes
        };
        Some(Answer { frame, fate })
    }

    /// The first frame with this ticket that went was acknowledged, or nobody acknowledged it. `None` where none is
    /// out, and then nothing changes. A frame for the groups is told as acknowledged, since nobody acknowledges it:
    /// else a unit for them goes twice.
    pub fn told(&mut self, ticket: u64, is_acknowledged: bool) -> Option<Answer>
        ensures after { self.new ≡ step self.old (Told ticket is_acknowledged) }
        ensures answer { result ≡ answer self.old (Told ticket is_acknowledged) }
    {
        let place = place_of_ticket(self.out.as_slice(), ticket)?;
        let sent = self.out.remove(place);
        let frame = sent.frame;
        if is_acknowledged {
            return Some(Answer {
                frame,
                fate: Fate::Acknowledged,
            });
        }
        if self.may_go_again(sent) {
            self.again = Some(frame);
            self.last = None;
            return Some(Answer {
                frame,
                fate: Fate::WaitsAgain,
            });
        }
        let fate = self.unsent_fate(Fate::Lost, frame);
        Some(Answer { frame, fate })
    }

    /// The next frame leaves that won't go: it goes back to the program, since its station fell asleep, or is dropped,
    /// since its station left. `None` where there is none, and then nothing changes. A caller asks until there is none
    /// before it tells of more: else units go back behind some that came later.
    pub fn returns(&mut self) -> Option<Answer>
        ensures after { self.new ≡ step self.old Returns }
        ensures answer { result ≡ answer self.old Returns }
    {
        let frame = self.next_by(false)?.frame;
        remove_by(&mut self.again, &mut self.waiting, false);
        let fate = leaving_fate(frame.way);
        Some(Answer { frame, fate })
    }

    /// The next frame that would go leaves without going: its caller gives it up. A unit goes back to the program where
    /// its station dozes, and all else is dropped. `None` where none would go, and then nothing changes (*profile*).
    pub fn gives_up(&mut self) -> Option<Answer>
        ensures after { self.new ≡ step self.old GivesUp }
        ensures answer { result ≡ answer self.old GivesUp }
    {
        let frame = self.next_by(true)?.frame;
        remove_by(&mut self.again, &mut self.waiting, true);
        let fate = self.unsent_fate(Fate::GivenUp, frame);
        Some(Answer { frame, fate })
    }

    /// The station does this: the same as the call of that name.
    pub fn change(&mut self, change: StationChange)
        ensures { self.new ≡ step self.old (call_of change) }
    {
        match change {
            StationChange::Joins => self.joins(),
            StationChange::Leaves => self.leaves(),
            StationChange::Dozes => self.dozes(),
            StationChange::Settles => self.settles(),
            StationChange::Wakes => self.wakes(),
            StationChange::Polls { until } => self.polls(until),
        }
    }

    /// The station is associated, and awake.
    pub fn joins(&mut self)
        ensures { self.new ≡ step self.old Joins }
    {
        self.mode = StationMode::Awake;
        self.right = None;
    }

    /// The station isn't associated any more: none of its units goes from now on.
    pub fn leaves(&mut self)
        ensures { self.new ≡ step self.old Leaves }
    {
        self.set_mode(StationMode::Absent, Way::IsDropped);
    }

    /// The station says that it dozes: its units go back to the program, those too that come from now on. Nothing
    /// changes where it isn't associated. Where it dozes already its last poll isn't answered any more, so a caller
    /// calls this where a station changes its mode, and not for each frame that says so.
    pub fn dozes(&mut self)
        ensures { self.new ≡ step self.old Dozes }
    {
        match self.mode {
            StationMode::Absent => {}
            StationMode::Awake | StationMode::FallsAsleep | StationMode::Dozing => {
                self.set_mode(StationMode::FallsAsleep, Way::GoesBack);
            }
        }
    }

    /// All was answered that came before the station said that it dozes. Nothing changes where it hasn't said so.
    pub fn settles(&mut self)
        ensures { self.new ≡ step self.old Settles }
    {
        match self.mode {
            StationMode::FallsAsleep => self.mode = StationMode::Dozing,
            StationMode::Absent | StationMode::Awake | StationMode::Dozing => {}
        }
    }

    /// The station says that it is awake. Nothing changes where it didn't doze.
    pub fn wakes(&mut self)
        ensures { self.new ≡ step self.old Wakes }
    {
        match self.mode {
            StationMode::FallsAsleep | StationMode::Dozing => {
                self.mode = StationMode::Awake;
                self.right = None;
            }
            StationMode::Absent | StationMode::Awake => {}
        }
    }

    /// Whether polls are ignored now: an answer to a poll waits, or a unit waits to go once more or is out (11.2.3.6).
    pub fn ignores_polls(&self) -> bool
        ensures { result ≡ ignores_polls self.now }
    {
        any_answers_poll(self.waiting.as_slice())
            || self.again.is_some()
            || any_unit(self.out.as_slice())
    }

    /// The station polls: the next unit that comes by this time goes. An earlier poll is answered no more. Nothing
    /// changes where it doesn't doze, or where what came before it dozed may still be unanswered. Nor does it while
    /// polls are ignored ([`ignores_polls`](ReceiverQueue::ignores_polls)).
    pub fn polls(&mut self, until: u64)
        ensures { self.new ≡ step self.old (Polls until) }
    {
        match self.mode {
            StationMode::Dozing => {
                if !self.ignores_polls() {
                    self.right = Some(until);
                }
            }
            StationMode::Absent | StationMode::Awake | StationMode::FallsAsleep => {}
        }
    }

    /// What becomes of a frame that comes now.
    fn way_of(&self, is_unit: bool, now: u64) -> Way
        ensures { result ≡ way_of is_unit now self.now.mode self.now.right }
    {
        if !is_unit {
            return Way::InTurn;
        }
        match self.mode {
            StationMode::Absent => Way::IsDropped,
            StationMode::Awake => Way::InTurn,
            StationMode::FallsAsleep => Way::GoesBack,
            StationMode::Dozing => match self.right {
                Some(until) if now <= until => Way::AnswersPoll,
                _ => Way::GoesBack,
            },
        }
    }

    /// The next frame that goes, or the next one that leaves without going.
    fn next_by(&self, goes: bool) -> Option<Sent>
        ensures { result ≡ first_by (takes_way goes) self.now.again self.now.waiting }
    {
        match self.again {
            Some(frame) if frame.goes() == goes => Some(Sent {
                frame,
                is_again: true,
            }),
            _ => {
                let place = place_of(self.waiting.as_slice(), goes)?;
                Some(Sent {
                    frame: self.waiting[place],
                    is_again: false,
                })
            }
        }
    }

    /// Whether a frame that nobody acknowledged goes once more.
    fn may_go_again(&self, sent: Sent) -> bool
        ensures { result ≡ may_go_again self.now sent }
    {
        sent.frame.is_unit
            && !sent.is_again
            && self.again.is_none()
            && self.last == Some(sent.frame.ticket)
    }

    /// What becomes of a frame that didn't reach its receiver.
    fn unsent_fate(&self, fate: Fate, frame: Frame) -> Fate
        ensures { result ≡ unsent_fate fate self.now.mode frame }
    {
        if frame.is_unit && self.mode.is_asleep() {
            Fate::HandedBack
        } else {
            fate
        }
    }

    /// The station is so from now on, and its units take this way.
    fn set_mode(&mut self, mode: StationMode, way: Way)
        ensures { self.new ≡ in_mode mode way self.old }
    {
        self.mode = mode;
        self.right = None;
        send_another_way(self.waiting.as_mut_slice(), way);
        self.again = match self.again {
            Some(frame) => Some(sent_another_way(frame, way)),
            None => None,
        };
        self.last = None;
    }
}

/// The next frame that goes, or the next one that leaves without going, waits no more.
fn remove_by(again: &mut Option<Frame>, waiting: &mut Vec<Frame>, goes: bool)
    ensures again { again.new ≡ again_without (takes_way goes) again.old }
    ensures waiting { waiting.new.items ≡ waiting_without (takes_way goes) again.old waiting.old.items }
{
    if let Some(frame) = *again {
        if frame.goes() == goes {
            *again = None;
            return;
        }
    }
    if let Some(place) = place_of(waiting.as_slice(), goes) {
        waiting.remove(place);
    }
}

/// The units among these frames take this way.
fn send_another_way(frames: &mut [Frame], way: Way)
    ensures { frames.new ≡ map (sent_another_way way) frames.old }
{
    for frame in frames.iter_mut() {
        *frame = sent_another_way(*frame, way);
    }
}

/// A frame, which takes this way if it is a unit.
fn sent_another_way(frame: Frame, way: Way) -> Frame
    ensures { result ≡ sent_another_way way frame }
{
    if frame.is_unit {
        Frame { way, ..frame }
    } else {
        frame
    }
}

/// What becomes of a frame that leaves by this way without going.
fn leaving_fate(way: Way) -> Fate
    ensures { result ≡ leaving_fate way }
{
    match way {
        Way::GoesBack => Fate::HandedBack,
        Way::InTurn | Way::AnswersPoll | Way::IsDropped => Fate::Left,
    }
}
