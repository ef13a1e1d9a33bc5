//! What the queues of a radio's networks promise, over any list of calls.

ghost use Rattle.std.specs.Prelude.{[]};
ghost use Rattle.downlink.specs.Radios.{new_radio};
ghost use Rattle.downlink.specs.RadioLaws.{IsAlone, IsUnmoved, IsTold, StaysTold, IsToldWithMore, IsMadeOneByOne};
ghost use Rattle.downlink.specs.RadioLaws.{IsByTheRule, IsFair, IsPrompt};
ghost use Rattle.downlink.specs.RadioReceivers.{IsReceiverAloneInRadio, LosesNothing, MakesNothingUp, DoublesNothing};
ghost use Rattle.downlink.specs.RadioReceivers.{KeepsOrder, LetsSleep, AnswersPollsInTurn, HoldsFew};

use air_share::{bounded, soon};

/// Isolation: what waits of a network, and what is answered of it, is as if it were alone with its own calls. These are
/// those that name a receiver of it, or pause it or end that, and a turn for each time that the rule of shares chose
/// it. A call that names the receiver of a turn is its own only where the rule chose the network.
pub fn alone()
    ensures { IsAlone }
{}

/// Others reach a network by its own calls alone: with the same ones, at the same place, it is and is answered the
/// same, whatever other networks there are, and whatever they do.
pub fn unmoved_by_others()
    ensures { IsUnmoved }
{}

/// To the rule of shares a network waits exactly while a frame of it may go and it isn't paused.
pub fn waits_while_frames_may_go()
    ensures new { IsTold (new_radio []) }
    ensures more { IsToldWithMore }
    ensures calls { StaysTold }
{}

/// Networks that are added one by one, before anything happened, make a radio of these.
pub fn made_one_by_one()
    ensures { IsMadeOneByOne }
{}

/// What the networks owe is what the rule of shares makes of the calls, so that its laws hold of them.
pub fn shared_by_the_rule()
    ensures { IsByTheRule }
{}

/// From when no network owes anything: while frames of a network may go, another uses no more of the air that `used`
/// tells than its share beside it, a turn, and its share beside a turn of that network. No turn of either takes more
/// than a limit of its own, with all that is told of it before the next.
pub fn fair()
    ensures { IsFair }
{
    bounded();
}

/// Within the same limits: while a network waits for its turn, another uses no more of that air than a turn, and its
/// share beside a turn of that network.
pub fn prompt()
    ensures { IsPrompt }
{
    soon();
}

/// What waits for a receiver of a network, and what is answered of it, is as if it were alone with the calls that go to
/// it. Its tickets come from the calls that name it.
pub fn each_receiver_alone_in_radio()
    ensures { IsReceiverAloneInRadio }
{}

/// Nothing vanishes: of any tickets of a receiver, what was held and what came is what is held now and what left for
/// good, each as often.
pub fn radio_loses_nothing()
    ensures { LosesNothing }
{}

/// Nothing is made up: a ticket goes for the first time at most as often as it came for its receiver.
pub fn radio_makes_nothing_up()
    ensures { MakesNothingUp }
{}

/// Nothing is doubled: a ticket goes once more only after it was told that nobody acknowledged it, and at most once for
/// each first time.
pub fn radio_doubles_nothing()
    ensures { DoublesNothing }
{}

/// First sendings to a receiver are in the order in which its frames came.
pub fn radio_keeps_order()
    ensures { KeepsOrder }
{}

/// From when a station says that it dozes until it wakes or joins, no more units go to it for the first time than it
/// polls.
pub fn radio_lets_sleep()
    ensures { LetsSleep }
{}

/// An AP ignores the polls of a station until the answer to an earlier one has succeeded or is presumed failed (IEEE
/// Std 802.11-2016, 11.2.3.6). So at most one unit that answers a poll of it waits, waits to go once more, is out, or
/// may still come.
pub fn radio_answers_polls_in_turn()
    ensures { AnswersPollsInTurn }
{}

/// No more frames of a network wait than may wait for its receivers together, but for those that wait to go once more,
/// of which each receiver has one at most.
pub fn radio_holds_few()
    ensures { HoldsFew }
{}
