//! What a receiver's queue promises, over any list of calls.

ghost use Rattle.downlink.specs.Laws.{IsConserved, IsNotMadeUp, GoesAtMostTwice, IsInOrder, WaitsInOrder, GoesByPolls};
ghost use Rattle.downlink.specs.Laws.{AnswersOneAtATime, IsBounded};

/// Nothing vanishes: of any tickets, what was held and what came is what is held now and what left for good, each as
/// often.
pub fn nothing_vanishes()
    ensures { IsConserved }
{}

/// First sendings are in the order in which their frames came.
pub fn in_order()
    ensures { IsInOrder }
{}

/// Frames wait in the order in which they came, also those that go back or are dropped, but for the one that waits to
/// go once more.
pub fn waits_in_order()
    ensures { WaitsInOrder }
{}

/// Nothing is made up: a ticket goes for the first time at most as often as it came.
pub fn nothing_made_up()
    ensures { IsNotMadeUp }
{}

/// Nothing is doubled: a ticket goes once more only after it was told that nobody acknowledged it, and at most once for
/// each first time.
pub fn at_most_twice()
    ensures { GoesAtMostTwice }
{}

/// From when a station says that it dozes until it wakes or joins, no more units go to it for the first time than it
/// polls.
pub fn by_polls()
    ensures { GoesByPolls }
{}

/// An AP ignores the polls of a station until the answer to an earlier one has succeeded or is presumed failed (IEEE
/// Std 802.11-2016, 11.2.3.6). So at most one unit that answers a poll waits, waits to go once more, is out, or
/// may still come.
pub fn one_answer_at_a_time()
    ensures { AnswersOneAtATime }
{}

/// No more frames wait for a receiver than may, but for the one that waits to go once more.
pub fn bounded()
    ensures { IsBounded }
{}
