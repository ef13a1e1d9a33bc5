//! The queue of one station.

use downlink::{Fate, ReceiverQueue, StationChange};
use std::alloc::AllocError;
use std::process::Abort;
use std::test::Fail;

/// A call of the queue.
#[derive(Clone, Copy)]
enum Call {
    /// The call of the name of a change.
    Station(StationChange),
    Comes {
        ticket: u64,
        is_unit: bool,
        until: u64,
        now: u64,
    },
    Turn {
        now: u64,
    },
    /// The frame with a ticket is told of as acknowledged.
    Acknowledged(u64),
    /// The frame with a ticket is told of as not acknowledged.
    Unacknowledged(u64),
    Returns,
    GivesUp,
    IgnoresPolls,
}

/// What a call answers.
#[derive(Clone, Copy, PartialEq)]
enum Answer {
    /// The call gives nothing.
    Done,
    Is(bool),
    NoFrame,
    /// The ticket of a frame, and what became of it.
    Frame(u64, Fate),
}

/// The call by which a unit comes that may go until 50.
fn unit_comes(ticket: u64, now: u64) -> Call {
    Call::Comes {
        ticket,
        is_unit: true,
        until: 50,
        now,
    }
}

/// The call by which a frame comes that is no unit, and may go until 50.
fn frame_comes(ticket: u64, now: u64) -> Call {
    Call::Comes {
        ticket,
        is_unit: false,
        until: 50,
        now,
    }
}

/// The answer of a call that may tell of a frame.
fn told(answer: Option<downlink::Answer>) -> Answer {
    match answer {
        Some(told) => Answer::Frame(told.frame.ticket, told.fate),
        None => Answer::NoFrame,
    }
}

/// Makes the call of the name of a change.
fn change(queue: &mut ReceiverQueue, change: StationChange) {
    match change {
        StationChange::Joins => queue.joins(),
        StationChange::Leaves => queue.leaves(),
        StationChange::Dozes => queue.dozes(),
        StationChange::Settles => queue.settles(),
        StationChange::Wakes => queue.wakes(),
        StationChange::Polls { until } => queue.polls(until),
    }
}

/// Makes a call, and gives its answer.
fn answer_of(queue: &mut ReceiverQueue, call: Call) -> Result<Answer, AllocError> {
    let answer = match call {
        Call::Station(of_station) => {
            change(queue, of_station);
            Answer::Done
        }
        Call::Comes {
            ticket,
            is_unit,
            until,
            now,
        } => told(queue.comes(ticket, is_unit, until, now)?),
        Call::Turn { now } => told(queue.turn(now)),
        Call::Acknowledged(ticket) => told(queue.told(ticket, true)),
        Call::Unacknowledged(ticket) => told(queue.told(ticket, false)),
        Call::Returns => told(queue.returns()),
        Call::GivesUp => told(queue.gives_up()),
        Call::IgnoresPolls => Answer::Is(queue.ignores_polls()),
    };
    Ok(answer)
}

/// Makes the calls of rows in their order. Gives the number, from 0, of the first row that was answered otherwise.
fn first_wrong(
    queue: &mut ReceiverQueue,
    rows: &[(Call, Answer)],
) -> Result<Option<usize>, AllocError> {
    for (number, (call, expected)) in rows.iter().enumerate() {
        if answer_of(queue, *call)? != *expected {
            return Ok(Some(number));
        }
    }
    Ok(None)
}

/// Makes the calls of rows in their order, and asserts that each is answered so.
fn assert_answers(
    rt: &impl Abort,
    mut queue: ReceiverQueue,
    rows: &[(Call, Answer)],
) -> Result<(), Fail> {
    assert_eq!(rt; first_wrong(&mut queue, rows)?, None);
    Ok(())
}

#[test]
fn frames_go_in_their_order_and_a_lost_one_once_more(rt: HostRuntime) -> Result<(), Fail> {
    let queue = ReceiverQueue::new(rt.alloc(), 2);
    let rows = [
        (Call::Station(StationChange::Joins), Answer::Done),
        (unit_comes(1, 0), Answer::NoFrame),
        (unit_comes(2, 0), Answer::NoFrame),
        (unit_comes(3, 0), Answer::Frame(1, Fate::Crowded)),
        (Call::Turn { now: 1 }, Answer::Frame(2, Fate::Goes)),
        (Call::Unacknowledged(2), Answer::Frame(2, Fate::WaitsAgain)),
        (Call::Turn { now: 2 }, Answer::Frame(2, Fate::GoesAgain)),
        (Call::Acknowledged(2), Answer::Frame(2, Fate::Acknowledged)),
        (Call::Acknowledged(2), Answer::NoFrame),
        (Call::Turn { now: 51 }, Answer::Frame(3, Fate::Late)),
        (Call::Turn { now: 52 }, Answer::NoFrame),
    ];
    assert_answers(&rt, queue, &rows)
}

#[test]
fn units_of_a_station_that_dozes_go_back_or_answer_its_polls(rt: HostRuntime) -> Result<(), Fail> {
    let queue = ReceiverQueue::new(rt.alloc(), 64);
    let rows = [
        (Call::Station(StationChange::Joins), Answer::Done),
        (unit_comes(1, 0), Answer::NoFrame),
        (Call::Station(StationChange::Dozes), Answer::Done),
        (frame_comes(2, 0), Answer::NoFrame),
        (Call::Turn { now: 1 }, Answer::Frame(2, Fate::Goes)),
        (Call::Station(StationChange::Settles), Answer::Done),
        (Call::Returns, Answer::Frame(1, Fate::HandedBack)),
        (Call::Returns, Answer::NoFrame),
        (
            Call::Station(StationChange::Polls { until: 9 }),
            Answer::Done,
        ),
        (unit_comes(3, 2), Answer::NoFrame),
        (unit_comes(4, 2), Answer::NoFrame),
        (Call::Turn { now: 3 }, Answer::Frame(3, Fate::Goes)),
        (Call::Turn { now: 3 }, Answer::NoFrame),
        (Call::Station(StationChange::Wakes), Answer::Done),
        (Call::Returns, Answer::Frame(4, Fate::HandedBack)),
        (unit_comes(5, 4), Answer::NoFrame),
        (Call::Turn { now: 5 }, Answer::Frame(5, Fate::Goes)),
    ];
    assert_answers(&rt, queue, &rows)
}

#[test]
fn units_of_a_station_that_left_are_dropped(rt: HostRuntime) -> Result<(), Fail> {
    let queue = ReceiverQueue::new(rt.alloc(), 64);
    let rows = [
        (Call::Station(StationChange::Joins), Answer::Done),
        (unit_comes(1, 0), Answer::NoFrame),
        (Call::Station(StationChange::Leaves), Answer::Done),
        (Call::Turn { now: 1 }, Answer::NoFrame),
        (Call::Returns, Answer::Frame(1, Fate::Left)),
        (Call::Returns, Answer::NoFrame),
    ];
    assert_answers(&rt, queue, &rows)
}

#[test]
fn the_frame_that_would_go_next_is_given_up(rt: HostRuntime) -> Result<(), Fail> {
    let queue = ReceiverQueue::new(rt.alloc(), 64);
    let rows = [
        (Call::Station(StationChange::Joins), Answer::Done),
        (Call::GivesUp, Answer::NoFrame),
        (unit_comes(1, 0), Answer::NoFrame),
        (unit_comes(2, 0), Answer::NoFrame),
        (frame_comes(3, 0), Answer::NoFrame),
        (Call::Turn { now: 1 }, Answer::Frame(1, Fate::Goes)),
        (Call::Unacknowledged(1), Answer::Frame(1, Fate::WaitsAgain)),
        (Call::GivesUp, Answer::Frame(1, Fate::GivenUp)),
        (Call::GivesUp, Answer::Frame(2, Fate::GivenUp)),
        (Call::Turn { now: 1 }, Answer::Frame(3, Fate::Goes)),
        (Call::GivesUp, Answer::NoFrame),
    ];
    assert_answers(&rt, queue, &rows)
}

#[test]
fn a_unit_that_is_given_up_goes_back_where_its_station_dozes(rt: HostRuntime) -> Result<(), Fail> {
    let queue = ReceiverQueue::new(rt.alloc(), 64);
    let rows = [
        (Call::Station(StationChange::Joins), Answer::Done),
        (Call::Station(StationChange::Dozes), Answer::Done),
        (Call::Station(StationChange::Settles), Answer::Done),
        (
            Call::Station(StationChange::Polls { until: 9 }),
            Answer::Done,
        ),
        (unit_comes(1, 2), Answer::NoFrame),
        (unit_comes(2, 2), Answer::NoFrame),
        (frame_comes(3, 2), Answer::NoFrame),
        (Call::GivesUp, Answer::Frame(1, Fate::HandedBack)),
        (Call::GivesUp, Answer::Frame(3, Fate::GivenUp)),
        (Call::GivesUp, Answer::NoFrame),
        (Call::Returns, Answer::Frame(2, Fate::HandedBack)),
    ];
    assert_answers(&rt, queue, &rows)
}

#[test]
fn polls_are_ignored_until_the_answer_succeeded_or_failed(rt: HostRuntime) -> Result<(), Fail> {
    let queue = ReceiverQueue::new(rt.alloc(), 64);
    let polls = (
        Call::Station(StationChange::Polls { until: 9 }),
        Answer::Done,
    );
    let rows = [
        (Call::Station(StationChange::Joins), Answer::Done),
        (Call::Station(StationChange::Dozes), Answer::Done),
        (Call::Station(StationChange::Settles), Answer::Done),
        (Call::IgnoresPolls, Answer::Is(false)),
        polls,
        (Call::IgnoresPolls, Answer::Is(false)),
        (unit_comes(1, 2), Answer::NoFrame),
        (Call::IgnoresPolls, Answer::Is(true)),
        polls,
        (unit_comes(2, 2), Answer::NoFrame),
        (Call::Turn { now: 3 }, Answer::Frame(1, Fate::Goes)),
        polls,
        (unit_comes(3, 3), Answer::NoFrame),
        (Call::Unacknowledged(1), Answer::Frame(1, Fate::WaitsAgain)),
        polls,
        (Call::Turn { now: 4 }, Answer::Frame(1, Fate::GoesAgain)),
        (Call::IgnoresPolls, Answer::Is(true)),
        (Call::Unacknowledged(1), Answer::Frame(1, Fate::HandedBack)),
        (Call::IgnoresPolls, Answer::Is(false)),
        polls,
        (unit_comes(4, 5), Answer::NoFrame),
        (Call::Turn { now: 5 }, Answer::Frame(4, Fate::Goes)),
        (Call::Acknowledged(4), Answer::Frame(4, Fate::Acknowledged)),
        (Call::Turn { now: 6 }, Answer::NoFrame),
        (Call::Returns, Answer::Frame(2, Fate::HandedBack)),
        (Call::Returns, Answer::Frame(3, Fate::HandedBack)),
    ];
    assert_answers(&rt, queue, &rows)
}

#[test]
fn polls_are_ignored_while_a_unit_is_out_that_went_before(rt: HostRuntime) -> Result<(), Fail> {
    let queue = ReceiverQueue::new(rt.alloc(), 64);
    let polls = (
        Call::Station(StationChange::Polls { until: 9 }),
        Answer::Done,
    );
    let rows = [
        (Call::Station(StationChange::Joins), Answer::Done),
        (unit_comes(1, 0), Answer::NoFrame),
        (frame_comes(2, 0), Answer::NoFrame),
        (Call::Turn { now: 1 }, Answer::Frame(1, Fate::Goes)),
        (Call::Turn { now: 1 }, Answer::Frame(2, Fate::Goes)),
        (Call::Station(StationChange::Dozes), Answer::Done),
        (Call::Station(StationChange::Settles), Answer::Done),
        (Call::IgnoresPolls, Answer::Is(true)),
        polls,
        (unit_comes(3, 2), Answer::NoFrame),
        (Call::Acknowledged(1), Answer::Frame(1, Fate::Acknowledged)),
        (Call::IgnoresPolls, Answer::Is(false)),
        polls,
        (unit_comes(4, 2), Answer::NoFrame),
        (Call::Turn { now: 3 }, Answer::Frame(4, Fate::Goes)),
        (Call::Returns, Answer::Frame(3, Fate::HandedBack)),
    ];
    assert_answers(&rt, queue, &rows)
}
