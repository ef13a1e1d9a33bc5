//! The queue of a network.

use downlink::{Fate, NetworkQueue, ReceiverAnswer, Refusal, StationChange};
use std::process::Abort;
use std::test::Fail;

/// A call of the queue. In a variant without names the receiver stands first.
#[derive(Clone, Copy)]
enum Call {
    Receivers,
    HasNext,
    Change(usize, StationChange),
    Comes {
        receiver: usize,
        ticket: u64,
        is_unit: bool,
        until: u64,
        now: u64,
    },
    Turn {
        now: u64,
    },
    /// A receiver, and the time.
    TurnTo(usize, u64),
    /// The frame with a ticket is told of as acknowledged.
    Acknowledged(usize, u64),
    /// The frame with a ticket is told of as not acknowledged.
    Unacknowledged(usize, u64),
    Returns(usize),
    GivesUp(usize),
    IgnoresPolls(usize),
    /// The network is paused.
    Pauses,
    /// The network isn't paused any more.
    Resumes,
}

/// What a call answers.
#[derive(Clone, Copy, PartialEq)]
enum Answer {
    /// The call gives nothing.
    Done,
    Count(usize),
    Is(bool),
    NoReceiver,
    NoFrame,
    /// The place of a frame's receiver, its ticket, and what became of it.
    Frame(usize, u64, Fate),
}

/// The call by which a unit comes at time 0 that may go until 50.
fn unit_comes(receiver: usize, ticket: u64) -> Call {
    Call::Comes {
        receiver,
        ticket,
        is_unit: true,
        until: 50,
        now: 0,
    }
}

/// The call by which a frame comes at time 0 that is no unit.
fn frame_comes(receiver: usize, ticket: u64, until: u64) -> Call {
    Call::Comes {
        receiver,
        ticket,
        is_unit: false,
        until,
        now: 0,
    }
}

/// The answer of a call that may tell of a frame.
fn told(answer: Option<ReceiverAnswer>) -> Answer {
    match answer {
        Some(told) => Answer::Frame(told.receiver, told.answer.frame.ticket, told.answer.fate),
        None => Answer::NoFrame,
    }
}

/// The answer of a call that may tell of a frame, or that there is no such receiver.
fn told_where_taken(answer: Result<Option<ReceiverAnswer>, Refusal>) -> Result<Answer, Refusal> {
    match answer {
        Ok(answer) => Ok(told(answer)),
        Err(Refusal::NoReceiver) => Ok(Answer::NoReceiver),
        Err(Refusal::NoMemory) => Err(Refusal::NoMemory),
    }
}

/// Makes a call, and gives its answer.
fn answer_of(network: &mut NetworkQueue, call: Call) -> Result<Answer, Refusal> {
    let answer = match call {
        Call::Receivers => Answer::Count(network.receivers()),
        Call::HasNext => Answer::Is(network.has_next()),
        Call::Change(receiver, change) => Answer::Is(network.change(receiver, change)),
        Call::Comes {
            receiver,
            ticket,
            is_unit,
            until,
            now,
        } => told_where_taken(network.comes(receiver, ticket, is_unit, until, now))?,
        Call::Turn { now } => told(network.turn(now)),
        Call::TurnTo(receiver, now) => told(network.turn_to(receiver, now)),
        Call::Acknowledged(receiver, ticket) => told(network.told(receiver, ticket, true)),
        Call::Unacknowledged(receiver, ticket) => told(network.told(receiver, ticket, false)),
        Call::Returns(receiver) => told(network.returns(receiver)),
        Call::GivesUp(receiver) => told(network.gives_up(receiver)),
        Call::IgnoresPolls(receiver) => Answer::Is(network.ignores_polls(receiver)),
        Call::Pauses => {
            network.pauses(true);
            Answer::Done
        }
        Call::Resumes => {
            network.pauses(false);
            Answer::Done
        }
    };
    Ok(answer)
}

/// Makes the calls of rows in their order. Gives the number, from 0, of the first row that was answered otherwise.
fn first_wrong(
    network: &mut NetworkQueue,
    rows: &[(Call, Answer)],
) -> Result<Option<usize>, Refusal> {
    for (number, (call, expected)) in rows.iter().enumerate() {
        if answer_of(network, *call)? != *expected {
            return Ok(Some(number));
        }
    }
    Ok(None)
}

/// Makes the calls of rows in their order, and asserts that each is answered so.
fn assert_answers(
    rt: &impl Abort,
    mut network: NetworkQueue,
    rows: &[(Call, Answer)],
) -> Result<(), Fail> {
    assert_eq!(rt; first_wrong(&mut network, rows)?, None);
    Ok(())
}

#[test]
fn receivers_take_turns(rt: HostRuntime) -> Result<(), Fail> {
    let network = NetworkQueue::new(rt.alloc(), &[8, 8, 8])?;
    let rows = [
        (Call::Receivers, Answer::Count(3)),
        (Call::HasNext, Answer::Is(false)),
        (Call::Change(1, StationChange::Joins), Answer::Is(true)),
        (Call::Change(2, StationChange::Joins), Answer::Is(true)),
        (Call::Change(3, StationChange::Joins), Answer::Is(false)),
        (unit_comes(1, 1), Answer::NoFrame),
        (unit_comes(1, 2), Answer::NoFrame),
        (unit_comes(1, 3), Answer::NoFrame),
        (unit_comes(2, 4), Answer::NoFrame),
        (frame_comes(0, 5, 50), Answer::NoFrame),
        (Call::HasNext, Answer::Is(true)),
        (Call::Turn { now: 1 }, Answer::Frame(0, 5, Fate::Goes)),
        (Call::Turn { now: 1 }, Answer::Frame(1, 1, Fate::Goes)),
        (Call::Turn { now: 1 }, Answer::Frame(2, 4, Fate::Goes)),
        (
            Call::Unacknowledged(2, 4),
            Answer::Frame(2, 4, Fate::WaitsAgain),
        ),
        (Call::IgnoresPolls(2), Answer::Is(true)),
        (Call::IgnoresPolls(0), Answer::Is(false)),
        (Call::IgnoresPolls(3), Answer::Is(false)),
        (Call::Turn { now: 1 }, Answer::Frame(1, 2, Fate::Goes)),
        (Call::Turn { now: 1 }, Answer::Frame(2, 4, Fate::GoesAgain)),
        (Call::Turn { now: 51 }, Answer::Frame(1, 3, Fate::Late)),
        (Call::Turn { now: 51 }, Answer::NoFrame),
    ];
    assert_answers(&rt, network, &rows)
}

#[test]
fn a_receiver_that_is_not_there_is_refused(rt: HostRuntime) -> Result<(), Fail> {
    let network = NetworkQueue::new(rt.alloc(), &[1])?;
    let rows = [
        (frame_comes(1, 1, 50), Answer::NoReceiver),
        (Call::Acknowledged(1, 1), Answer::NoFrame),
        (Call::Returns(1), Answer::NoFrame),
        (Call::GivesUp(1), Answer::NoFrame),
        (Call::TurnTo(1, 1), Answer::NoFrame),
        (Call::HasNext, Answer::Is(false)),
    ];
    assert_answers(&rt, network, &rows)
}

#[test]
fn units_of_one_station_that_dozes_go_back(rt: HostRuntime) -> Result<(), Fail> {
    let network = NetworkQueue::new(rt.alloc(), &[8, 8])?;
    let rows = [
        (Call::Change(0, StationChange::Joins), Answer::Is(true)),
        (Call::Change(1, StationChange::Joins), Answer::Is(true)),
        (unit_comes(0, 1), Answer::NoFrame),
        (unit_comes(1, 2), Answer::NoFrame),
        (Call::Change(0, StationChange::Dozes), Answer::Is(true)),
        (Call::Turn { now: 1 }, Answer::Frame(1, 2, Fate::Goes)),
        (Call::Turn { now: 1 }, Answer::NoFrame),
        (Call::Returns(0), Answer::Frame(0, 1, Fate::HandedBack)),
    ];
    assert_answers(&rt, network, &rows)
}

#[test]
fn a_caller_chooses_a_receiver(rt: HostRuntime) -> Result<(), Fail> {
    let network = NetworkQueue::new(rt.alloc(), &[8, 8])?;
    let rows = [
        (frame_comes(0, 1, 50), Answer::NoFrame),
        (frame_comes(0, 2, 50), Answer::NoFrame),
        (frame_comes(1, 3, 50), Answer::NoFrame),
        (frame_comes(1, 4, 5), Answer::NoFrame),
        (Call::TurnTo(1, 1), Answer::Frame(1, 3, Fate::Goes)),
        (Call::TurnTo(0, 1), Answer::Frame(0, 1, Fate::Goes)),
        (Call::Turn { now: 1 }, Answer::Frame(0, 2, Fate::Goes)),
        (Call::TurnTo(0, 6), Answer::NoFrame),
        (Call::TurnTo(1, 6), Answer::Frame(1, 4, Fate::Late)),
        (Call::HasNext, Answer::Is(false)),
    ];
    assert_answers(&rt, network, &rows)
}

#[test]
fn a_paused_network_has_no_turn(rt: HostRuntime) -> Result<(), Fail> {
    let network = NetworkQueue::new(rt.alloc(), &[8])?;
    let second_comes = Call::Comes {
        receiver: 0,
        ticket: 2,
        is_unit: false,
        until: 50,
        now: 1,
    };
    let rows = [
        (frame_comes(0, 1, 50), Answer::NoFrame),
        (Call::Pauses, Answer::Done),
        (Call::HasNext, Answer::Is(false)),
        (Call::Turn { now: 1 }, Answer::NoFrame),
        (second_comes, Answer::NoFrame),
        (Call::GivesUp(0), Answer::Frame(0, 1, Fate::GivenUp)),
        (Call::Resumes, Answer::Done),
        (Call::HasNext, Answer::Is(true)),
        (Call::Turn { now: 1 }, Answer::Frame(0, 2, Fate::Goes)),
        (Call::Turn { now: 1 }, Answer::NoFrame),
    ];
    assert_answers(&rt, network, &rows)
}
