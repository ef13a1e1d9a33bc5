//! The queues of the networks of a radio.

ghost use Rattle.std.specs.Prelude.{◌≤◌};

use downlink::{Fate, NetworkAnswer, NetworkQueue, RadioQueue, Refusal, StationChange};
use std::alloc::{AllocError, Global};
use std::process::Abort;
use std::test::Fail;

/// A call of the queues. In a variant without names the network stands first, and then the receiver, if it has one.
#[derive(Clone, Copy)]
enum Call {
    Networks,
    HasNext,
    TurnOf,
    Change(usize, usize, StationChange),
    Comes {
        network: usize,
        receiver: usize,
        ticket: u64,
        is_unit: bool,
        until: u64,
        now: u64,
    },
    Next {
        now: u64,
    },
    /// A network, a receiver, and the time.
    NextOf(usize, usize, u64),
    /// A network, and the air that it used.
    Used(usize, u32),
    /// The frame with a ticket is told of as acknowledged.
    Acknowledged(usize, usize, u64),
    Returns(usize, usize),
    GivesUp(usize, usize),
    IgnoresPolls(usize, usize),
    /// A network is paused.
    Pauses(usize),
    /// A network isn't paused any more.
    Resumes(usize),
}

/// What a call answers.
#[derive(Clone, Copy, PartialEq)]
enum Answer {
    Count(usize),
    Is(bool),
    /// The place of the network whose turn it is.
    Turn(Option<usize>),
    NoReceiver,
    NoFrame,
    /// The places of a frame's network and receiver, its ticket, and what became of it.
    Frame(usize, usize, u64, Fate),
}

/// The call by which a unit comes at time 0 that may go until 50.
fn unit_comes(network: usize, receiver: usize, ticket: u64) -> Call {
    Call::Comes {
        network,
        receiver,
        ticket,
        is_unit: true,
        until: 50,
        now: 0,
    }
}

/// The call by which a frame comes at time 0 that is no unit.
fn frame_comes(network: usize, receiver: usize, ticket: u64, until: u64) -> Call {
    Call::Comes {
        network,
        receiver,
        ticket,
        is_unit: false,
        until,
        now: 0,
    }
}

/// The answer of a call that may tell of a frame.
fn told(answer: Option<NetworkAnswer>) -> Answer {
    match answer {
        Some(told) => Answer::Frame(
            told.network,
            told.answer.receiver,
            told.answer.answer.frame.ticket,
            told.answer.answer.fate,
        ),
        None => Answer::NoFrame,
    }
}

/// The answer of a call that may tell of a frame, or that there is no such receiver.
fn told_where_taken(answer: Result<Option<NetworkAnswer>, Refusal>) -> Result<Answer, Refusal> {
    match answer {
        Ok(answer) => Ok(told(answer)),
        Err(Refusal::NoReceiver) => Ok(Answer::NoReceiver),
        Err(Refusal::NoMemory) => Err(Refusal::NoMemory),
    }
}

/// Makes a call, and gives its answer.
fn answer_of(radio: &mut RadioQueue, call: Call) -> Result<Answer, Refusal> {
    let answer = match call {
        Call::Networks => Answer::Count(radio.networks()),
        Call::HasNext => Answer::Is(radio.has_next()),
        Call::TurnOf => Answer::Turn(radio.turn_of()),
        Call::Change(network, receiver, change) => {
            Answer::Is(radio.change(network, receiver, change))
        }
        Call::Comes {
            network,
            receiver,
            ticket,
            is_unit,
            until,
            now,
        } => told_where_taken(radio.comes(network, receiver, ticket, is_unit, until, now))?,
        Call::Next { now } => told(radio.next(now)),
        Call::NextOf(network, receiver, now) => told(radio.next_of(network, receiver, now)),
        Call::Used(network, units) => Answer::Is(radio.used(network, units)),
        Call::Acknowledged(network, receiver, ticket) => {
            told(radio.told(network, receiver, ticket, true))
        }
        Call::Returns(network, receiver) => told(radio.returns(network, receiver)),
        Call::GivesUp(network, receiver) => told(radio.gives_up(network, receiver)),
        Call::IgnoresPolls(network, receiver) => {
            Answer::Is(radio.ignores_polls(network, receiver))
        }
        Call::Pauses(network) => Answer::Is(radio.pauses(network, true)),
        Call::Resumes(network) => Answer::Is(radio.pauses(network, false)),
    };
    Ok(answer)
}

/// Makes the calls of rows in their order. Gives the number, from 0, of the first row that was answered otherwise.
fn first_wrong(radio: &mut RadioQueue, rows: &[(Call, Answer)]) -> Result<Option<usize>, Refusal> {
    for (number, (call, expected)) in rows.iter().enumerate() {
        if answer_of(radio, *call)? != *expected {
            return Ok(Some(number));
        }
    }
    Ok(None)
}

/// Makes the calls of rows in their order, and asserts that each is answered so.
fn assert_answers(
    rt: &impl Abort,
    mut radio: RadioQueue,
    rows: &[(Call, Answer)],
) -> Result<(), Fail> {
    assert_eq!(rt; first_wrong(&mut radio, rows)?, None);
    Ok(())
}

/// A radio with one network, of the greatest weight, with one receiver.
fn one_network(alloc: Global) -> Result<RadioQueue, AllocError> {
    let mut radio = RadioQueue::new(alloc);
    radio.add(16, NetworkQueue::new(alloc, &[1])?)?;
    Ok(radio)
}

/// A radio with two networks. The first has weight 1 and one receiver, the second this weight and a receiver for each
/// of these numbers.
fn two_networks(alloc: Global, weight: u8, mosts: &[usize]) -> Result<RadioQueue, AllocError>
    requires { (1 ≤ weight) × (weight ≤ 16) }
{
    let mut radio = RadioQueue::new(alloc);
    radio.add(1, NetworkQueue::new(alloc, &[8])?)?;
    radio.add(weight, NetworkQueue::new(alloc, mosts)?)?;
    Ok(radio)
}

#[test]
fn the_network_that_owes_least_goes_next(rt: HostRuntime) -> Result<(), Fail> {
    let radio = two_networks(rt.alloc(), 2, &[8, 8])?;
    let rows = [
        (Call::Networks, Answer::Count(2)),
        (Call::HasNext, Answer::Is(false)),
        (Call::Next { now: 0 }, Answer::NoFrame),
        (frame_comes(0, 0, 1, 50), Answer::NoFrame),
        (frame_comes(1, 1, 11, 50), Answer::NoFrame),
        (frame_comes(0, 0, 2, 50), Answer::NoFrame),
        (frame_comes(1, 1, 12, 50), Answer::NoFrame),
        (frame_comes(0, 0, 3, 50), Answer::NoFrame),
        (frame_comes(1, 1, 13, 50), Answer::NoFrame),
        (Call::HasNext, Answer::Is(true)),
        (Call::Next { now: 1 }, Answer::Frame(0, 0, 1, Fate::Goes)),
        (Call::Used(0, 100), Answer::Is(true)),
        (Call::Next { now: 1 }, Answer::Frame(1, 1, 11, Fate::Goes)),
        (Call::Used(1, 100), Answer::Is(true)),
        (Call::Next { now: 1 }, Answer::Frame(1, 1, 12, Fate::Goes)),
        (Call::Used(1, 100), Answer::Is(true)),
        (Call::Next { now: 1 }, Answer::Frame(0, 0, 2, Fate::Goes)),
        (Call::Used(2, 100), Answer::Is(false)),
        (
            Call::Acknowledged(0, 0, 1),
            Answer::Frame(0, 0, 1, Fate::Acknowledged),
        ),
        (Call::Acknowledged(1, 0, 11), Answer::NoFrame),
    ];
    assert_answers(&rt, radio, &rows)
}

#[test]
fn a_turn_with_a_late_frame_costs_nothing(rt: HostRuntime) -> Result<(), Fail> {
    let radio = two_networks(rt.alloc(), 1, &[8])?;
    let rows = [
        (frame_comes(0, 0, 1, 5), Answer::NoFrame),
        (frame_comes(0, 0, 2, 50), Answer::NoFrame),
        (frame_comes(1, 0, 3, 50), Answer::NoFrame),
        (Call::Next { now: 6 }, Answer::Frame(0, 0, 1, Fate::Late)),
        (Call::Next { now: 6 }, Answer::Frame(0, 0, 2, Fate::Goes)),
        (Call::Next { now: 6 }, Answer::Frame(1, 0, 3, Fate::Goes)),
        (Call::Next { now: 6 }, Answer::NoFrame),
    ];
    assert_answers(&rt, radio, &rows)
}

#[test]
fn a_station_that_dozes_stops_its_network_alone(rt: HostRuntime) -> Result<(), Fail> {
    let radio = two_networks(rt.alloc(), 1, &[8])?;
    let rows = [
        (Call::Change(0, 0, StationChange::Joins), Answer::Is(true)),
        (Call::Change(1, 0, StationChange::Joins), Answer::Is(true)),
        (unit_comes(0, 0, 1), Answer::NoFrame),
        (unit_comes(1, 0, 2), Answer::NoFrame),
        (Call::Change(0, 0, StationChange::Dozes), Answer::Is(true)),
        (Call::Next { now: 1 }, Answer::Frame(1, 0, 2, Fate::Goes)),
        (Call::HasNext, Answer::Is(false)),
        (
            Call::Returns(0, 0),
            Answer::Frame(0, 0, 1, Fate::HandedBack),
        ),
        (Call::Returns(0, 0), Answer::NoFrame),
    ];
    assert_answers(&rt, radio, &rows)
}

#[test]
fn what_is_not_there_is_refused(rt: HostRuntime) -> Result<(), Fail> {
    let radio = one_network(rt.alloc())?;
    let rows = [
        (frame_comes(1, 0, 1, 50), Answer::NoReceiver),
        (frame_comes(0, 1, 1, 50), Answer::NoReceiver),
        (Call::Change(1, 0, StationChange::Joins), Answer::Is(false)),
        (Call::Change(0, 1, StationChange::Joins), Answer::Is(false)),
        (Call::Used(1, 1), Answer::Is(false)),
        (Call::Returns(1, 0), Answer::NoFrame),
        (Call::GivesUp(1, 0), Answer::NoFrame),
        (Call::GivesUp(0, 1), Answer::NoFrame),
        (Call::NextOf(1, 0, 1), Answer::NoFrame),
        (Call::Pauses(1), Answer::Is(false)),
        (Call::TurnOf, Answer::Turn(None)),
        (Call::HasNext, Answer::Is(false)),
    ];
    assert_answers(&rt, radio, &rows)
}

#[test]
fn a_caller_chooses_a_receiver_and_the_rule_its_network(rt: HostRuntime) -> Result<(), Fail> {
    let radio = two_networks(rt.alloc(), 1, &[8, 8])?;
    let rows = [
        (frame_comes(0, 0, 1, 50), Answer::NoFrame),
        (frame_comes(1, 0, 2, 50), Answer::NoFrame),
        (frame_comes(1, 1, 3, 50), Answer::NoFrame),
        (Call::TurnOf, Answer::Turn(Some(0))),
        (Call::NextOf(1, 1, 1), Answer::NoFrame),
        (Call::NextOf(0, 1, 1), Answer::NoFrame),
        (Call::NextOf(0, 0, 1), Answer::Frame(0, 0, 1, Fate::Goes)),
        (Call::Used(0, 100), Answer::Is(true)),
        (Call::TurnOf, Answer::Turn(Some(1))),
        (Call::NextOf(1, 1, 1), Answer::Frame(1, 1, 3, Fate::Goes)),
        (Call::NextOf(1, 1, 1), Answer::NoFrame),
        (Call::NextOf(1, 0, 51), Answer::Frame(1, 0, 2, Fate::Late)),
        (Call::TurnOf, Answer::Turn(None)),
    ];
    assert_answers(&rt, radio, &rows)
}

#[test]
fn a_paused_network_leaves_its_turns_to_others(rt: HostRuntime) -> Result<(), Fail> {
    let radio = two_networks(rt.alloc(), 1, &[8, 8])?;
    let rows = [
        (frame_comes(0, 0, 1, 50), Answer::NoFrame),
        (frame_comes(1, 0, 2, 50), Answer::NoFrame),
        (frame_comes(1, 1, 3, 50), Answer::NoFrame),
        (Call::Pauses(0), Answer::Is(true)),
        (Call::TurnOf, Answer::Turn(Some(1))),
        (Call::NextOf(0, 0, 1), Answer::NoFrame),
        (Call::Next { now: 1 }, Answer::Frame(1, 0, 2, Fate::Goes)),
        (Call::Pauses(1), Answer::Is(true)),
        (Call::HasNext, Answer::Is(false)),
        (Call::Next { now: 1 }, Answer::NoFrame),
        (Call::Resumes(0), Answer::Is(true)),
        (Call::Next { now: 1 }, Answer::Frame(0, 0, 1, Fate::Goes)),
        (Call::Next { now: 1 }, Answer::NoFrame),
        (Call::Resumes(1), Answer::Is(true)),
        (Call::Next { now: 1 }, Answer::Frame(1, 1, 3, Fate::Goes)),
    ];
    assert_answers(&rt, radio, &rows)
}

#[test]
fn a_network_whose_frame_is_given_up_has_no_turn(rt: HostRuntime) -> Result<(), Fail> {
    let radio = two_networks(rt.alloc(), 1, &[8, 8])?;
    let rows = [
        (frame_comes(0, 0, 1, 50), Answer::NoFrame),
        (frame_comes(1, 0, 2, 50), Answer::NoFrame),
        (frame_comes(1, 1, 3, 50), Answer::NoFrame),
        (Call::GivesUp(0, 0), Answer::Frame(0, 0, 1, Fate::GivenUp)),
        (Call::GivesUp(0, 0), Answer::NoFrame),
        (Call::TurnOf, Answer::Turn(Some(1))),
        (Call::GivesUp(1, 0), Answer::Frame(1, 0, 2, Fate::GivenUp)),
        (Call::Next { now: 1 }, Answer::Frame(1, 1, 3, Fate::Goes)),
        (Call::HasNext, Answer::Is(false)),
    ];
    assert_answers(&rt, radio, &rows)
}

#[test]
fn polls_of_the_station_that_is_answered_are_ignored(rt: HostRuntime) -> Result<(), Fail> {
    let radio = two_networks(rt.alloc(), 1, &[8, 8])?;
    let rows = [
        (Call::Change(1, 1, StationChange::Joins), Answer::Is(true)),
        (unit_comes(1, 1, 1), Answer::NoFrame),
        (Call::IgnoresPolls(1, 1), Answer::Is(false)),
        (Call::Next { now: 1 }, Answer::Frame(1, 1, 1, Fate::Goes)),
        (Call::IgnoresPolls(1, 1), Answer::Is(true)),
        (Call::IgnoresPolls(1, 0), Answer::Is(false)),
        (Call::IgnoresPolls(0, 0), Answer::Is(false)),
        (Call::IgnoresPolls(0, 1), Answer::Is(false)),
        (Call::IgnoresPolls(2, 1), Answer::Is(false)),
        (
            Call::Acknowledged(1, 1, 1),
            Answer::Frame(1, 1, 1, Fate::Acknowledged),
        ),
        (Call::IgnoresPolls(1, 1), Answer::Is(false)),
    ];
    assert_answers(&rt, radio, &rows)
}
