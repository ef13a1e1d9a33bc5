//! What callers were told against the histories of another access point, or of their own.

ghost use Rattle.workers.specs.Names.{AreNamed};

use super::radio;
use super::running::fault;
use std::alloc::Global;
use std::marker::Brand;
use std::process::Abort;
use std::sync::Wait;
use std::test::Fail;
use std::thread::Threads;
use workers::{Ap, ApName, Caller, FinishFault, Parts};

/// What each caller of an access point gives it.
#[derive(Clone, Copy)]
enum Gift {
    /// So many ticks.
    Ticks(u32),
    /// A frame on the wire.
    WiredFrame,
}

/// Whom it is finished with, beside a stranger if there is one.
#[derive(Clone, Copy)]
enum Handed {
    /// All its own callers.
    All,
    /// All of them but the last.
    AllButTheLast,
    /// All of them, and the stranger gives it a tick first.
    AllWithAGuest,
}

/// How an access point ends that a stranger may visit.
#[derive(Clone, Copy)]
pub(super) struct Visit {
    gift: Gift,
    handed: Handed,
}

/// An access point that is finished so.
#[derive(Clone, Copy)]
struct Row {
    what: &'static str,
    /// Other access points: how many events each of their networks takes, and the ticks of their one caller. The first
    /// one's caller is the stranger, who goes to each of the others, after these ticks, and gives one more.
    told: &'static [(&'static [u32], u32)],
    /// How many events its network takes.
    most: u32,
    callers: u32,
    visit: Visit,
    expected: Option<FinishFault>,
}

/// Of several faults the first is told: a bad receipt, then an event that no receipt tells of, then a network that is
/// not full.
const ROWS: [Row; 21] = [
    Row {
        what: "its own caller, after Took and Full",
        told: &[],
        most: 1,
        callers: 1,
        visit: Visit {
            gift: Gift::Ticks(2),
            handed: Handed::All,
        },
        expected: None,
    },
    Row {
        what: "its own caller, after Took",
        told: &[],
        most: 100,
        callers: 1,
        visit: Visit {
            gift: Gift::Ticks(1),
            handed: Handed::All,
        },
        expected: None,
    },
    Row {
        what: "its own caller, after nothing",
        told: &[],
        most: 100,
        callers: 1,
        visit: Visit {
            gift: Gift::Ticks(0),
            handed: Handed::All,
        },
        expected: None,
    },
    Row {
        what: "both its own callers",
        told: &[],
        most: 100,
        callers: 2,
        visit: Visit {
            gift: Gift::Ticks(1),
            handed: Handed::All,
        },
        expected: None,
    },
    Row {
        what: "the first of two callers",
        told: &[],
        most: 100,
        callers: 2,
        visit: Visit {
            gift: Gift::Ticks(1),
            handed: Handed::AllButTheLast,
        },
        expected: Some(FinishFault::Uncovered),
    },
    Row {
        what: "nobody",
        told: &[],
        most: 100,
        callers: 1,
        visit: Visit {
            gift: Gift::Ticks(1),
            handed: Handed::AllButTheLast,
        },
        expected: Some(FinishFault::Uncovered),
    },
    Row {
        what: "number 0 is not there",
        told: &[(&[100], 1)],
        most: 100,
        callers: 1,
        visit: Visit {
            gift: Gift::Ticks(0),
            handed: Handed::AllButTheLast,
        },
        expected: Some(FinishFault::BadReceipt),
    },
    Row {
        what: "number 1 is not there",
        told: &[(&[100], 2)],
        most: 100,
        callers: 1,
        visit: Visit {
            gift: Gift::Ticks(1),
            handed: Handed::AllButTheLast,
        },
        expected: Some(FinishFault::BadReceipt),
    },
    Row {
        what: "place 1 is not there",
        told: &[(&[1000, 1000], 1)],
        most: 100,
        callers: 1,
        visit: Visit {
            gift: Gift::Ticks(1),
            handed: Handed::AllButTheLast,
        },
        expected: Some(FinishFault::BadReceipt),
    },
    Row {
        what: "place 1 is not there, and event 1 is not told of",
        told: &[(&[1000, 1000], 1)],
        most: 100,
        callers: 1,
        visit: Visit {
            gift: Gift::Ticks(2),
            handed: Handed::AllButTheLast,
        },
        expected: Some(FinishFault::BadReceipt),
    },
    Row {
        what: "another event",
        told: &[(&[100], 1)],
        most: 100,
        callers: 1,
        visit: Visit {
            gift: Gift::WiredFrame,
            handed: Handed::AllButTheLast,
        },
        expected: Some(FinishFault::BadReceipt),
    },
    Row {
        what: "an event that two receipts tell of",
        told: &[(&[100], 1)],
        most: 100,
        callers: 1,
        visit: Visit {
            gift: Gift::Ticks(1),
            handed: Handed::All,
        },
        expected: Some(FinishFault::BadReceipt),
    },
    Row {
        what: "a guest whose first receipt is of another",
        told: &[(&[100], 1)],
        most: 100,
        callers: 1,
        visit: Visit {
            gift: Gift::Ticks(1),
            handed: Handed::AllWithAGuest,
        },
        expected: Some(FinishFault::BadReceipt),
    },
    Row {
        what: "each event once, but number 1 before 0",
        told: &[(&[100], 0), (&[100], 1), (&[100], 0)],
        most: 100,
        callers: 1,
        visit: Visit {
            gift: Gift::Ticks(2),
            handed: Handed::AllButTheLast,
        },
        expected: Some(FinishFault::BadReceipt),
    },
    Row {
        what: "each event once, in order",
        told: &[(&[100], 1), (&[100], 1)],
        most: 100,
        callers: 1,
        visit: Visit {
            gift: Gift::Ticks(2),
            handed: Handed::AllButTheLast,
        },
        expected: None,
    },
    Row {
        what: "full, where one more fits",
        told: &[(&[1], 2)],
        most: 100,
        callers: 1,
        visit: Visit {
            gift: Gift::Ticks(1),
            handed: Handed::AllButTheLast,
        },
        expected: Some(FinishFault::FullEarly),
    },
    Row {
        what: "full, where one more fits, and event 1 is not told of",
        told: &[(&[1], 2)],
        most: 100,
        callers: 1,
        visit: Visit {
            gift: Gift::Ticks(2),
            handed: Handed::AllButTheLast,
        },
        expected: Some(FinishFault::Uncovered),
    },
    Row {
        what: "another event, and full, where one more fits",
        told: &[(&[1], 2)],
        most: 100,
        callers: 1,
        visit: Visit {
            gift: Gift::WiredFrame,
            handed: Handed::AllButTheLast,
        },
        expected: Some(FinishFault::BadReceipt),
    },
    Row {
        what: "place 1 is not there, event 1 is not told of, and full, where one more fits",
        told: &[(&[1, 1000], 2)],
        most: 100,
        callers: 1,
        visit: Visit {
            gift: Gift::Ticks(2),
            handed: Handed::AllButTheLast,
        },
        expected: Some(FinishFault::BadReceipt),
    },
    Row {
        what: "full, and then event 1 of a network that is full now",
        told: &[(&[1], 2), (&[100], 1)],
        most: 2,
        callers: 1,
        visit: Visit {
            gift: Gift::Ticks(2),
            handed: Handed::AllButTheLast,
        },
        expected: Some(FinishFault::FullEarly),
    },
    Row {
        what: "full at place 1, which is not there",
        told: &[(&[100], 1), (&[100, 1], 1)],
        most: 100,
        callers: 1,
        visit: Visit {
            gift: Gift::Ticks(2),
            handed: Handed::AllButTheLast,
        },
        expected: Some(FinishFault::FullEarly),
    },
];

/// Its one caller gives this number of ticks, and the stranger, if there is one, one more. Answers the stranger, or
/// else the caller. Of the frames one is queued then.
fn tell<N: ApName, R: Wait>(
    rt: &R,
    ap: &Ap<N>,
    callers: &mut Vec<Caller>,
    ticks: u32,
    stranger: Option<Caller>,
) -> Result<Caller, Fail> {
    let mut caller = callers.pop().ok_or("no caller")?;
    for _ in 0..ticks {
        ap.tick(rt, &mut caller)?;
    }
    for place in 0..ap.networks() {
        ap.pump(rt, place);
    }
    if let Some(stranger) = stranger {
        caller = stranger;
        ap.tick(rt, &mut caller)?;
    }
    Ok(caller)
}

fn told_of<N: ApName, R: Wait>(
    rt: &R,
    alloc: Global,
    parts: Parts,
    ticks: u32,
    stranger: Option<Caller>,
) -> Result<Caller, Fail>
    requires { AreNamed N.config N.queue parts }
{
    let (ap, mut callers, _transmitter) = Ap::<N>::start(alloc, parts)?;
    tell(rt, &ap, &mut callers, ticks, stranger)
}

/// Who a new access point is told by. It is dropped with the frames that are queued and that wait.
fn told<R: Wait>(
    rt: &R,
    alloc: Global,
    most: &[u32],
    ticks: u32,
    stranger: Option<Caller>,
) -> Result<Caller, Fail> {
    let parts = Parts::open(alloc, radio(alloc, 1, most)?, 1)?;
    told_of::<Brand, R>(rt, alloc, parts, ticks, stranger)
}

/// A caller gives this.
fn give<N: ApName, R: Wait>(
    rt: &R,
    ap: &Ap<N>,
    caller: &mut Caller,
    gift: Gift,
) -> Result<(), Fail> {
    match gift {
        Gift::Ticks(count) => {
            for _ in 0..count {
                ap.tick(rt, caller)?;
            }
        }
        Gift::WiredFrame => {
            ap.wire(rt, caller, 0, &[0; 13])?;
        }
    }
    Ok(())
}

/// Each of an access point's callers gives it something, and then they are those that it is finished with.
pub(super) fn visit_it<N: ApName, R: Wait>(
    rt: &R,
    ap: &Ap<N>,
    callers: &mut Vec<Caller>,
    visit: Visit,
    stranger: Option<Caller>,
) -> Result<(), Fail> {
    for caller in callers.iter_mut() {
        give(rt, ap, caller, visit.gift)?;
    }
    if let Handed::AllButTheLast = visit.handed {
        callers.pop();
    }
    let Some(mut stranger) = stranger else {
        return Ok(());
    };
    if let Handed::AllWithAGuest = visit.handed {
        ap.tick(rt, &mut stranger)?;
    }
    callers.push(stranger)?;
    Ok(())
}

/// Why the access point of a row can't be finished, if it can't.
fn fault_of<R: Threads + Wait + Abort + Sync>(
    rt: &R,
    alloc: Global,
    row: Row,
) -> Result<Option<FinishFault>, Fail> {
    let mut stranger = None;
    for (most, ticks) in row.told {
        stranger = Some(told(rt, alloc, *most, *ticks, stranger)?);
    }
    let config = radio(alloc, 64, &[row.most])?;
    fault(rt, alloc, config, row.callers, row.visit, stranger)
}

#[test]
fn receipts_are_tested(rt: HostRuntime) -> Result<(), Fail> {
    for row in ROWS {
        assert_eq!(rt;
            fault_of(&rt, rt.alloc(), row)?,
            row.expected,
            "{}",
            row.what
        );
    }
    Ok(())
}

#[test]
fn an_access_point_is_dropped(rt: HostRuntime) -> Result<(), Fail> {
    let caller = told(&rt, rt.alloc(), &[100], 3, None)?;
    assert_eq!(rt; caller.entries().len(), 3);
    Ok(())
}
