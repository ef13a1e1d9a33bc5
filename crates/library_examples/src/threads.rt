//! An access point: a thread for each of two sources, and one that lets frames leave.

ghost use Rattle.std.specs.Prelude.{◌≡◌, IfOk, length};
ghost use Rattle.play.specs.Sections.{AreSections, HaveLeft};
ghost use Rattle.workers.specs.Names.{AreNamed};

use ap_config::{MAX_NETWORKS, RadioConfig};
use events::Line;
use mac_frame::NoMemory;
use std::alloc::Global;
use std::marker::Brand;
use std::sync::Wait;
use std::sync::atomic::{AtomicU64, Ordering};
use std::thread;
use std::thread::Threads;
use workers::{Ap, ApName, Caller, Finished, Outcome, Parts, PlayFault, Transmitter};

/// Opens an access point, lets two sources give it their lines, each on a thread of its own, and ends it. Its frames
/// leave meanwhile. `Config` for the first fault of the configuration, `NoMemory` if memory ran out to the
/// access point, a source or the frames that leave, `Finish` if [`Ap::finish`] refuses; once it was opened it is
/// ended in each case. What one network refused is no fault: that line is in no history of it (*profile*).
pub fn run_two<R: Threads + Wait + Sync>(
    rt: &R,
    alloc: Global,
    config: RadioConfig,
    first: &[Line],
    second: &[Line],
) -> Result<Finished, PlayFault>
    ensures networks { IfOk result (λ end. length end.sections ≡ length config.networks) }
    ensures sections { IfOk result (λ end. AreSections config end.sections) }
    ensures left { IfOk result (λ end. HaveLeft end.sections end.left) }
{
    let parts = Parts::open(alloc, config, 2)?;
    run_parts::<Brand, R>(rt, alloc, parts, first, second)
}

/// The same, by the name of the access point that these are the parts of.
fn run_parts<N: ApName + Send + Sync, R: Threads + Wait + Sync>(
    rt: &R,
    alloc: Global,
    parts: Parts,
    first: &[Line],
    second: &[Line],
) -> Result<Finished, PlayFault>
    requires { AreNamed N.config N.queue parts }
    ensures networks { IfOk result (λ end. length end.sections ≡ length N.config.networks) }
    ensures sections { IfOk result (λ end. AreSections N.config end.sections) }
    ensures left { IfOk result (λ end. HaveLeft end.sections end.left) }
{
    let (ap, mut callers, mut transmitter) = Ap::<N>::start(alloc, parts)?;
    let fed = run_threads(
        rt,
        &ap,
        callers.as_mut_slice(),
        first,
        second,
        &mut transmitter,
    );
    let ended = ap.finish(rt, callers, transmitter);
    fed?;
    Ok(ended?)
}

/// Two callers give the sources' lines.
fn run_threads<N: ApName + Send + Sync, R: Threads + Wait + Sync>(
    rt: &R,
    ap: &Ap<N>,
    callers: &mut [Caller],
    first: &[Line],
    second: &[Line],
    transmitter: &mut Transmitter<N>,
) -> Result<(), PlayFault> {
    let [one, two] = callers else {
        return Err(PlayFault::Sources);
    };
    join_threads(rt, ap, one, first, two, second, transmitter)?;
    Ok(())
}

/// One thread lets frames leave until the sources have ended.
fn join_threads<N: ApName + Send + Sync, R: Threads + Wait + Sync>(
    rt: &R,
    ap: &Ap<N>,
    one: &mut Caller,
    first: &[Line],
    two: &mut Caller,
    second: &[Line],
    transmitter: &mut Transmitter<N>,
) -> Result<(), NoMemory> {
    let ended = AtomicU64::new(0);
    let flag = &ended;
    let (fed, left) = thread::join(
        rt,
        move || feed_both(rt, ap, one, first, two, second, flag),
        move || transmit(rt, ap, transmitter, flag),
    );
    fed?;
    left
}

/// One thread gives the first source's lines, and one the second's.
fn feed_both<N: ApName + Send + Sync, R: Threads + Wait + Sync>(
    rt: &R,
    ap: &Ap<N>,
    one: &mut Caller,
    first: &[Line],
    two: &mut Caller,
    second: &[Line],
    ended: &AtomicU64,
) -> Result<(), NoMemory> {
    let (fed, also) = thread::join(
        rt,
        move || feed(rt, ap, one, first),
        move || feed(rt, ap, two, second),
    );
    ended.store(1, Ordering::SeqCst);
    fed?;
    also
}

/// Gives the lines of a source in their order, and after each hands the frames that wait to the air queue.
fn feed<N: ApName, R: Wait>(
    rt: &R,
    ap: &Ap<N>,
    caller: &mut Caller,
    lines: &[Line],
) -> Result<(), NoMemory> {
    for line in lines {
        give(rt, ap, caller, line)?;
        for place in 0..ap.networks() {
            ap.pump(rt, place);
        }
    }
    Ok(())
}

/// Gives one line. What each network made of it is answered, and kept by the caller too.
fn give<N: ApName, R: Wait>(
    rt: &R,
    ap: &Ap<N>,
    caller: &mut Caller,
    line: &Line,
) -> Result<[Outcome; MAX_NETWORKS], NoMemory> {
    match line {
        Line::Air(frame) => ap.air(rt, caller, frame.as_slice()),
        Line::Wire { place, octets } => ap.wire(rt, caller, *place, octets.as_slice()),
        Line::Tick => ap.tick(rt, caller),
    }
}

/// Lets frames leave until the sources have ended and the queue is empty. A program gives each to its radio here.
fn transmit<N: ApName, R: Wait>(
    rt: &R,
    ap: &Ap<N>,
    transmitter: &mut Transmitter<N>,
    ended: &AtomicU64,
) -> Result<(), NoMemory> {
    for _ in rt.forever() {
        let is_last = ended.load(Ordering::SeqCst) == 1;
        if !ap.leave(rt, transmitter)? {
            if is_last {
                return Ok(());
            }
            thread::yield_now();
        }
    }
    unreachable!()
}
