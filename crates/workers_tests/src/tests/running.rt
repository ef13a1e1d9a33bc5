//! One access point, from its opening to its end.

ghost use Rattle.workers.specs.Names.{AreNamed};

use super::moves::{Move, make_all};
use super::overlap::look_and_answer;
use super::receipts::{Visit, visit_it};
use ap_config::RadioConfig;
use std::alloc::Global;
use std::marker::Brand;
use std::process::Abort;
use std::sync::Wait;
use std::test::Fail;
use std::thread::Threads;
use workers::{Ap, ApName, Caller, FinishFault, Finished, Parts, Transmitter};

/// What is done with it.
#[derive(Clone, Copy)]
pub(super) enum Job {
    /// Its callers make these moves in turn.
    Moves(&'static [Move]),
    /// A thread looks at the first network until another's frame for the second was answered.
    LookAndAnswer,
    /// It is visited.
    Visit(Visit),
}

/// That is done. A stranger comes along for a visit.
fn work<N: ApName + Send + Sync, R: Threads + Wait + Abort + Sync>(
    rt: &R,
    alloc: Global,
    job: Job,
    ap: &Ap<N>,
    callers: &mut Vec<Caller>,
    transmitter: &mut Transmitter<N>,
    stranger: Option<Caller>,
) -> Result<(), Fail> {
    match job {
        Job::Moves(moves) => make_all(rt, alloc, ap, callers.as_mut_slice(), transmitter, moves),
        Job::LookAndAnswer => look_and_answer(rt, ap, callers.as_mut_slice()),
        Job::Visit(visit) => visit_it(rt, ap, callers, visit, stranger),
    }
}

fn run_of<N: ApName + Send + Sync, R: Threads + Wait + Abort + Sync>(
    rt: &R,
    alloc: Global,
    parts: Parts,
    job: Job,
    stranger: Option<Caller>,
) -> Result<Result<Finished, FinishFault>, Fail>
    requires { AreNamed N.config N.queue parts }
{
    let (ap, mut callers, mut transmitter) = Ap::<N>::start(alloc, parts)?;
    work(
        rt,
        alloc,
        job,
        &ap,
        &mut callers,
        &mut transmitter,
        stranger,
    )?;
    Ok(ap.finish(rt, callers, transmitter))
}

/// What a new access point of this number of callers ends with.
pub(super) fn run<R: Threads + Wait + Abort + Sync>(
    rt: &R,
    alloc: Global,
    config: RadioConfig,
    callers: u32,
    job: Job,
) -> Result<Finished, Fail> {
    let parts = Parts::open(alloc, config, callers)?;
    Ok(run_of::<Brand, R>(rt, alloc, parts, job, None)??)
}

/// Why a new access point can't be finished after a visit, if it can't.
pub(super) fn fault<R: Threads + Wait + Abort + Sync>(
    rt: &R,
    alloc: Global,
    config: RadioConfig,
    callers: u32,
    visit: Visit,
    stranger: Option<Caller>,
) -> Result<Option<FinishFault>, Fail> {
    let parts = Parts::open(alloc, config, callers)?;
    Ok(run_of::<Brand, R>(rt, alloc, parts, Job::Visit(visit), stranger)?.err())
}
