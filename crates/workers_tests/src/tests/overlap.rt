//! One network answers while another is looked at: each has a lock of its own.

ghost use Rattle.std.specs.Prelude.{◌<◌, length};

use super::running::{Job, run};
use super::{has_first, radio};
use ap_config::MAX_NETWORKS;
use mac_frame::{MacAddr, NoMemory};
use network::Bss;
use std::process::Abort;
use std::sync::Wait;
use std::sync::atomic::{AtomicU64, Ordering};
use std::test::Fail;
use std::thread;
use std::thread::Threads;
use workers::{Ap, ApName, Caller, Outcome};

/// How often a thread looks at most.
const TURNS: u32 = 1_000_000;

/// Whether a sign is given in time.
pub(super) fn comes(sign: &AtomicU64) -> bool {
    for _ in 0..TURNS {
        if sign.load(Ordering::SeqCst) == 1 {
            return true;
        }
        thread::yield_now();
    }
    false
}

/// Tells that a network is looked at. Answers whether it is the first, and the other thread was answered meanwhile.
fn is_answered_beside(first: &Bss, looking: &AtomicU64, answered: &AtomicU64) -> bool {
    looking.store(1, Ordering::SeqCst);
    first.config().bssid == MacAddr::new([2, 0, 0, 0, 0, 1]) && comes(answered)
}

/// Gives a frame to the second network while the first is looked at, and tells that it was answered. Answers whether
/// the first was looked at, and what became of the frame.
fn answer<N: ApName, R: Wait>(
    rt: &R,
    ap: &Ap<N>,
    caller: &mut Caller,
    looking: &AtomicU64,
    answered: &AtomicU64,
) -> (bool, Result<[Outcome; MAX_NETWORKS], NoMemory>) {
    let is_looked_at = comes(looking);
    let outcomes = ap.wire(rt, caller, 1, &[0; 13]);
    answered.store(1, Ordering::SeqCst);
    (is_looked_at, outcomes)
}

/// One thread looks at the first network until the other's frame for the second was answered.
fn both<N: ApName + Send + Sync, R: Threads + Wait + Sync>(
    rt: &R,
    ap: &Ap<N>,
    caller: &mut Caller,
) -> (bool, (bool, Result<[Outcome; MAX_NETWORKS], NoMemory>))
    requires { 0 < length N.config.networks }
{
    let looking = AtomicU64::new(0);
    let answered = AtomicU64::new(0);
    let (signs, seen) = (&looking, &answered);
    thread::join(
        rt,
        move ||
            requires { 0 < length N.config.networks }
        { ap.inspect(rt, 0, |bss| is_answered_beside(bss, signs, seen)) },
        move || answer(rt, ap, caller, signs, seen),
    )
}

/// Each thread sees the other's sign in time, and the second network took the frame.
pub(super) fn look_and_answer<N: ApName + Send + Sync, R: Threads + Wait + Abort + Sync>(
    rt: &R,
    ap: &Ap<N>,
    callers: &mut [Caller],
) -> Result<(), Fail> {
    has_first(ap)?;
    let caller = callers.first_mut().ok_or("no caller")?;
    let (is_answered, (is_looked_at, outcomes)) = both(rt, ap, caller);
    let mut expected = [Outcome::NotHeard; MAX_NETWORKS];
    expected[1] = Outcome::Took(0);
    assert_eq!(rt;
        (is_answered, is_looked_at, outcomes?),
        (true, true, expected)
    );
    Ok(())
}

#[test]
fn other_network_answers(rt: HostRuntime) -> Result<(), Fail> {
    let config = radio(rt.alloc(), 64, &[1000, 1000])?;
    let _end = run(&rt, rt.alloc(), config, 1, Job::LookAndAnswer)?;
    Ok(())
}
