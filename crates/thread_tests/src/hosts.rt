// Runs of two hosts that need no device.
mod host;
pub mod meeting;
mod pair;
mod passes;

use host_threads::run_phase;
use meeting::Meeting;
use pair::Pair;
use passes::Passes;
use std::alloc::AllocError;
use std::process::Abort;
use vol_base::{Digest, FreeGate, NoMemory, Turns};

// The SHA-1 of the block that is filled with the number 7.
const DIGEST: Digest = Digest([
    43, 165, 92, 167, 42, 123, 197, 82, 113, 83, 61, 26, 200, 203, 65, 76, 9, 123, 1, 149,
]);

// The answers of a whole phase.
const ANSWERS: usize = 6;

// Each host passes before each of its 12 turns, before the turn that waits, and before the idle one.
#[test]
fn phases_end(rt: HostRuntime) -> Result<(), AllocError> {
    for run in 0..200 {
        let pair = Pair::with_room(rt.alloc(), ANSWERS)?;
        let passes = Passes::new();
        let (pair, ended) = run_phase(&rt, rt.alloc(), pair, 2, &passes);
        assert_eq!(rt; ended, Ok::<(), NoMemory>(()), "run {run}");
        assert_eq!(rt; passes.counts(), (13, 14), "run {run}");
        assert!(rt; passes.in_order(), "run {run}");
        is_done(&rt, &pair);
    }
    Ok(())
}

#[test]
fn hosts_interleave_inside_a_command(rt: HostRuntime) -> Result<(), AllocError> {
    let meeting = Meeting::new();
    let pair = Pair::with_room(rt.alloc(), ANSWERS)?;
    let (pair, ended) = run_phase(&rt, rt.alloc(), pair, 2, &meeting);
    assert_eq!(rt; ended, Ok::<(), NoMemory>(()));
    is_done(&rt, &pair);
    assert!(rt; meeting.was_held(), "the hosts met");
    Ok(())
}

// Threads that are refused memory.
#[test]
fn refused_memory_ends_a_phase(rt: HostRuntime) -> Result<(), AllocError> {
    let pair = Pair::with_room(rt.alloc(), 1)?;
    let (pair, ended) = run_phase(&rt, rt.alloc(), pair, 2, &FreeGate);
    assert_eq!(rt; ended, Err::<(), NoMemory>(NoMemory));
    assert!(rt; pair.left() > 0);
    Ok(())
}

fn is_done<R: Abort>(rt: &R, pair: &Pair) {
    assert_eq!(rt; pair.left(), 0);
    assert_eq!(rt; (pair.answers(0), pair.answers(1)), (3, 3));
    assert_eq!(rt; pair.digest(), Some(DIGEST));
}
