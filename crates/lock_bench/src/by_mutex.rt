// Holds by std's lock.
use crate::tally::{Held, Tally};
use crate::words::Work;
use std::alloc::{AllocError, Global};
use std::sync::{Mutex, Wait};
use std::thread;
use std::thread::Threads;

/// Lets each thread hold the value as often as the work says, and answers how often it was held.
pub fn hold_all<R: Threads + Wait + Sync>(
    rt: &R,
    alloc: Global,
    work: &Work,
) -> Result<u64, AllocError> {
    let threads = usize::from(work.threads);
    let holds = work.holds;
    let tally = Mutex::new(Tally { holds: 0 });
    let shared = &tally;
    thread::map_indices(rt, alloc, threads, &|_| hold(rt, shared, holds))?;
    Ok(tally.into_inner().holds)
}

fn hold<R: Wait>(rt: &R, tally: &Mutex<Tally>, holds: u32) {
    for _ in 0..holds {
        tally.lock(rt).count();
    }
}
