// Holds by the turn lock.
ghost use Rattle.std.specs.Prelude.{◌≡◌, ◌≤◌, All, length, false};
ghost use Rattle.turn_lock.specs.Views.{IsSeatOf};

use crate::tally::{Held, Tally};
use crate::words::Work;
use std::alloc::{AllocError, Global};
use std::sync::Wait;
use std::thread;
use std::thread::Threads;
use turn_lock::{TurnLock, TurnSeat};

/// Lets each thread hold the value as often as the work says, and answers how often it was held.
pub fn hold_all<R: Threads + Wait + Sync>(
    rt: &R,
    alloc: Global,
    work: &Work,
) -> Result<u64, AllocError> {
    let tally = Tally { holds: 0 };
    let Ok((lock, mut seats)) = TurnLock::new(alloc, tally, u32::from(work.threads)) else {
        return Err(AllocError);
    };
    hold_in_threads(rt, &lock, seats.as_mut_slice(), work.holds);
    Ok(lock.close(seats).holds)
}

// A thread for each seat.
fn hold_in_threads<T: Held + Send, R: Threads + Wait + Sync>(
    rt: &R,
    lock: &TurnLock<T>,
    seats: &mut [TurnSeat<T>],
    holds: u32,
)
    requires some { 1 ≤ length seats.old }
    requires mine { All (IsSeatOf T.began lock.now) seats.old }
    requires free { All (λ seat. seat.has ≡ false) seats.old }
    ensures long { length seats.new ≡ length seats.old }
    ensures mine { All (IsSeatOf T.began lock.now) seats.new }
    ensures free { All (λ seat. seat.has ≡ false) seats.new }
{
    let threads = seats.len();
    thread::for_each_mut(
        rt,
        seats,
        threads,
        &|_: usize, seat: &mut TurnSeat<T>|
            requires mine { IsSeatOf T.began lock.now seat.old }
            requires free { seat.old.has ≡ false }
            ensures mine { IsSeatOf T.began lock.entry.now seat.new }
            ensures free { seat.new.has ≡ false }
        { hold(rt, lock, seat, holds) },
    );
}

fn hold<T: Held, R: Wait>(rt: &R, lock: &TurnLock<T>, seat: &mut TurnSeat<T>, holds: u32)
    requires mine { IsSeatOf T.began lock.now seat.old }
    requires free { seat.old.has ≡ false }
    ensures mine { IsSeatOf T.began lock.now seat.new }
    ensures free { seat.new.has ≡ false }
{
    for _ in 0..holds {
        let mut value = lock.take(rt, seat);
        value.count();
        lock.put(seat, value);
    }
}
