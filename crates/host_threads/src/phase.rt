// A phase, from its first turn to its last.
ghost use Rattle.std.specs.Prelude.{◌≡◌, ◌≤◌, ◌<◌, ℕ, All, length, false, OnOk, slice_index_or};
ghost use Rattle.vol_base.specs.Grows.{BeginsWith};
ghost use Rattle.turn_lock.specs.Follows.{Follows};
ghost use Rattle.turn_lock.specs.Views.{IsSeatOf};

use crate::{drive, turns};
use std::alloc::Global;
use std::sync::Wait;
use std::thread;
use std::thread::Threads;
use turn_lock::{TurnLock, TurnSeat};
use vol_base::{Gate, HostNo, NoMemory, Turns};

/// Runs the phase of a value that has so many hosts, each in a thread of its own, to its end. Each
/// thread passes the gate before each of its turns, while it has no hold of the value; the value
/// comes back in any case. Nothing is said of an order of turns, nor that this call returns.
///
/// # Errors
///
/// `NoMemory` where a turn or the lock was refused memory; the phase may then be unfinished.
pub fn run_phase<T: Turns + Send, G: Gate + Sync, R: Threads + Wait + Sync>(
    rt: &R,
    alloc: Global,
    value: T,
    hosts: HostNo,
    gate: &G,
) -> (T, Result<(), NoMemory>)
    requires hosts { hosts ≡ T.hosts (T.began value) }
    ensures began { T.began result.0 ≡ T.began value }
    ensures entries { BeginsWith (T.listed value) (T.listed result.0) }
    ensures none_left { OnOk result.1 (T.left result.0 ≡ 0) }
    ensures idle { OnOk result.1 ((host : ℕ) → T.has_command result.0 host ≡ false) }
{
    // A value without hosts is asked as one whose host 0 is idle.
    let asked = hosts.max(1);
    match TurnLock::new(alloc, value, u32::from(asked)) {
        Ok((lock, seats)) => drive::to_the_end(by_threads(rt, lock, seats, gate), asked),
        Err(value) => (value, Err(NoMemory)),
    }
}

// A thread for each seat, until each has come to its end; the value is then that of the lock.
fn by_threads<T: Turns + Send, G: Gate + Sync, R: Threads + Wait + Sync>(
    rt: &R,
    lock: TurnLock<T>,
    mut seats: Vec<TurnSeat<T>>,
    gate: &G,
) -> T
    requires some { 1 ≤ length seats.items }
    requires few { length seats.items ≤ 255 }
    requires all { length seats.items ≡ lock.seats }
    requires mine { All (IsSeatOf T.began lock) seats.items }
    requires free { All (λ seat. seat.has ≡ false) seats.items }
    ensures began { T.began result ≡ T.began lock.first }
    ensures entries { (k : ℕ) (seat : _) → k < length seats.items → BeginsWith (T.listed (slice_index_or seats.items k seat).seen) (T.listed result) }
{
    run_seats(rt, &lock, seats.as_mut_slice(), gate);
    lock.close(seats)
}

// The turns of each seat's host, in a thread of its own.
fn run_seats<T: Turns + Send, G: Gate + Sync, R: Threads + Wait + Sync>(
    rt: &R,
    lock: &TurnLock<T>,
    seats: &mut [TurnSeat<T>],
    gate: &G,
)
    requires some { 1 ≤ length seats.old }
    requires few { length seats.old ≤ 255 }
    requires mine { All (IsSeatOf T.began lock.now) seats.old }
    requires free { All (λ seat. seat.has ≡ false) seats.old }
    ensures long { length seats.new ≡ length seats.old }
    ensures mine { All (IsSeatOf T.began lock.now) seats.new }
    ensures free { All (λ seat. seat.has ≡ false) seats.new }
    ensures later { (k : ℕ) (seat : _) → k < length seats.old → Follows T.began T.listed (slice_index_or seats.old k seat).seen (slice_index_or seats.new k seat).seen }
{
    let threads = seats.len();
    thread::for_each_mut(
        rt,
        seats,
        threads,
        &|host: usize, seat: &mut TurnSeat<T>|
            requires host { host ≤ 255 }
            requires mine { IsSeatOf T.began lock.now seat.old }
            requires free { seat.old.has ≡ false }
            ensures mine { IsSeatOf T.began lock.entry.now seat.new }
            ensures free { seat.new.has ≡ false }
            ensures later { Follows T.began T.listed seat.old.seen seat.new.seen }
        { turns::make_all(rt, lock, seat, host as HostNo, gate) },
    );
}
