// The turns of one host, in its thread.
ghost use Rattle.std.specs.Prelude.{◌≡◌, true, false};
ghost use Rattle.turn_lock.specs.Follows.{Follows};
ghost use Rattle.turn_lock.specs.Views.{IsSeatOf};

use fingerprint::digest_of;
use std::sync::Wait;
use turn_lock::{TurnLock, TurnSeat};
use vol_base::{Digest, Gate, HostNo, NoMemory, Turn, Turns};

/// Makes the host's turns until it is idle or was refused memory. It passes the gate before each turn,
/// and works out digests, while it does not have the lock.
pub fn make_all<T: Turns, G: Gate, R: Wait>(
    rt: &R,
    lock: &TurnLock<T>,
    seat: &mut TurnSeat<T>,
    host: HostNo,
    gate: &G,
)
    requires mine { IsSeatOf T.began lock.now seat.old }
    requires free { seat.old.has ≡ false }
    ensures mine { IsSeatOf T.began lock.now seat.new }
    ensures free { seat.new.has ≡ false }
    ensures later { Follows T.began T.listed seat.old.seen seat.new.seen }
{
    for turn in 0..u64::MAX {
        gate.pass(host, turn);
        match make_one(rt, lock, seat, host) {
            Ok(Turn::Moved | Turn::Answered(_)) => {}
            Ok(Turn::Work(block)) => hand_in(rt, lock, seat, host, digest_of(&block)),
            Ok(Turn::Idle) | Err(NoMemory) => return,
        }
    }
}

// One hold, for one turn.
fn make_one<T: Turns, R: Wait>(
    rt: &R,
    lock: &TurnLock<T>,
    seat: &mut TurnSeat<T>,
    host: HostNo,
) -> Result<Turn, NoMemory>
    requires mine { IsSeatOf T.began lock.now seat.old }
    requires free { seat.old.has ≡ false }
    ensures mine { IsSeatOf T.began lock.now seat.new }
    ensures free { seat.new.has ≡ false }
    ensures later { Follows T.began T.listed seat.old.seen seat.new.seen }
{
    let mut value = lock.take(rt, seat);
    let made = value.turn(host);
    lock.put(seat, value);
    made
}

// One hold, for a digest.
fn hand_in<T: Turns, R: Wait>(
    rt: &R,
    lock: &TurnLock<T>,
    seat: &mut TurnSeat<T>,
    host: HostNo,
    digest: Digest,
)
    requires mine { IsSeatOf T.began lock.now seat.old }
    requires free { seat.old.has ≡ false }
    ensures mine { IsSeatOf T.began lock.now seat.new }
    ensures free { seat.new.has ≡ false }
    ensures later { Follows T.began T.listed seat.old.seen seat.new.seen }
{
    let mut value = lock.take(rt, seat);
    value.supply(host, digest);
    lock.put(seat, value);
}
