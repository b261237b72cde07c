// The lock.
ghost use Rattle.std.specs.Prelude.{◌≡◌, ◌≤◌, [], All, length, true, false, IfOk, IfErr};
ghost use Rattle.vol_base.specs.Grows.{BeginsWith};
ghost use Rattle.turn_lock.specs.Rule.{starting};
ghost use Rattle.turn_lock.specs.Views.{IsSeatOf, AreNew};

use crate::knowledge::{Knows, Law, Opening, Place};
use crate::seat::TurnSeat;
use crate::seats;
use atomic_table::{Refused, Table};
use std::alloc::Global;
use std::marker::Model;
use std::snapshot::Snapshot;
use std::sync::Wait;
use vol_base::Counted;

/// A lock over a value that began somewhere. A thread with a seat takes the value out, and puts it
/// back. Nothing is said of when a thread gets it, nor of an order.
pub struct TurnLock<T: Counted> {
    table: Table<Option<T>, Knows<T>, Opening<T>, Law, Global>,
}

impl<T: Counted> Model for TurnLock<T> {
    ghost use Rattle.std.specs.Prelude.{◌≡◌, ◌≤◌};
    ghost use Rattle.turn_lock.specs.Views.{LockView};

    ghost Value = { LockView T };

    ghost view = { λ l. record { id = l.table.shared.table_id; first = l.table.shared.key.first.value; seats = l.table.shared.key.seats } };

    ghost invariant = { λ l. (l.table.shared.table_id.words ≡ 2) × (l.table.shared.table_id.slots ≡ 1) × (1 ≤ l.table.shared.key.seats) };
}

impl<T: Counted> TurnLock<T> {
    /// A lock with this value in it, and its seats in the order of their numbers. The value comes back
    /// where there was no memory.
    #[tactic(auto, using(crate::proofs::SeatLists::new_mine, crate::proofs::SeatLists::new_free))]
    pub fn new(alloc: Global, value: T, seats: u32) -> Result<(TurnLock<T>, Vec<TurnSeat<T>>), T>
        requires { 1 ≤ seats }
        ensures lock { IfOk result (λ made. (made.0.first ≡ value) × (made.0.seats ≡ seats)) }
        ensures count { IfOk result (λ made. length made.1.items ≡ seats) }
        ensures new { IfOk result (λ made. AreNew made.0.id value made.1.items) }
        ensures mine { IfOk result (λ made. All (IsSeatOf T.began made.0) made.1.items) }
        ensures free { IfOk result (λ made. All (λ seat. seat.has ≡ false) made.1.items) }
        ensures back { IfErr result (λ back. back ≡ value) }
    {
        let Ok(mut all) = Vec::with_capacity(alloc, seats as usize) else {
            return Err(value);
        };
        let entries = value.entries();
        let first = Snapshot::of(&value);
        let (lock, place) = TurnLock::open(alloc, value, seats)?;
        seats::deal(&lock.table.shared, place, &first, entries, seats, &mut all);
        Ok((lock, all))
    }

    fn open(alloc: Global, value: T, seats: u32) -> Result<(TurnLock<T>, Place<T>), T>
        requires { 1 ≤ seats }
        ensures lock { IfOk result (λ made. (made.0.first ≡ value) × (made.0.seats ≡ seats)) }
        ensures place { IfOk result (λ made. (made.1.table_id ≡ made.0.id) × (made.1.me ≡ (starting seats value, []))) }
        ensures back { IfErr result (λ back. back ≡ value) }
    {
        let words = [0, value.entries()];
        let about = Opening {
            first: Snapshot::of(&value),
            seats: u64::from(seats),
        };
        let Ok(mut slots) = Vec::with_capacity(alloc, 1) else {
            return Err(value);
        };
        slots.push_reserved(Some(value));
        match Table::new(alloc, &words, slots, &about) {
            Ok((table, place)) => Ok((TurnLock { table }, place)),
            Err(Refused { slots }) => Err(seats::only_value(slots)),
        }
    }

    /// Takes the value, once the seat has the lock; it tries again until then. The value began where
    /// the first one did, and its list begins with all that the seat had seen.
    pub fn take<R: Wait>(&self, rt: &R, seat: &mut TurnSeat<T>) -> T
        requires mine { IsSeatOf T.began self.now seat.old }
        requires free { seat.old.has ≡ false }
        ensures began { T.began result ≡ T.began self.now.first }
        ensures entries { BeginsWith (T.listed seat.old.seen) (T.listed result) }
        ensures seat { seat.new ≡ record seat.old { has = true; seen = result } }
    {
        seat.take(rt, &self.table.shared)
    }

    /// Puts back a value that began where the taken one did, and whose list begins with its list.
    pub fn put(&self, seat: &mut TurnSeat<T>, value: T)
        requires mine { IsSeatOf T.began self.now seat.old }
        requires has { seat.old.has ≡ true }
        requires began { T.began value ≡ T.began seat.old.seen }
        requires entries { BeginsWith (T.listed seat.old.seen) (T.listed value) }
        ensures { seat.new ≡ record seat.old { has = false; seen = value } }
    {
        seat.put(&self.table.shared, value);
    }

    /// The value, once all seats are back and none has the lock. It began where the first one did, and
    /// its list begins with all that any seat had seen.
    pub fn close(self, seats: Vec<TurnSeat<T>>) -> T
        requires all { length seats.items ≡ self.seats }
        requires mine { All (IsSeatOf T.began self) seats.items }
        requires free { All (λ seat. seat.has ≡ false) seats.items }
        ensures began { T.began result ≡ T.began self.first }
        ensures entries { All (λ seat. BeginsWith (T.listed seat.seen) (T.listed result)) seats.items }
    {
        let TurnLock { table } = self;
        let place = seats::merged(&table.shared, seats);
        let mut closed = table.close_with(place);
        let home = closed.take(0);
        closed.free();
        let Some(value) = home else { unreachable!() };
        value
    }
}
