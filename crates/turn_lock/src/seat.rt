// A caller's seat at a lock.
ghost use Rattle.std.specs.Prelude.{◌≡◌, length, false, true};
ghost use Rattle.turn_lock.specs.Follows.{Follows};
ghost use Rattle.turn_lock.specs.Rule.{IsAt};
ghost use Rattle.turn_lock.specs.Steps.{sits};

use crate::knowledge::{Board, Place};
use crate::last_seen::LastSeen;
use crate::steps;
use std::marker::Model;
use std::snapshot::Snapshot;
use std::sync::Wait;
use vol_base::Counted;

/// A seat of a [`crate::TurnLock`], by which one thread at a time takes the value and puts it back.
/// A seat that is dropped is lost to its lock, which then cannot be closed.
#[derive(Drop)]
pub struct TurnSeat<T: Counted> {
    place: Place<T>,
    seen: LastSeen<Snapshot<T>>,
    has: bool,
    number: u32,
    entries: u64,
}

impl<T: Counted> Model for TurnSeat<T> {
    ghost use Rattle.std.specs.Prelude.{◌≡◌, length};
    ghost use Rattle.turn_lock.specs.Views.{SeatView};
    ghost use Rattle.turn_lock.specs.Steps.{sits};

    ghost Value = { SeatView T };

    ghost view = { λ s. record { lock = s.place.table_id; number = s.number; has = s.has; seen = s.seen.value.value } };

    ghost invariant = { λ s. (s.place.me ≡ sits s.has s.seen.value.value s.entries) × (s.entries ≡ length (T.listed s.seen.value.value)) };
}

impl<T: Counted> TurnSeat<T> {
    /// The seat's number, from 0 in the order in which its lock gave the seats.
    pub fn number(&self) -> u32
        ensures { result ≡ self.now.number }
    {
        self.number
    }

    /// The number of entries that the seat has seen: those of the value that it took or put back last.
    pub fn entries(&self) -> u64
        ensures { result ≡ length (T.listed self.now.seen) }
    {
        self.entries
    }

    pub(crate) fn new(
        place: Place<T>,
        first: &Snapshot<T>,
        number: u32,
        entries: u64,
    ) -> TurnSeat<T>
        requires place { place.me ≡ sits false first.now.value entries }
        requires entries { entries ≡ length (T.listed first.now.value) }
        ensures { result ≡ record { lock = place.table_id; number = number; has = false; seen = first.now.value } }
    {
        TurnSeat {
            place,
            seen: LastSeen::of(first),
            has: false,
            number,
            entries,
        }
    }

    pub(crate) fn take<R: Wait>(&mut self, rt: &R, board: &Board<T>) -> T
        requires table { IsAt board.now.table_id self.old.lock }
        requires free { self.old.has ≡ false }
        ensures later { Follows T.began T.listed self.old.seen result }
        ensures seat { self.new ≡ record self.old { has = true; seen = result } }
    {
        steps::take_turn(rt, board, &mut self.place);
        let (value, entries) = steps::take_out(board, &mut self.place);
        self.seen = LastSeen::of(&Snapshot::of(&value));
        self.has = true;
        self.entries = entries;
        value
    }

    pub(crate) fn put(&mut self, board: &Board<T>, value: T)
        requires table { IsAt board.now.table_id self.old.lock }
        requires has { self.old.has ≡ true }
        requires later { Follows T.began T.listed self.old.seen value }
        ensures { self.new ≡ record self.old { has = false; seen = value } }
    {
        self.seen = LastSeen::of(&Snapshot::of(&value));
        self.has = false;
        self.entries = value.entries();
        steps::put_back(board, &mut self.place, value, self.entries);
    }

    pub(crate) fn into_place(self) -> Place<T>
        ensures table { result.table_id ≡ self.lock }
        ensures waits { self.has ≡ false → result.me ≡ sits false self.seen 0 }
    {
        let TurnSeat { place, .. } = self;
        place
    }
}
