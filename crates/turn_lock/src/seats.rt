// Seats dealt out, and all of them as one.
ghost use Rattle.std.specs.Prelude.{◌≡◌, ◌≤◌, ◌<◌, [], ◌∷◌, All, Some, IsSome, length, vec_len, vec_capacity, false};
ghost use Rattle.turn_lock.specs.Rule.{IsAt, starting};
ghost use Rattle.turn_lock.specs.Steps.{Merged};
ghost use Rattle.turn_lock.specs.Views.{AreNew};

use crate::knowledge::{Board, Place};
use crate::plays::{Deal, Merge};
use crate::seat::TurnSeat;
use std::snapshot::Snapshot;
use vol_base::Counted;

/// The value in the one slot.
pub fn only_value<T: Counted>(mut slots: Vec<Option<T>>) -> T
    requires one { length slots.items ≡ 1 }
    requires some { All IsSome slots.items }
    ensures { slots.items ≡ Some result ∷ [] }
{
    let popped = slots.pop();
    slots.destroy_empty();
    let Some(Some(value)) = popped else {
        unreachable!()
    };
    value
}

/// Deals the parts of a seat that has them all to so many seats.
pub fn deal<T: Counted>(
    board: &Board<T>,
    mut place: Place<T>,
    first: &Snapshot<T>,
    entries: u64,
    seats: u32,
    all: &mut Vec<TurnSeat<T>>,
)
    requires table { IsAt board.now.table_id place.table_id }
    requires some { 1 ≤ seats }
    requires place { place.me ≡ (starting seats first.now.value, []) }
    requires entries { entries ≡ length (T.listed first.now.value) }
    requires empty { all.old.items ≡ [] }
    requires none { vec_len all.old ≡ 0 }
    requires room { seats ≤ vec_capacity all.old }
    ensures count { vec_len all.new ≡ seats }
    ensures each { AreNew board.now.table_id first.now.value all.new.items }
{
    for number in 0..seats - 1 {
        let dealt = board.split_seat::<Deal>(&mut place);
        all.push_reserved(TurnSeat::new(dealt, first, number, entries));
    }
    all.push_reserved(TurnSeat::new(place, first, seats - 1, entries));
}

/// One seat with the parts of all, and all that they have seen.
pub fn merged<T: Counted>(board: &Board<T>, mut seats: Vec<TurnSeat<T>>) -> Place<T>
    requires two { board.now.table_id.words ≡ 2 }
    requires some { 0 < vec_len seats }
    requires mine { All (λ seat. seat.lock ≡ board.now.table_id) seats.items }
    requires free { All (λ seat. seat.has ≡ false) seats.items }
    ensures table { result.table_id ≡ board.now.table_id }
    ensures all { Merged seats.items result.me }
{
    let Some(last) = seats.pop() else {
        unreachable!()
    };
    let mut place = last.into_place();
    while let Some(next) = seats.pop() {
        board.join_seat::<Merge>(&mut place, next.into_place());
    }
    place
}
