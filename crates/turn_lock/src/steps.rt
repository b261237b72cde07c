// The atomic steps on the table, each as the seat that makes it sees it.
ghost use Rattle.std.specs.Prelude.{◌≡◌, [], ◌∷◌, Some, length, true, false};
ghost use Rattle.turn_lock.specs.Rule.{IsAt};
ghost use Rattle.turn_lock.specs.Steps.{GotTurn, CanTake, HasSlot, CanPut, sits};

use crate::knowledge::{Board, Place};
use crate::plays::{Count, Free, Raise, Take};
use std::sync::Wait;
use std::thread;
use vol_base::Counted;

// The word that is 1 while a seat has the turn.
const TURN: usize = 0;

// The word that counts the entries of the value.
const COUNT: usize = 1;

// The slot of the value.
const SLOT: usize = 0;

/// Tries again until the seat has the turn, and the slot with it.
pub fn take_turn<T: Counted, R: Wait>(rt: &R, board: &Board<T>, place: &mut Place<T>)
    requires table { IsAt board.now.table_id place.old.table_id }
    requires can { CanTake place.old.me.0 }
    ensures table { place.new.table_id ≡ place.old.table_id }
    ensures turn { GotTurn T.began T.listed place.old.me place.new.me }
{
    for _ in rt.forever() {
        if board.compare_exchange::<Take>(place, TURN, 0, 1) == 0 {
            break;
        }
        thread::yield_now();
    }
}

/// Reads how many entries the value has, and takes it out of the slot.
pub fn take_out<T: Counted>(board: &Board<T>, place: &mut Place<T>) -> (T, u64)
    requires table { IsAt board.now.table_id place.old.table_id }
    requires turn { HasSlot T.listed place.old.me }
    ensures table { place.new.table_id ≡ place.old.table_id }
    ensures value { place.old.me.1 ≡ (0, Some result.0) ∷ [] }
    ensures count { result.1 ≡ length (T.listed result.0) }
    ensures place { place.new.me ≡ sits true result.0 result.1 }
{
    let count = board.load::<Count>(place, COUNT);
    match board.exchange(place, SLOT, None) {
        Some(value) => (value, count),
        None => unreachable!(),
    }
}

/// Raises the counted word, puts the value into the slot, and frees the turn.
pub fn put_back<T: Counted>(board: &Board<T>, place: &mut Place<T>, value: T, entries: u64)
    requires table { IsAt board.now.table_id place.old.table_id }
    requires can { CanPut T.began T.listed value entries place.old.me }
    ensures table { place.new.table_id ≡ place.old.table_id }
    ensures place { place.new.me ≡ sits false value entries }
{
    board.store::<Raise>(place, COUNT, entries);
    let emptied = board.exchange(place, SLOT, Some(value));
    let None = emptied else { unreachable!() };
    board.swap::<Free>(place, TURN, 0);
}
