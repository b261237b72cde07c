// What a seat knows at the table under the lock, and the rule that all seats keep.
use atomic_table::{Seat, Shared, TableRule};
use std::collections::LinkedList;
use std::snapshot::Snapshot;
use vol_base::Counted;

/// Whether a seat has the turn. No value of it is made.
pub enum Turn<T> {
    Waits,
    /// The value that the seat took, and the number in the counted word.
    Has(T, u64),
}

/// What a seat knows: its parts of the right to close the lock, and the values that it has seen.
/// No value of it is made.
pub struct Knows<T> {
    pub parts: u64,
    pub seen: LinkedList<T>,
    pub turn: Turn<T>,
}

/// What the lock was opened with.
#[derive(Drop)]
pub struct Opening<T> {
    pub first: Snapshot<T>,
    pub seats: u64,
}

pub struct Law;

impl<T: Counted> TableRule<Option<T>, Knows<T>, Opening<T>> for Law {
    ghost use Rattle.turn_lock.specs.Rule.{Kept, starting};

    ghost holds = { λ key. Kept T.began T.listed key.first.value key.seats };

    ghost first = { λ key. starting key.seats key.first.value };
}

/// What threads share of the table.
pub type Board<T> = Shared<Option<T>, Knows<T>, Opening<T>, Law>;

/// A seat at the table.
pub type Place<T> = Seat<Option<T>, Knows<T>>;
