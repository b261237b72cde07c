// A value as clauses see it, in a form that may go to any thread: std's `Snapshot` does not say that of
// itself to the crates above it.
ghost use Rattle.std.specs.Prelude.{◌≡◌};
ghost use Rattle.std.specs.Borrow.{ftrue};

use std::marker::{Model, PhantomData};

/// What a seat has seen. It has no bytes and owns nothing; only a clause ties `value`.
#[derive(Drop)]
pub struct LastSeen<T> {
    marker: PhantomData<T>,
    pub ghost value: { T },
}

impl<T> Model for LastSeen<T> {
    ghost also_owns = { λ _. ftrue };
}

impl<T> LastSeen<T> {
    pub fn of(seen: &T) -> LastSeen<T>
        ensures { result.value ≡ seen.now }
    {
        let _ = seen;
        LastSeen {
            marker: PhantomData,
        }
    }
}

// It owns nothing.
unsafe impl<T> Send for LastSeen<T> {}
