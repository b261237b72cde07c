// A value as clauses see it, in a form that may go to any thread: std's `Snapshot` does not say that of itself to the crates above it.
ghost use Rattle.std.specs.Prelude.{◌≡◌};
ghost use Rattle.std.specs.Borrow.{ftrue};

use std::marker::{Model, PhantomData};

/// A device as it was at the end of `Cluster::start`. It has no bytes and owns nothing; only a clause ties `value`.
#[derive(Drop)]
pub struct StartSeen<D> {
    marker: PhantomData<D>,
    pub ghost value: { D },
}

impl<D> Model for StartSeen<D> {
    ghost also_owns = { λ _. ftrue };
}

impl<D> StartSeen<D> {
    pub fn of(seen: &D) -> StartSeen<D>
        ensures { result.value ≡ seen.now }
    {
        let _ = seen;
        StartSeen {
            marker: PhantomData,
        }
    }
}

// It owns nothing.
unsafe impl<D> Send for StartSeen<D> {}
