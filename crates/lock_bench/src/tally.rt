// The value that the threads hand on.
ghost use Rattle.std.specs.Prelude.{◌≡◌, []};
ghost use Rattle.vol_base.specs.Grows.{BeginsWith};

use vol_base::{Begun, Counted};

/// A value that counts how often it was held.
pub trait Held: Counted {
    fn count(&mut self)
        ensures began { Self.began self.new ≡ Self.began self.old }
        ensures entries { BeginsWith (Self.listed self.old) (Self.listed self.new) };
}

/// How often the value was held.
#[derive(Drop)]
pub struct Tally {
    pub holds: u64,
}

impl Begun for Tally {
    type Origin = ();

    ghost began = { λ _. tt };
}

impl Counted for Tally {
    type Entry = ();

    ghost listed = { λ _. [] };

    fn entries(&self) -> u64 {
        0
    }
}

impl Held for Tally {
    fn count(&mut self) {
        self.holds = self.holds.wrapping_add(1);
    }
}
