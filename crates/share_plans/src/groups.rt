// The groups that a collection has to visit.
ghost use Rattle.std.specs.Prelude.{◌≡◌, ◌≢◌, ◌<◌, ◌↔◌, ◌∷◌, [], IsTrue, length};
ghost use Rattle.share_plans.specs.Spents.{current};

use std::marker::Model;

/// The most groups of a volume.
const MOST: usize = 64;

/// Groups, in the order in which they are visited. It takes no memory.
#[derive(Drop)]
pub struct Groups {
    last_first: [u8; 64],
    count: usize,
}

impl Model for Groups {
    ghost use Rattle.std.specs.Prelude.{◌≡◌, ◌≤◌, List, length, reverse, take, ℕ};

    ghost Value = { List ℕ };

    ghost view = { λ g. reverse (take g.count g.last_first) };

    ghost invariant = { λ g. (g.count ≤ 64) × (length g.last_first ≡ 64) };
}

impl Groups {
    /// No group.
    pub fn new() -> Groups
        ensures { result ≡ [] }
    {
        Groups {
            last_first: [0; MOST],
            count: 0,
        }
    }

    /// Whether there is none.
    pub fn is_empty(&self) -> bool
        ensures { IsTrue result ↔ (self.now ≡ []) }
    {
        self.count == 0
    }

    /// Puts a group before the others.
    pub fn put_first(&mut self, group: u8)
        requires { length self.old < 64 }
        ensures { self.new ≡ group ∷ self.old }
    {
        self.last_first[self.count] = group;
        self.count += 1;
    }

    /// The first one.
    pub fn first(&self) -> u8
        requires { self.now ≢ [] }
        ensures { result ≡ current self.now }
    {
        self.last_first[self.count - 1]
    }

    /// Takes the first one out.
    pub fn take_first(&mut self) -> u8
        requires { self.old ≢ [] }
        ensures { self.old ≡ result ∷ self.new }
    {
        self.count -= 1;
        self.last_first[self.count]
    }
}
