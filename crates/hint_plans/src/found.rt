// The blocks of a file that a scan found.
ghost use Rattle.std.specs.Prelude.{◌≡◌, ◌≤◌, ◌<◌, ◌++◌, ◌∷◌, [], Some, length, slice_get};

use std::marker::Model;
use vol_base::DataNo;

/// A block of a file that is no hole: its index in the file, and the number of its data block.
#[derive(Clone, Copy, Debug, PartialEq, Eq)]
pub struct Mapped {
    pub index: u32,
    pub number: DataNo,
}

/// Blocks of a file, ascending; at most 126. It takes no memory.
#[derive(Drop)]
pub struct Found {
    blocks: [Mapped; 126],
    count: u32,
}

impl Model for Found {
    ghost use Rattle.std.specs.Prelude.{◌≡◌, ◌≤◌, List, length, take};
    ghost use Rattle.hint_plans.specs.declared.found.Mapped.{Mapped};

    ghost Value = { List Mapped };

    ghost view = { λ f. take f.count f.blocks };

    ghost invariant = { λ f. (f.count ≤ 126) × (length f.blocks ≡ 126) };
}

impl Found {
    /// No block.
    pub fn new() -> Found
        ensures { result ≡ [] }
    {
        let none = Mapped {
            index: 0,
            number: 0,
        };
        Found {
            blocks: [none; 126],
            count: 0,
        }
    }

    /// Adds one; there are less than 126.
    pub fn push(&mut self, next: Mapped)
        requires { length self.old < 126 }
        ensures { self.new ≡ self.old ++ next ∷ [] }
    {
        self.blocks[self.count as usize] = next;
        self.count += 1;
    }

    /// How many they are.
    pub fn count(&self) -> u32
        ensures count { result ≡ length self.now }
        ensures few { result ≤ 126 }
    {
        self.count
    }

    /// Block `k` of them.
    pub fn get(&self, k: u32) -> Mapped
        requires { k < length self.now }
        ensures { slice_get self.now k ≡ Some result }
    {
        self.blocks[k as usize]
    }
}
