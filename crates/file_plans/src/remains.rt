// Pointers at or past a file's end that are no holes.
ghost use Rattle.std.specs.Prelude.{◌≡◌, ◌≤◌, ◌<◌, ◌++◌, ◌∷◌, [], Some, length, slice_get};
ghost use Rattle.file_plans.specs.Commits.{lower_of, lowest_from, named_in};

use std::marker::Model;
use vol_base::DataNo;

/// A pointer that names a data block: its index in the file, and the block's number.
#[derive(Clone, Copy, Debug, PartialEq, Eq)]
pub struct Remain {
    pub index: u32,
    pub number: DataNo,
}

/// One to four remains of a file, in ascending order.
#[derive(Drop)]
pub struct Remains {
    found: [Remain; 4],
    count: u32,
}

impl Model for Remains {
    ghost use Rattle.std.specs.Prelude.{◌≡◌, ◌≤◌, List, length, take};
    ghost use Rattle.file_plans.specs.declared.remains.Remain.{Remain};

    ghost Value = { List Remain };

    ghost view = { λ r. take r.count r.found };

    ghost invariant = { λ r. (1 ≤ r.count) × (r.count ≤ 4) × (length r.found ≡ 4) };
}

impl Remains {
    pub fn new(first: Remain) -> Remains
        ensures { result ≡ first ∷ [] }
    {
        Remains {
            found: [first; 4],
            count: 1,
        }
    }

    /// Adds one; there are less than four.
    pub fn push(&mut self, next: Remain)
        requires { length self.old < 4 }
        ensures { self.new ≡ self.old ++ next ∷ [] }
    {
        self.found[self.count as usize] = next;
        self.count += 1;
    }

    pub fn count(&self) -> u32
        ensures count { result ≡ length self.now }
        ensures some { 1 ≤ result }
        ensures few { result ≤ 4 }
    {
        self.count
    }

    pub fn get(&self, k: u32) -> Remain
        requires { k < length self.now }
        ensures { slice_get self.now k ≡ Some result }
    {
        self.found[k as usize]
    }

    /// How many of them name the data block.
    pub fn named(&self, number: DataNo) -> u32
        ensures { result ≡ named_in self.now number }
    {
        let mut count = 0;
        for k in (0..self.count()).rev() {
            if self.get(k).number == number {
                count += 1;
            }
        }
        count
    }

    /// The lowest data block, from a bound upwards, that one of them names.
    pub fn lowest(&self, from: DataNo) -> Option<DataNo>
        ensures { result ≡ lowest_from from self.now }
    {
        let mut lowest = None;
        for k in (0..self.count()).rev() {
            lowest = lower(from, self.get(k).number, lowest);
        }
        lowest
    }
}

// The lower one of a number, where it is not below a bound, and another one.
fn lower(from: DataNo, number: DataNo, other: Option<DataNo>) -> Option<DataNo>
    ensures { result ≡ lower_of from number other }
{
    match other {
        None => { if from <= number { Some(number) } else { None } }
        Some(lowest) => {
            if from <= number && number < lowest {
                Some(number)
            } else {
                Some(lowest)
            }
        }
    }
}
