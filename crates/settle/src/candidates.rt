// The representatives of the blocks that were met, by their digests.
ghost use Rattle.std.specs.Prelude.{◌≡◌, ◌+◌, ◌*◌, ◌≤◌, ℕ, None, OnErr, OnOk};
ghost use Rattle.indexmap.specs.IndexMap.{IsUnchanged, IsUnique, index_map_len};
ghost use Rattle.settle.specs.Added.{Adds};
ghost use Rattle.settle.specs.Gathered.{same_candidate, spot_at};
ghost use Rattle.vol_base.specs.declared.block.Digest.{Digest as Bytes};

use indexmap::IndexMap;
use std::alloc::Global;
use vol_base::{Digest, FileNo, NoMemory};

/// A place of a file: its number, and an index in blocks.
#[derive(Clone, Copy, Debug, PartialEq, Eq)]
pub struct Spot {
    pub file: FileNo,
    pub index: u32,
}

/// The name of a representative: its digest, and its number among those of the digest, from 0.
#[derive(Clone, Copy, Debug, PartialEq, Eq, Hash)]
pub struct Candidate {
    pub digest: Digest,
    pub number: u32,
}

/// One place for each block that was met. Different blocks of one digest are numbered.
#[derive(Drop)]
pub struct Candidates {
    pub spots: IndexMap<Candidate, Spot>,
}

impl Candidates {
    /// No representative yet. It takes no memory.
    pub fn none(alloc: Global) -> Candidates
        ensures none { (x : Bytes) (n : ℕ) → spot_at result.spots x n ≡ None }
        ensures len { index_map_len result.spots ≡ 0 }
    {
        Candidates {
            spots: IndexMap::new(alloc),
        }
    }

    /// How many there are.
    pub fn len(&self) -> u32
        requires { index_map_len self.now.spots ≤ 16128 * 64 }
        ensures len { result ≡ index_map_len self.now.spots }
        ensures unique { IsUnique same_candidate self.now.spots }
    {
        self.spots.len() as u32
    }

    /// The place of a representative of this digest.
    pub fn find(&self, digest: Digest, number: u32) -> Option<Spot>
        ensures { result ≡ spot_at self.now.spots digest number }
    {
        self.spots.get(&Candidate { digest, number }).copied()
    }

    /// Adds a place whose block was not met. Where no memory is left, it is not added.
    pub fn add(&mut self, digest: Digest, number: u32, spot: Spot) -> Result<(), NoMemory>
        requires free { spot_at self.old.spots digest number ≡ None }
        ensures added { OnOk result (Adds (spot_at self.old.spots) (spot_at self.new.spots) digest number spot) }
        ensures same { OnErr result (IsUnchanged self.old.spots self.new.spots) }
        ensures len { index_map_len self.new.spots ≤ index_map_len self.old.spots + 1 }
    {
        match self.spots.insert(Candidate { digest, number }, spot) {
            Ok(_) => Ok(()),
            Err(_) => Err(NoMemory),
        }
    }
}
