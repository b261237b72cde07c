// What a merge has read and counted.
ghost use Rattle.std.specs.Prelude.{◌≡◌, IfOk};
ghost use Rattle.merge_plan.specs.Rooms.{IsCleared};
ghost use Rattle.merge_shelves.specs.Tallies.{total};
ghost use Rattle.vol_layout.specs.Ranges.{IsGeometry};

use crate::blocks::ShelfBlocks;
use merge_shelves::{LogRoom, none};
use merge_steps::Sweep;
use sorted_shard::Shelf;
use std::alloc::{AllocError, Global};
use vol_layout::Geometry;

/// What a merge has read and counted: it lies beside the plan, so that no step of any plan moves it. Its room is taken when it is made.
#[derive(Drop)]
pub struct MergeRoom {
    /// The entries of the host's own log blocks; sorted, once all are read.
    pub logs: LogRoom,
    /// Which of the own log blocks had entries.
    pub filled: [bool; 16],
    /// The blocks of the shelf under way as they were read.
    pub read: ShelfBlocks,
    /// The entry that comes next, the nine counts, and the shelf as it stands.
    pub sweep: Sweep,
}

impl MergeRoom {
    /// A room in which nothing was read.
    pub fn new(alloc: Global, geometry: &Geometry) -> Result<MergeRoom, AllocError>
        requires { IsGeometry geometry.now }
        ensures { IfOk result (IsCleared geometry.now) }
    {
        Ok(MergeRoom {
            logs: LogRoom::new(alloc)?,
            filled: [false; 16],
            read: ShelfBlocks::new(alloc)?,
            sweep: begun(geometry),
        })
    }

    /// Forgets what an earlier merge read.
    pub fn clear(&mut self, geometry: &Geometry)
        requires { IsGeometry geometry.now }
        ensures { IsCleared geometry.now self.new }
    {
        self.logs.clear();
        self.filled = [false; 16];
        self.read.clear();
        self.sweep = begun(geometry);
    }
}

// No entry is handled.
fn begun(geometry: &Geometry) -> Sweep
    requires { IsGeometry geometry.now }
    ensures at { result.at ≡ 0 }
    ensures counts { total result.counts ≡ 0 }
    ensures shelf { result.shelf.geometry ≡ geometry.now }
{
    Sweep {
        at: 0,
        counts: none(),
        shelf: Shelf::empty(1, geometry),
    }
}
