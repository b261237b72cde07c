// The two runs of blocks that a check reads: the slots, journals, locks and tables at the volume's head,
// and the further tables behind the data.
ghost use Rattle.std.specs.Prelude.{◌≡◌, ◌+◌, ◌-◌, ◌<◌, ◌≤◌, [], Contains, IfErr, IfOk, IfSome, OnErr, drop, length, map, slice_index_or, take};
ghost use Rattle.shared_disk.specs.State.{Stands};
ghost use Rattle.vol_base.specs.Faults.{Rose};
ghost use Rattle.vol_layout.specs.Ranges.{IsGeometry};
ghost use Rattle.vol_layout.specs.Regions.{total};
ghost use Rattle.vol_layout.specs.Places.{front_end, further_start, further_tables};
ghost use Rattle.volume_check.specs.Metadatas.{AreRuns, IsInRuns, image_of_runs};
ghost use Rattle.volume_check.specs.declared.metadata.ReadNo.TheVariants as reads;

use crate::metadata::ReadNo;
use shared_disk::Device;
use std::alloc::Global;
use vol_base::{Block, Key};
use vol_layout::{Geometry, Kind};

/// The first place behind the slots, journals, locks and tables at the volume's head.
pub fn front_end(geometry: &Geometry) -> u64
    requires { IsGeometry geometry.now }
    ensures place { result ≡ front_end geometry.now }
    ensures some { 1 ≤ result }
    ensures further { result ≤ further_start geometry.now }
{
    geometry.place(Kind::Log(0, 0))
}

/// The place of the first further table, behind the data.
pub fn further_start(geometry: &Geometry) -> u64
    requires { IsGeometry geometry.now }
    ensures place { result ≡ further_start geometry.now }
    ensures long { result + further_tables geometry.now ≡ total geometry.now }
{
    geometry.total() - u64::from(geometry.files) * u64::from(geometry.tables - 1)
}

/// The block at a place that was read: one of the first run, which begins at place 1, or of the second,
/// which ends with the volume.
pub fn block_in<'a>(
    geometry: &Geometry,
    front: &'a [Block],
    further: &'a [Block],
    place: u64,
) -> &'a Block
    requires runs { AreRuns geometry.now front.now further.now }
    requires read { IsInRuns geometry.now place }
    ensures { result.now.0 ≡ slice_index_or (image_of_runs geometry.now front.now further.now) place [] }
{
    let place = place as usize;
    if place <= front.len() {
        return &front[place - 1];
    }
    let start = geometry.total() as usize - further.len();
    &further[place - start]
}

/// Reads the blocks from a place on to before another, one by one.
pub fn read_run<D: Device>(
    alloc: Global,
    disk: &mut D,
    key: Key,
    from: u64,
    to: u64,
) -> Result<Vec<Block>, ReadNo>
    requires key { Contains (D.state disk.old).keys key.0 }
    requires order { from ≤ to }
    requires long { to ≤ (D.state disk.old).blocks }
    ensures blocks { IfOk result (λ blocks. IfSome (D.state disk.old).told (λ told. map (λ block. block.0) blocks.items ≡ take (to - from) (drop from told.image))) }
    ensures long { IfOk result (λ blocks. length blocks.items ≡ to - from) }
    ensures same { D.state disk.new ≡ D.state disk.old }
    ensures failed { result ≡ Err reads.Failed → Rose (D.faults disk.old) (D.faults disk.new) }
    ensures later { D.faults disk.old ≤ D.faults disk.new }
    ensures room { D.room disk.old ≤ D.room disk.new }
{
    let mut blocks = Vec::with_capacity(alloc, (to - from) as usize)?;
    for place in from..to {
        let block = read_block(disk, key, place)?;
        blocks.push_reserved(block);
    }
    Ok(blocks)
}

// Reads a block under a registered key, which leaves the device no other answer than that it failed.
fn read_block<D: Device>(disk: &mut D, key: Key, place: u64) -> Result<Block, ReadNo>
    requires key { Contains (D.state disk.old).keys key.0 }
    requires place { place < (D.state disk.old).blocks }
    ensures block { IfOk result (λ block. Stands (D.state disk.old) place block.0) }
    ensures same { D.state disk.new ≡ D.state disk.old }
    ensures failed { OnErr result (Rose (D.faults disk.old) (D.faults disk.new)) }
    ensures cause { IfErr result (λ cause. cause ≡ reads.Failed) }
    ensures later { D.faults disk.old ≤ D.faults disk.new }
    ensures room { D.room disk.old ≤ D.room disk.new }
{
    match disk.read(key, place) {
        Ok(block) => Ok(block),
        Err(_) => Err(ReadNo::Failed),
    }
}
