// The second stage: each block is a spelling in range of its kind.
ghost use Rattle.std.specs.Prelude.{◌≡◌, ◌+◌, ◌<◌, ◌≤◌, ℕ, OnOk};
ghost use Rattle.vol_layout.specs.Places.{place_of};
ghost use Rattle.vol_layout.specs.Ranges.{HasKind};
ghost use Rattle.volume_faults.specs.Sites.{IsChecked};
ghost use Rattle.volume_check.specs.Blocks.{IsBlockAt, IsBlockIn};
ghost use Rattle.volume_check.specs.Metadatas.{AddsOf, AddsStage, IsInRuns};

use crate::metadata::{Metadata, front_end, further_start};
use vol_base::NoMemory;
use vol_layout::Kind;
use volume_faults::{Fault, FaultKind, is_of_kind};

/// Adds the faults of the blocks that are no spelling in range, in the order of their places.
pub fn add_misspelled(metadata: &Metadata, faults: &mut Vec<Fault>) -> Result<(), NoMemory>
    ensures { OnOk result (AddsStage 2 metadata.now faults.old.items faults.new.items) }
{
    let geometry = metadata.geometry();
    add_in_run(metadata, 1, front_end(&geometry), faults)?;
    add_in_run(metadata, further_start(&geometry), geometry.total(), faults)
}

// Adds the faults of the blocks from a place on to before another.
fn add_in_run(
    metadata: &Metadata,
    from: u64,
    to: u64,
    faults: &mut Vec<Fault>,
) -> Result<(), NoMemory>
    requires order { from ≤ to }
    requires read { (p : ℕ) → from ≤ p → p < to → IsInRuns metadata.now.geometry p }
    ensures { OnOk result (AddsOf (IsBlockIn metadata.now.geometry from to) metadata.now faults.old.items faults.new.items) }
{
    for place in from..to {
        add_at(metadata, place, faults)?;
    }
    Ok(())
}

// Adds the fault of the block at a place, if it has one.
fn add_at(metadata: &Metadata, place: u64, faults: &mut Vec<Fault>) -> Result<(), NoMemory>
    requires { IsInRuns metadata.now.geometry place }
    ensures { OnOk result (AddsOf (IsBlockAt metadata.now.geometry place) metadata.now faults.old.items faults.new.items) }
{
    let geometry = metadata.geometry();
    match geometry.kind(place) {
        None => unreachable!(),
        Some(kind) => add_of(metadata, place, kind, faults),
    }
}

// Adds the fault of the block of a kind, if it has one.
fn add_of(
    metadata: &Metadata,
    place: u64,
    kind: Kind,
    faults: &mut Vec<Fault>,
) -> Result<(), NoMemory>
    requires kind { HasKind metadata.now.geometry kind }
    requires checked { IsChecked kind }
    requires place { place_of metadata.now.geometry kind ≡ place }
    ensures { OnOk result (AddsOf (IsBlockAt metadata.now.geometry place) metadata.now faults.old.items faults.new.items) }
{
    let geometry = metadata.geometry();
    let block = metadata.block(kind);
    if is_of_kind(&geometry, metadata.counter(), kind, block) {
        return Ok(());
    }
    faults.reserve(1)?;
    faults.push_reserved(Fault {
        place,
        kind: FaultKind::Spelling,
    });
    Ok(())
}
