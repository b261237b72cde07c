// The stages, one after the other.
ghost use Rattle.std.specs.Prelude.{◌≡◌, ◌≢◌, [], IfOk};
ghost use Rattle.volume_faults.specs.Faults.{AreTableFaults};
ghost use Rattle.volume_check.specs.Metadatas.{AddsStage, Passes};

use crate::counting::add_miscounted;
use crate::holds::add_unheld;
use crate::metadata::Metadata;
use crate::spelling::add_misspelled;
use std::alloc::Global;
use vol_base::NoMemory;
use volume_faults::Fault;

/// All faults of the first stage that has any.
pub fn table_faults(alloc: Global, metadata: &Metadata) -> Result<Vec<Fault>, NoMemory>
    ensures { IfOk result (λ faults. AreTableFaults metadata.now.geometry metadata.now.counter metadata.now.image faults.items) }
{
    let faults = misspelled(alloc, metadata)?;
    if !faults.is_empty() {
        return Ok(faults);
    }
    let faults = unheld(alloc, metadata)?;
    if !faults.is_empty() {
        return Ok(faults);
    }
    miscounted(alloc, metadata)
}

/// The faults of blocks that are no spelling in range.
pub fn misspelled(alloc: Global, metadata: &Metadata) -> Result<Vec<Fault>, NoMemory>
    ensures { IfOk result (λ faults. AddsStage 2 metadata.now [] faults.items) }
{
    let mut faults = Vec::new(alloc);
    add_misspelled(metadata, &mut faults)?;
    Ok(faults)
}

fn unheld(alloc: Global, metadata: &Metadata) -> Result<Vec<Fault>, NoMemory>
    requires { Passes 2 metadata.now }
    ensures { IfOk result (λ faults. AddsStage 3 metadata.now [] faults.items) }
{
    let mut faults = Vec::new(alloc);
    add_unheld(metadata, &mut faults)?;
    Ok(faults)
}

fn miscounted(alloc: Global, metadata: &Metadata) -> Result<Vec<Fault>, NoMemory>
    requires { Passes 2 metadata.now }
    ensures { IfOk result (λ faults. AddsStage 4 metadata.now [] faults.items) }
{
    let mut faults = Vec::new(alloc);
    add_miscounted(alloc, metadata, &mut faults)?;
    Ok(faults)
}
