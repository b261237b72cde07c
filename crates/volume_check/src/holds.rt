// The third stage: locks, slots and records agree.
ghost use Rattle.std.specs.Prelude.{◌≡◌, ◌<◌, ◌↔◌, IsTrue, OnOk};
ghost use Rattle.vol_layout.specs.Ranges.{HasKind, HasResource};
ghost use Rattle.image_view.specs.Held.{IsShown};
ghost use Rattle.volume_check.specs.Metadatas.{AddsStage, Passes};
ghost use Rattle.volume_check.specs.SitesAt.{AddsAt};

use crate::adding::add_where;
use crate::keys::{HELD, slot_key};
use crate::metadata::Metadata;
use crate::records::add_of_journal;
use vol_base::{Key, NoMemory};
use vol_layout::{Kind, Resource};
use volume_faults::{Fault, FaultKind};

/// Adds the faults of records that the slots and locks do not bear out, and of locks that no slot does,
/// in the order of their places.
pub fn add_unheld(metadata: &Metadata, faults: &mut Vec<Fault>) -> Result<(), NoMemory>
    requires { Passes 2 metadata.now }
    ensures { OnOk result (AddsStage 3 metadata.now faults.old.items faults.new.items) }
{
    let geometry = metadata.geometry();
    for place in 0..geometry.total() {
        let kind = geometry.kind(place).unwrap();
        add_at(metadata, kind, faults)?;
    }
    Ok(())
}

// Adds the faults at a block of this kind.
fn add_at(metadata: &Metadata, kind: Kind, faults: &mut Vec<Fault>) -> Result<(), NoMemory>
    requires passed { Passes 2 metadata.now }
    requires kind { HasKind metadata.now.geometry kind }
    ensures { OnOk result (AddsAt 3 metadata.now kind faults.old.items faults.new.items) }
{
    match kind {
        Kind::Journal(host) => add_of_journal(metadata, host, faults),
        Kind::Lock(resource) => add_of_lock(metadata, resource, faults),
        _ => Ok(()),
    }
}

// Adds the fault of a lock that is held under a key that no slot shows.
fn add_of_lock(
    metadata: &Metadata,
    resource: Resource,
    faults: &mut Vec<Fault>,
) -> Result<(), NoMemory>
    requires { HasResource metadata.now.geometry resource }
    ensures { OnOk result (AddsAt 3 metadata.now (Kind.Lock resource) faults.old.items faults.new.items) }
{
    let lock = metadata.block(Kind::Lock(resource));
    if lock.u32_at(8) != HELD {
        return Ok(());
    }
    let key = lock.u64_at(16);
    let shown = is_shown(metadata, key);
    let place = metadata.geometry().place(Kind::Lock(resource));
    let kind = FaultKind::LockKey(Key(key));
    add_where(!shown, Fault { place, kind }, faults)
}

// Whether the slot of the key's host shows the key.
fn is_shown(metadata: &Metadata, key: u64) -> bool
    ensures { IsTrue result ↔ IsShown metadata.now.geometry metadata.now.image key }
{
    let host = (key % 16) as u8;
    if key == 0 || host >= metadata.geometry().hosts {
        return false;
    }
    slot_key(metadata, host) == key
}
