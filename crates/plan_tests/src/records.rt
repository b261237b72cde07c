// A record of four edits in two tables, which its host leaves standing.
ghost use Rattle.std.specs.Prelude.{◌≡◌, ◌<◌, All, [], None, true};
ghost use Rattle.lock_store.specs.Memories.{holds};
ghost use Rattle.lock_store.specs.Views.{host_at, told_of};
ghost use Rattle.plan_parts.specs.TakenLocks.{IsTaking};
ghost use Rattle.vol_layout.specs.declared.kind.Resource.{Resource};
ghost use Rattle.vol_layout.specs.Edits.{IsEdit};
ghost use Rattle.vol_layout.specs.Ranges.{IsGeometry};

use crate::transactions::Created;
use journal_block::Record;
use lock_store::StepNo;
use meta_world::MetaWorld;
use plan_parts::{Taken, fetch};
use shared_disk::Device;
use vol_base::{FileNo, HostNo, Key};
use vol_layout::{Edit, Field, Geometry, Resource, Table};

/// Takes the lock of group 0, reads its table, and writes the record by which data blocks 0 and 1 come to be blocks 0 and 1 of a file.
#[tactic(auto, using(crate::proofs::WorldLaws::still, crate::proofs::WorldLaws::gained))]
pub fn commit_two<D: Device>(
    world: &mut MetaWorld<D>,
    host: HostNo,
    file: FileNo,
) -> Result<Created, StepNo>
    requires host { host < world.old.locks.geometry.hosts }
    requires file { file < world.old.locks.geometry.files }
    requires joined { (host_at world.old.locks host).joined ≡ true }
    requires held { holds (host_at world.old.locks host) (Resource.File file) ≡ true }
    requires taking { IsTaking world.old host [] }
    requires untold { told_of world.old.locks ≡ None }
    ensures { told_of world.new.locks ≡ None }
{
    let _geometry = world.locks().geometry();
    let mut taken = Taken::new();
    match taken.take(world, host, Resource::Group(0)) {
        Ok(None) => {}
        Ok(Some(key)) => return Ok(Created::Busy(key)),
        Err(why) => return Err(why),
    }
    match fetch(world, host, Table::Group(0)) {
        Ok(_) => stand(world, host, file),
        Err(why) => Err(why),
    }
}

// Writes the record.
#[tactic(auto, using(crate::proofs::WorldLaws::still, crate::proofs::WorldLaws::none_stands, crate::proofs::UntoldLaws::sure))]
fn stand<D: Device>(world: &mut MetaWorld<D>, host: HostNo, file: FileNo) -> Result<Created, StepNo>
    requires host { host < world.old.locks.geometry.hosts }
    requires file { file < world.old.locks.geometry.files }
    requires joined { (host_at world.old.locks host).joined ≡ true }
    requires untold { told_of world.old.locks ≡ None }
    ensures { told_of world.new.locks ≡ None }
{
    let _geometry = world.locks().geometry();
    let key = world.locks().key_of(host).unwrap();
    let entry = two(world.locks().geometry(), key, file);
    match world.commit(host, &entry) {
        Ok(()) => Ok(Created::Begun),
        Err(why) => Err(why),
    }
}

// The pointers stand before the counts, and each in ascending order.
fn two(geometry: &Geometry, key: Key, file: FileNo) -> Record
    requires range { IsGeometry geometry.now }
    requires file { file < geometry.now.files }
    ensures key { result.key ≡ key.0 }
    ensures edits { All (IsEdit geometry.now) result.edits }
{
    let _geometry = geometry;
    let entry = Record::new(key, edit(Field::Pointer(file, 0), 1));
    let entry = with(entry, edit(Field::Pointer(file, 1), 2));
    let entry = with(entry, edit(Field::Count(0), 1));
    with(entry, edit(Field::Count(1), 1))
}

fn edit(field: Field, number: u32) -> Edit
    ensures { result ≡ record { field = field; number = number } }
{
    Edit { field, number }
}

// The record with one edit more.
fn with(entry: Record, edit: Edit) -> Record
    ensures key { result.key ≡ entry.key }
    ensures edits { (g : Geometry) → All (IsEdit g) entry.edits → IsEdit g edit → All (IsEdit g) result.edits }
{
    let mut entry = entry;
    let _added = entry.add(edit);
    entry
}
