// A transaction of one edit, and a search, from their first call to their last.
ghost use Rattle.std.specs.Prelude.{◌≡◌, ◌<◌, [], IfOk, None, OnOk, true};
ghost use Rattle.host_facts.specs.Facts.Fact.{RecordIs};
ghost use Rattle.host_facts.specs.Knows.{Knows};
ghost use Rattle.lock_store.specs.Memories.{holds};
ghost use Rattle.lock_store.specs.Views.{host_at, told_of};
ghost use Rattle.plan_parts.specs.Applies.{IsApplying};
ghost use Rattle.plan_parts.specs.KeptTables.{IsKept};
ghost use Rattle.plan_parts.specs.TakenLocks.{IsTaking};
ghost use Rattle.vol_layout.specs.declared.kind.Resource.{Resource};
ghost use Rattle.vol_layout.specs.declared.kind.Table.{Table};

use journal_block::Record;
use lock_store::StepNo;
use meta_world::MetaWorld;
use plan_parts::{Applied, Applying, Kept, Kepts, Search, Searching, Taken, commit, fetch};
use shared_disk::Device;
use vol_base::{DataNo, FileNo, HostNo, Key};
use vol_layout::{Edit, Field, Resource, Table};

/// What a search came to, or that more steps were left.
#[derive(Clone, Copy, Debug, PartialEq, Eq)]
pub enum Sought {
    Found(DataNo),
    Busy(Key),
    Full,
    Unended,
}

/// Searches for a free data block. The locks that it takes stay.
#[tactic(auto, using(crate::proofs::WorldLaws::still, crate::proofs::WorldLaws::begins))]
pub fn search<D: Device>(world: &mut MetaWorld<D>, host: HostNo) -> Result<Sought, StepNo>
    requires host { host < world.old.locks.geometry.hosts }
    requires joined { (host_at world.old.locks host).joined ≡ true }
    requires taking { IsTaking world.old host [] }
    requires untold { told_of world.old.locks ≡ None }
    ensures { told_of world.new.locks ≡ None }
{
    let _geometry = world.locks().geometry();
    let mut taken = Taken::new();
    let mut at = Search::Lock(0);
    for _step in 0..4 {
        match at.next(world, host, &mut taken) {
            Ok(Searching::More(later) | Searching::Next(later, _)) => at = later,
            Ok(Searching::Found(number, _)) => return Ok(Sought::Found(number)),
            Ok(Searching::Busy(key)) => return Ok(Sought::Busy(key)),
            Ok(Searching::Full) => return Ok(Sought::Full),
            Err(why) => return Err(why),
        }
    }
    Ok(Sought::Unended)
}

/// What a transaction came to: its group is locked by another key, its record stands, or so many tables were written and so many
/// locks freed.
#[derive(Clone, Copy, Debug, PartialEq, Eq)]
pub enum Created {
    Busy(Key),
    Begun,
    Made { tables: u8, locks: u8 },
}

/// Makes a file of no blocks, of which the host has the write hold, under the lock of a group; or ends behind the record of it.
#[tactic(auto, using(crate::proofs::WorldLaws::still, crate::proofs::WorldLaws::gained, plan_parts::specs::laws::TakenLaws::taking_same))]
pub fn create<D: Device>(
    world: &mut MetaWorld<D>,
    host: HostNo,
    file: FileNo,
    group: u8,
    whole: bool,
) -> Result<Created, StepNo>
    requires host { host < world.old.locks.geometry.hosts }
    requires file { file < world.old.locks.geometry.files }
    requires group { group < world.old.locks.geometry.groups }
    requires joined { (host_at world.old.locks host).joined ≡ true }
    requires held { holds (host_at world.old.locks host) (Resource.File file) ≡ true }
    requires taking { IsTaking world.old host [] }
    requires untold { told_of world.old.locks ≡ None }
    ensures { told_of world.new.locks ≡ None }
{
    let mut taken = Taken::new();
    match taken.take(world, host, Resource::Group(group)) {
        Ok(None) => {}
        Ok(Some(key)) => return Ok(Created::Busy(key)),
        Err(why) => return Err(why),
    }
    match read(world, host, file, group) {
        Ok(kept) => match put(world, host, file, kept, whole) {
            Ok(_) if !whole => Ok(Created::Begun),
            Ok(tables) => match free_all(world, host, taken) {
                Ok(locks) => Ok(Created::Made { tables, locks }),
                Err(why) => Err(why),
            },
            Err(why) => Err(why),
        },
        Err(why) => Err(why),
    }
}

// Reads the group's table and the file's.
#[tactic(auto, using(crate::proofs::WorldLaws::still))]
fn read<D: Device>(
    world: &mut MetaWorld<D>,
    host: HostNo,
    file: FileNo,
    group: u8,
) -> Result<Kept, StepNo>
    requires host { host < world.old.locks.geometry.hosts }
    requires file { file < world.old.locks.geometry.files }
    requires group { group < world.old.locks.geometry.groups }
    requires held { holds (host_at world.old.locks host) (Resource.File file) ≡ true }
    requires locked { holds (host_at world.old.locks host) (Resource.Group group) ≡ true }
    requires untold { told_of world.old.locks ≡ None }
    ensures untold { told_of world.new.locks ≡ None }
    ensures memory { OnOk result (host_at world.new.locks host ≡ host_at world.old.locks host) }
    ensures geometry { OnOk result (world.new.locks.geometry ≡ world.old.locks.geometry) }
    ensures kept { IfOk result (IsKept world.new host) }
    ensures which { IfOk result (λ kept. kept.which ≡ Table.File file) }
{
    match fetch(world, host, Table::Group(group)) {
        Ok(_) => fetch(world, host, Table::File(file)),
        Err(why) => Err(why),
    }
}

// Commits the record that makes the file, and applies it if it is to be made whole.
#[tactic(auto, using(crate::proofs::WorldLaws::still, crate::proofs::WorldLaws::none_stands, crate::proofs::UntoldLaws::sure))]
fn put<D: Device>(
    world: &mut MetaWorld<D>,
    host: HostNo,
    file: FileNo,
    kept: Kept,
    whole: bool,
) -> Result<u8, StepNo>
    requires host { host < world.old.locks.geometry.hosts }
    requires file { file < world.old.locks.geometry.files }
    requires joined { (host_at world.old.locks host).joined ≡ true }
    requires kept { IsKept world.old host kept }
    requires which { kept.which ≡ Table.File file }
    requires untold { told_of world.old.locks ≡ None }
    ensures untold { told_of world.new.locks ≡ None }
    ensures memory { OnOk result (host_at world.new.locks host ≡ host_at world.old.locks host) }
    ensures geometry { OnOk result (world.new.locks.geometry ≡ world.old.locks.geometry) }
{
    let _geometry = world.locks().geometry();
    let key = world.locks().key_of(host).unwrap();
    let edit = Edit {
        field: Field::Head(file),
        number: 1,
    };
    let entry = Record::new(key, edit);
    let left = Kepts::new(Some(kept), None, None, None);
    match commit(world, host, &entry, &left) {
        Ok(()) if !whole => Ok(0),
        Ok(()) => apply(world, host, Applying { entry, left }),
        Err(why) => Err(why),
    }
}

// Applies a record: the number of tables that were written.
#[tactic(auto, using(crate::proofs::WorldLaws::still))]
fn apply<D: Device>(
    world: &mut MetaWorld<D>,
    host: HostNo,
    mut applying: Applying,
) -> Result<u8, StepNo>
    requires host { host < world.old.locks.geometry.hosts }
    requires stands { IsApplying world.old host applying.entry.edits applying.left }
    requires untold { told_of world.old.locks ≡ None }
    ensures untold { told_of world.new.locks ≡ None }
    ensures memory { OnOk result (host_at world.new.locks host ≡ host_at world.old.locks host) }
    ensures geometry { OnOk result (world.new.locks.geometry ≡ world.old.locks.geometry) }
{
    for step in 0..5 {
        match applying.next(world, host) {
            Ok(Applied::Wrote(_)) => {}
            Ok(Applied::Finished) => return Ok(step),
            Err(why) => return Err(why),
        }
    }
    Ok(5)
}

// Frees all locks that were taken: how many they were.
#[tactic(auto, using(crate::proofs::WorldLaws::still))]
fn free_all<D: Device>(
    world: &mut MetaWorld<D>,
    host: HostNo,
    mut taken: Taken,
) -> Result<u8, StepNo>
    requires host { host < world.old.locks.geometry.hosts }
    requires empty { Knows world.old host (RecordIs []) }
    requires taking { IsTaking world.old host taken }
    requires untold { told_of world.old.locks ≡ None }
    ensures { told_of world.new.locks ≡ None }
{
    for step in 0..3 {
        match taken.free_last(world, host) {
            Ok(true) => {}
            Ok(false) => return Ok(step),
            Err(why) => return Err(why),
        }
    }
    Ok(3)
}
