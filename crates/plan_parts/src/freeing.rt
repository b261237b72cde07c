// The freeing of one lock.
ghost use Rattle.std.specs.Prelude.{◌≡◌, ◌<◌, [], IfErr, OnOk, true};
ghost use Rattle.disk_locks.specs.Calls.{Unlocks};
ghost use Rattle.disk_locks.specs.Consistent.{Consistent};
ghost use Rattle.disk_locks.specs.Freeing.{Unedited};
ghost use Rattle.disk_locks.specs.Others as locks';
ghost use Rattle.disk_locks.specs.Sure.{Sure};
ghost use Rattle.host_facts.specs.Facts.Fact.{RecordIs};
ghost use Rattle.host_facts.specs.Knows.{Knows};
ghost use Rattle.host_facts.specs.Others.{Others};
ghost use Rattle.lock_store.specs.Memories.{holds};
ghost use Rattle.lock_store.specs.Views.{host_at};
ghost use Rattle.plan_parts.specs.Cuts.{IsCut};
ghost use Rattle.plan_parts.specs.TakenLocks.{LockFreed};
ghost use Rattle.vol_layout.specs.Ranges.{HasResource};

use lock_store::StepNo;
use meta_world::MetaWorld;
use shared_disk::Device;
use vol_base::HostNo;
use vol_layout::Resource;

/// Frees a lock that the host holds, while no record of its own stands.
pub fn free_lock<D: Device>(
    world: &mut MetaWorld<D>,
    host: HostNo,
    what: Resource,
) -> Result<(), StepNo>
    requires host { host < world.old.locks.geometry.hosts }
    requires what { HasResource world.old.locks.geometry what }
    requires held { holds (host_at world.old.locks host) what ≡ true }
    requires empty { Knows world.old host (RecordIs []) }
    ensures went { OnOk result (LockFreed host world.old world.new what) }
    ensures cut { IfErr result (IsCut host world.old world.new) }
    ensures others { Others host world.old world.new }
{
    let _geometry = world.locks().geometry();
    match unlock(world, host, what) {
        Ok(()) => Ok(()),
        Err(why) => Err(why),
    }
}

// Frees a lock.
pub(crate) fn unlock<D: Device>(
    world: &mut MetaWorld<D>,
    host: HostNo,
    what: Resource,
) -> Result<(), StepNo>
    requires host { host < world.old.locks.geometry.hosts }
    requires what { HasResource world.old.locks.geometry what }
    requires joined { (host_at world.old.locks host).joined ≡ true }
    requires held { holds (host_at world.old.locks host) what ≡ true }
    requires unedited { Sure world.old.locks host (Unedited world.old.locks.geometry what) }
    ensures did { Unlocks world.old.locks host what result world.new.locks }
    ensures others { locks'.Others host world.old.locks world.new.locks }
    ensures standing { world.new.standing ≡ world.old.standing }
    ensures consistent { Consistent world.new.locks }
{
    let done = world.locks_mut().unlock(host, what);
    let _geometry = world.locks().geometry();
    done
}
