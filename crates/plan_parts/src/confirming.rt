// The look at a file's lock by which a host confirms that it may still read the file.
ghost use Rattle.std.specs.Prelude.{◌≡◌, ◌≢◌, ◌<◌, IfErr, OnOk, true};
ghost use Rattle.disk_locks.specs.Calls.{IsSound};
ghost use Rattle.disk_locks.specs.Others as locks';
ghost use Rattle.host_facts.specs.Others.{Others};
ghost use Rattle.lock_store.specs.Memories.{may_read};
ghost use Rattle.lock_store.specs.Tries.{ConfirmsLock};
ghost use Rattle.lock_store.specs.Views.{host_at, key_at};
ghost use Rattle.plan_parts.specs.Commits.{Confirmed};
ghost use Rattle.plan_parts.specs.Cuts.{IsCut};
ghost use Rattle.vol_layout.specs.declared.kind.Resource.{Resource};

use lock_store::StepNo;
use meta_world::MetaWorld;
use shared_disk::Device;
use vol_base::{FileNo, HostNo};
use vol_layout::Resource;

/// Reads the lock of a file that the host may read: its key is registered then.
pub fn confirm<D: Device>(
    world: &mut MetaWorld<D>,
    host: HostNo,
    file: FileNo,
) -> Result<(), StepNo>
    requires host { host < world.old.locks.geometry.hosts }
    requires file { file < world.old.locks.geometry.files }
    requires may { may_read (host_at world.old.locks host) (Resource.File file) ≡ true }
    ensures did { ConfirmsLock world.old.locks host (Resource.File file) result world.new.locks }
    ensures went { OnOk result (Confirmed host world.old world.new) }
    ensures cut { IfErr result (IsCut host world.old world.new) }
    ensures others { Others host world.old world.new }
{
    let _geometry = world.locks().geometry();
    match look(world, host, file) {
        Ok(()) => Ok(()),
        Err(why) => Err(why),
    }
}

// Reads the lock.
fn look<D: Device>(world: &mut MetaWorld<D>, host: HostNo, file: FileNo) -> Result<(), StepNo>
    requires host { host < world.old.locks.geometry.hosts }
    requires file { file < world.old.locks.geometry.files }
    requires key { key_at world.old.locks host ≢ 0 }
    requires may { may_read (host_at world.old.locks host) (Resource.File file) ≡ true }
    ensures did { ConfirmsLock world.old.locks host (Resource.File file) result world.new.locks }
    ensures sound { IsSound result world.old.locks }
    ensures others { locks'.Others host world.old.locks world.new.locks }
    ensures standing { world.new.standing ≡ world.old.standing }
{
    world.locks_mut().confirm(host, file)
}
