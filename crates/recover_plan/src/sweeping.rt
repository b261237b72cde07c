// A dead host's locks, freed one after the other.
ghost use Rattle.std.specs.Prelude.{◌≡◌, ◌<◌, IfErr, IfOk};
ghost use Rattle.host_facts.specs.Facts.{locks_of, turn_of};
ghost use Rattle.host_facts.specs.Others.{Others};
ghost use Rattle.recover_plan.specs.Replaying.{IsSwept};
ghost use Rattle.recover_plan.specs.Replays.{IsCutAt, Went};
ghost use Rattle.recover_plan.specs.Stages.{behind_sweep};
ghost use Rattle.vol_layout.specs.Ranges.{HasResource, IsGeometry};

use crate::replay::{Going, Replay};
use lock_store::StepNo;
use meta_world::MetaWorld;
use shared_disk::Device;
use vol_base::{HostNo, Key};
use vol_layout::{Geometry, Resource};

/// Frees a lock, where the dead key holds it.
pub(crate) fn sweep<D: Device>(
    world: &mut MetaWorld<D>,
    host: HostNo,
    of: HostNo,
    dead: Key,
    k: u8,
) -> Result<Going, StepNo>
    requires swept { IsSwept world.old host of dead.0 k }
    requires more { k < locks_of world.old.locks.geometry }
    ensures went { IfOk result (Went host of world.old world.new (Replay.Sweep dead k)) }
    ensures cut { IfErr result (IsCutAt host of world.old world.new (Replay.Sweep dead k)) }
    ensures others { Others host world.old world.new }
{
    let what = lock_at(world.locks().geometry(), k);
    let going = behind_sweep(world.locks().geometry(), dead, k);
    let done = world.locks_mut().free_lock_of(host, dead, what);
    let _geometry = world.locks().geometry();
    match done {
        Ok(()) => Ok(going),
        Err(why) => Err(why),
    }
}

// What comes next once the lock is free.
fn behind_sweep(geometry: &Geometry, dead: Key, k: u8) -> Going
    requires range { IsGeometry geometry.now }
    requires more { k < locks_of geometry.now }
    ensures { result ≡ behind_sweep geometry.now dead k }
{
    if k + 1 < geometry.files + geometry.parts + geometry.groups {
        Going::More(Replay::Sweep(dead, k + 1))
    } else {
        Going::Ready(dead)
    }
}

// The lock of this turn: files come first, then parts, then groups.
fn lock_at(geometry: &Geometry, k: u8) -> Resource
    requires range { IsGeometry geometry.now }
    requires more { k < locks_of geometry.now }
    ensures turn { turn_of geometry.now result ≡ k }
    ensures has { HasResource geometry.now result }
{
    if k < geometry.files {
        Resource::File(k)
    } else if k < geometry.files + geometry.parts {
        Resource::Part(k - geometry.files)
    } else {
        Resource::Group(k - geometry.files - geometry.parts)
    }
}
