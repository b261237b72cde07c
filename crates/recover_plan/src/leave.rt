// A host leaves: the files that it holds are freed, then its slot; and its key is taken off.
ghost use Rattle.std.specs.Prelude.{◌≡◌, ◌<◌, ℕ, IfErr, IfOk, IfSome, IsNone, List, Option, false, true};
ghost use Rattle.disk_locks.specs.Calls.{Unlocks};
ghost use Rattle.disk_locks.specs.Consistent.{Consistent};
ghost use Rattle.disk_locks.specs.Freeing.{Unedited};
ghost use Rattle.disk_locks.specs.Others as locks';
ghost use Rattle.disk_locks.specs.Sure.{Sure};
ghost use Rattle.host_facts.specs.Others.{Others};
ghost use Rattle.lock_store.specs.Memories.{holds};
ghost use Rattle.lock_store.specs.Views.{host_at};
ghost use Rattle.plan_parts.specs.Cuts.{IsCut, IsCutBy};
ghost use Rattle.plan_parts.specs.Steps.{IsReady};
ghost use Rattle.recover_plan.specs.Plans.{Agrees, Came, PlanStands};
ghost use Rattle.watch.specs.declared.watch.Look.{Look};

use crate::join::{forget, key};
use crate::plan::{Come, Doing};
use crate::recover::free_slot;
use crate::replay::take_off;
use lock_store::StepNo;
use meta_world::MetaWorld;
use shared_disk::Device;
use vol_base::{Answer, Command, FileNo, HostNo};
use vol_layout::Resource;
use watch::Watch;

/// Frees the lock of the first file that the host holds, or once there is none its own slot.
pub(crate) fn unlocks<D: Device>(
    world: &mut MetaWorld<D>,
    watch: &Watch,
    host: HostNo,
) -> Result<Come, StepNo>
    requires stands { PlanStands world.old host watch.now Doing.Unlock }
    ensures came { IfOk result (Came host world.old world.new watch.now watch.now Doing.Unlock) }
    ensures cut { IfErr result (λ why. IsCutBy Command.Leave host world.old world.new why (Agrees host world.old watch.now Doing.Unlock)) }
    ensures others { Others host world.old world.new }
{
    let _watch = watch;
    match held_file(world, host) {
        Some(file) => free_file(world, host, file),
        None => free_own(world, host),
    }
}

/// Takes the own key off. The host is down then.
pub(crate) fn fence_own<D: Device>(
    world: &mut MetaWorld<D>,
    watch: &mut Watch,
    host: HostNo,
) -> Result<Come, StepNo>
    requires stands { PlanStands world.old host watch.old Doing.Fence }
    ensures came { IfOk result (Came host world.old world.new watch.old watch.new Doing.Fence) }
    ensures cut { IfErr result (λ why. IsCutBy Command.Leave host world.old world.new why (Agrees host world.old watch.old Doing.Fence)) }
    ensures others { Others host world.old world.new }
{
    let _geometry = world.locks().geometry();
    let own = key(world, host);
    match take_off(world, host, own) {
        Ok(()) => {
            forget(world, host);
            *watch = Watch::new();
            Ok(Come::Answered(Answer::Fine))
        }
        Err(why) => Err(why),
    }
}

// The first file that the host holds.
fn held_file<D: Device>(world: &MetaWorld<D>, host: HostNo) -> Option<FileNo>
    requires host { host < world.now.locks.geometry.hosts }
    ensures some { IfSome result (λ file. (file < world.now.locks.geometry.files) × (holds (host_at world.now.locks host) (Resource.File file) ≡ true)) }
    ensures none { IsNone result → (f : ℕ) → f < world.now.locks.geometry.files → holds (host_at world.now.locks host) (Resource.File f) ≡ false }
{
    for file in 0..world.locks().geometry().files {
        if world.locks().holds(host, Resource::File(file)) {
            return Some(file);
        }
    }
    None
}

// Frees the own slot of a host that holds no file.
fn free_own<D: Device>(world: &mut MetaWorld<D>, host: HostNo) -> Result<Come, StepNo>
    requires host { host < world.old.locks.geometry.hosts }
    requires ready { IsReady world.old host }
    requires files { (f : ℕ) → f < world.old.locks.geometry.files → holds (host_at world.old.locks host) (Resource.File f) ≡ false }
    ensures came { IfOk result (λ come. (watch : List (Option Look)) → PlanStands world.old host watch Doing.Unlock → Came host world.old world.new watch watch Doing.Unlock come) }
    ensures cut { IfErr result (IsCut host world.old world.new) }
    ensures others { Others host world.old world.new }
{
    let _geometry = world.locks().geometry();
    match free_slot(world, host, host) {
        Ok(()) => Ok(Come::More(Doing::Fence)),
        Err(why) => Err(why),
    }
}

// Frees the lock of a file that the host holds.
fn free_file<D: Device>(
    world: &mut MetaWorld<D>,
    host: HostNo,
    file: FileNo,
) -> Result<Come, StepNo>
    requires host { host < world.old.locks.geometry.hosts }
    requires ready { IsReady world.old host }
    requires file { file < world.old.locks.geometry.files }
    requires held { holds (host_at world.old.locks host) (Resource.File file) ≡ true }
    ensures came { IfOk result (λ come. (watch : List (Option Look)) → PlanStands world.old host watch Doing.Unlock → Came host world.old world.new watch watch Doing.Unlock come) }
    ensures cut { IfErr result (IsCut host world.old world.new) }
    ensures others { Others host world.old world.new }
{
    let _geometry = world.locks().geometry();
    match unlock(world, host, file) {
        Ok(()) => Ok(Come::More(Doing::Unlock)),
        Err(why) => Err(why),
    }
}

// Frees the lock.
fn unlock<D: Device>(world: &mut MetaWorld<D>, host: HostNo, file: FileNo) -> Result<(), StepNo>
    requires host { host < world.old.locks.geometry.hosts }
    requires joined { (host_at world.old.locks host).joined ≡ true }
    requires file { file < world.old.locks.geometry.files }
    requires held { holds (host_at world.old.locks host) (Resource.File file) ≡ true }
    requires unedited { Sure world.old.locks host (Unedited world.old.locks.geometry (Resource.File file)) }
    ensures did { Unlocks world.old.locks host (Resource.File file) result world.new.locks }
    ensures others { locks'.Others host world.old.locks world.new.locks }
    ensures standing { world.new.standing ≡ world.old.standing }
    ensures consistent { Consistent world.new.locks }
{
    let done = world.locks_mut().unlock(host, Resource::File(file));
    let _geometry = world.locks().geometry();
    done
}
