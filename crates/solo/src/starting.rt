// The beginning of a lone host.
ghost use Rattle.std.specs.Prelude.{◌≡◌, IfErr, IfOk, OnOk};
ghost use Rattle.lock_store.specs.Memories.{dropped};
ghost use Rattle.lock_store.specs.Views.{host_at};
ghost use Rattle.shared_disk.specs.Seen.{seen_by};
ghost use Rattle.solo.specs.Alone.{IsAlone, IsLater};
ghost use Rattle.solo.specs.Starts.{HasRefused, HasStartCause, HasStarted, IsTaking, TellsVolume};

use crate::joining::drives;
use crate::opening::open;
use crate::reading::SOLO;
use crate::solo::Solo;
use crate::taking::takes;
use disk_locks::Locks;
use held_cache::HeldCache;
use meta_world::MetaWorld;
use recover_plan::{join_at_once, recover_at_once};
use settle::LoneNo;
use shared_disk::Device;
use std::alloc::Global;

impl<D: Device> Solo<D> {
    /// The host of the volume on a device, which no other program uses: it joins, recovers every other host, and takes every file. Where it
    /// is refused the device is handed back. No file changes, whatever is answered.
    pub fn start(alloc: Global, disk: D) -> Result<Solo<D>, (LoneNo, D)>
        requires volume { TellsVolume (D.state disk) }
        ensures started { IfOk result (HasStarted (seen_by D.Device disk)) }
        ensures refused { IfErr result (λ e. HasRefused (seen_by D.Device disk) e.0 (seen_by D.Device e.1)) }
    {
        let mut disk = disk;
        let geometry = match open(&mut disk) {
            Ok(geometry) => geometry,
            Err(no) => return Err((no, disk)),
        };
        let cache = match HeldCache::new(alloc, &geometry) {
            Ok(cache) => cache,
            Err(_) => return Err((LoneNo::NoMemory, disk)),
        };
        let mut world = MetaWorld::new(Locks::new(disk, geometry));
        let begun = begins(&mut world);
        let _geometry = world.locks().geometry();
        match begun {
            Ok(()) => Ok(Solo::of(world, cache)),
            Err(no) => Err((no, world.close())),
        }
    }
}

// Joins, recovers every other host, and takes every file.
fn begins<D: Device>(world: &mut MetaWorld<D>) -> Result<(), LoneNo>
    requires out { host_at world.old.locks 0 ≡ dropped }
    ensures later { IsLater 1 world.old world.new }
    ensures alone { OnOk result (IsAlone world.new) }
    ensures cause { IfErr result (HasStartCause world.old.locks.disk world.new.locks.disk) }
{
    let _geometry = world.locks().geometry();
    match recovers(world) {
        Ok(()) => {}
        Err(no) => return Err(no),
    }
    let _geometry = world.locks().geometry();
    match takes_all(world) {
        Ok(()) => Ok(()),
        Err(no) => Err(no),
    }
}

// Joins, and recovers every other host.
fn recovers<D: Device>(world: &mut MetaWorld<D>) -> Result<(), LoneNo>
    requires out { host_at world.old.locks 0 ≡ dropped }
    ensures later { IsLater 1 world.old world.new }
    ensures recovered { OnOk result (IsTaking world.new 0) }
    ensures cause { IfErr result (HasStartCause world.old.locks.disk world.new.locks.disk) }
{
    let hosts = world.locks().geometry().hosts;
    match drives(world, join_at_once(SOLO)) {
        Ok(()) => {}
        Err(no) => return Err(no),
    }
    for of in 1..hosts {
        let _geometry = world.locks().geometry();
        match drives(world, recover_at_once(SOLO, of)) {
            Ok(()) => {}
            Err(no) => return Err(no),
        }
    }
    let _geometry = world.locks().geometry();
    Ok(())
}

// Takes every file.
fn takes_all<D: Device>(world: &mut MetaWorld<D>) -> Result<(), LoneNo>
    requires taking { IsTaking world.old 0 }
    ensures later { IsLater 0 world.old world.new }
    ensures alone { OnOk result (IsAlone world.new) }
    ensures cause { IfErr result (HasStartCause world.old.locks.disk world.new.locks.disk) }
{
    let files = world.locks().geometry().files;
    for file in 0..files {
        let _geometry = world.locks().geometry();
        match takes(world, file) {
            Ok(()) => {}
            Err(no) => return Err(no),
        }
    }
    Ok(())
}
