// The steps by which a transaction takes the lock of a part or a group, and reads the table of what it holds.
ghost use Rattle.std.specs.Prelude.{◌≡◌, ◌<◌, IfErr, IfOk, false, length, true};
ghost use Rattle.disk_locks.specs.Calls.{IsShared, IsSound, TriesShared};
ghost use Rattle.disk_locks.specs.Consistent.{Consistent};
ghost use Rattle.disk_locks.specs.Keys.{owner};
ghost use Rattle.disk_locks.specs.Others as locks';
ghost use Rattle.host_facts.specs.Others.{Others};
ghost use Rattle.lock_store.specs.Memories.{holds};
ghost use Rattle.lock_store.specs.Views.{host_at};
ghost use Rattle.plan_parts.specs.Cuts.{IsCut};
ghost use Rattle.plan_parts.specs.Fetched.{Fetched, Takes};
ghost use Rattle.plan_parts.specs.MadeCalls.{ReadSo, TriedSo};
ghost use Rattle.plan_parts.specs.TakenLocks.{IsTaking};
ghost use Rattle.vol_layout.specs.Ranges.{HasResource, HasTable};

use crate::kept::Kept;
use crate::taken::Taken;
use disk_locks::Got;
use lock_store::StepNo;
use meta_world::MetaWorld;
use shared_disk::Device;
use vol_base::{HostNo, Key};
use vol_layout::{Resource, Table};

impl Taken {
    /// Takes the lock of a part or a group; where another host holds it, nothing changes, and its key is answered.
    pub fn take<D: Device>(
        &mut self,
        world: &mut MetaWorld<D>,
        host: HostNo,
        what: Resource,
    ) -> Result<Option<Key>, StepNo>
        requires host { host < world.old.locks.geometry.hosts }
        requires what { HasResource world.old.locks.geometry what }
        requires shared { IsShared what }
        requires joined { (host_at world.old.locks host).joined ≡ true }
        requires out { holds (host_at world.old.locks host) what ≡ false }
        requires room { length self.old < 66 }
        requires taking { IsTaking world.old host self.old }
        ensures went { IfOk result (Takes host world.old world.new what self.old self.new) }
        ensures so { IfOk result (TriedSo host world.old world.new what) }
        ensures cut { IfErr result (IsCut host world.old world.new) }
        ensures others { Others host world.old world.new }
    {
        let _geometry = world.locks().geometry();
        match lock(world, host, what) {
            Ok(Got::Got) => {
                self.push(what);
                Ok(None)
            }
            Ok(Got::Held(key)) => Ok(Some(key)),
            Err(why) => Err(why),
        }
    }
}

// Tries a lock.
fn lock<D: Device>(world: &mut MetaWorld<D>, host: HostNo, what: Resource) -> Result<Got, StepNo>
    requires host { host < world.old.locks.geometry.hosts }
    requires what { HasResource world.old.locks.geometry what }
    requires shared { IsShared what }
    requires joined { (host_at world.old.locks host).joined ≡ true }
    requires out { holds (host_at world.old.locks host) what ≡ false }
    ensures did { TriesShared world.old.locks host what result world.new.locks }
    ensures sound { IsSound result world.old.locks }
    ensures others { locks'.Others host world.old.locks world.new.locks }
    ensures standing { world.new.standing ≡ world.old.standing }
    ensures consistent { Consistent world.new.locks }
{
    let got = world.locks_mut().try_lock(host, what);
    let _geometry = world.locks().geometry();
    got
}

/// Reads the table of a resource that the host holds.
pub fn fetch<D: Device>(
    world: &mut MetaWorld<D>,
    host: HostNo,
    which: Table,
) -> Result<Kept, StepNo>
    requires host { host < world.old.locks.geometry.hosts }
    requires table { HasTable world.old.locks.geometry which }
    requires held { holds (host_at world.old.locks host) (owner which) ≡ true }
    ensures went { IfOk result (Fetched host world.old world.new which) }
    ensures so { IfOk result (ReadSo host world.old world.new) }
    ensures cut { IfErr result (IsCut host world.old world.new) }
    ensures others { Others host world.old world.new }
{
    let _geometry = world.locks().geometry();
    match world.read_table(host, which) {
        Ok(table) => Ok(Kept { which, table }),
        Err(why) => Err(why),
    }
}
