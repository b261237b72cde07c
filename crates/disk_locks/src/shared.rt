// Locks of parts and groups, and the freeing of any lock.
ghost use Rattle.std.specs.Prelude.{◌≡◌, ◌≢◌, ◌<◌, ℕ, false, true};
ghost use Rattle.disk_locks.specs.Calls.{IsShared, IsSound, TriesHold, TriesShared, Unlocks};
ghost use Rattle.disk_locks.specs.Freeing.{Unedited};
ghost use Rattle.disk_locks.specs.Others.{Others};
ghost use Rattle.disk_locks.specs.Sure.{Sure};
ghost use Rattle.lock_store.specs.Memories.{holds};
ghost use Rattle.lock_store.specs.Views.{LocksView, host_at, key_at};
ghost use Rattle.vol_layout.specs.declared.kind.Resource.{Resource};
ghost use Rattle.vol_layout.specs.Ranges.{HasResource};

use crate::answers::Got;
use crate::locks::Locks;
use lock_store::{Purpose, StepNo, Took};
use shared_disk::Device;
use slot_lock_blocks::{LockWord, write_lock};
use vol_base::HostNo;
use vol_layout::{Kind, Resource};

impl<D: Device> Locks<D> {
    /// Takes the lock of a part or a group where it is free. `Held` has the key by which it is held.
    pub fn try_lock(&mut self, host: HostNo, what: Resource) -> Result<Got, StepNo>
        requires host { host < self.old.geometry.hosts }
        requires what { HasResource self.old.geometry what }
        requires shared { IsShared what }
        requires joined { (host_at self.old host).joined ≡ true }
        requires out { holds (host_at self.old host) what ≡ false }
        ensures did { TriesShared self.old host what result self.new }
        ensures sound { IsSound result self.old }
        ensures others { Others host self.old self.new }
    {
        let after = self.me(host).with_hold(what, true);
        let key = self.key(host);
        let to = LockWord::Held(key);
        let tried = self.store.try_lock(
            host,
            key,
            what,
            Purpose::Share,
            &LockWord::Free,
            &to,
            &after,
        );
        self.store.known();
        got(tried)
    }

    /// Frees a lock that the host holds.
    pub fn unlock(&mut self, host: HostNo, what: Resource) -> Result<(), StepNo>
        requires host { host < self.old.geometry.hosts }
        requires what { HasResource self.old.geometry what }
        requires joined { (host_at self.old host).joined ≡ true }
        requires held { holds (host_at self.old host) what ≡ true }
        requires unedited { Sure self.old host (Unedited self.old.geometry what) }
        ensures did { Unlocks self.old host what result self.new }
        ensures others { Others host self.old self.new }
    {
        let after = self.me(host).with_hold(what, false);
        let key = self.key(host);
        let block = write_lock(&LockWord::Free);
        let freed = self
            .store
            .write(host, key, Kind::Lock(what), &block, &after);
        self.store.known();
        freed
    }
}

// The answer of a try of a part's or a group's lock. The store finds there no word but a held one.
fn got(tried: Result<Took, StepNo>) -> Result<Got, StepNo>
    ensures { (v w : LocksView) (h : ℕ) (r : Resource) → TriesHold v h r tried w → TriesShared v h r result w }
{
    match tried {
        Ok(Took::Took) => Ok(Got::Got),
        Ok(Took::Found(word)) => match word {
            LockWord::Held(key) => Ok(Got::Held(key)),
            LockWord::Free | LockWord::Read(_) => Err(StepNo::Failed),
        },
        Err(why) => Err(why),
    }
}
