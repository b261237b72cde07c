// The locks that a transaction took.
ghost use Rattle.std.specs.Prelude.{◌≡◌, ◌<◌, ◌∷◌, [], IfErr, IfOk, IfSome, IsNone, IsTrue, ◌↔◌, length, true};
ghost use Rattle.disk_locks.specs.Calls.{Unlocks};
ghost use Rattle.disk_locks.specs.Consistent.{Consistent};
ghost use Rattle.disk_locks.specs.Freeing.{Unedited};
ghost use Rattle.disk_locks.specs.Others as locks';
ghost use Rattle.disk_locks.specs.Sure.{Sure};
ghost use Rattle.host_facts.specs.Facts.Fact.{RecordIs};
ghost use Rattle.host_facts.specs.Knows.{Knows};
ghost use Rattle.host_facts.specs.Others.{Others};
ghost use Rattle.lock_store.specs.Memories.{holds};
ghost use Rattle.lock_store.specs.Views.{host_at};
ghost use Rattle.plan_parts.specs.Cuts.{IsCut};
ghost use Rattle.plan_parts.specs.MadeCalls.{FreedSo};
ghost use Rattle.plan_parts.specs.TakenLocks.{Frees, IsTaking};
ghost use Rattle.vol_layout.specs.Ranges.{HasResource};

use crate::freeing::unlock;
use lock_store::StepNo;
use meta_world::MetaWorld;
use shared_disk::Device;
use std::marker::Model;
use vol_base::HostNo;
use vol_layout::Resource;

/// The most locks of a transaction: all groups, and two parts.
const MOST: usize = 66;

/// The parts and groups that were locked, last taken first. It takes no memory.
#[derive(Drop)]
pub struct Taken {
    taken: [Resource; 66],
    count: usize,
}

impl Model for Taken {
    ghost use Rattle.std.specs.Prelude.{◌≡◌, ◌≤◌, List, length, reverse, take};
    ghost use Rattle.vol_layout.specs.declared.kind.Resource.{Resource};

    ghost Value = { List Resource };

    ghost view = { λ t. reverse (take t.count t.taken) };

    ghost invariant = { λ t. (t.count ≤ 66) × (length t.taken ≡ 66) };
}

impl Taken {
    /// No lock.
    pub fn new() -> Taken
        ensures { result ≡ [] }
    {
        Taken {
            taken: [Resource::Group(0); MOST],
            count: 0,
        }
    }

    /// Whether there is none.
    pub fn is_empty(&self) -> bool
        ensures { IsTrue result ↔ (self.now ≡ []) }
    {
        self.count == 0
    }

    /// Adds a lock that was taken.
    pub fn push(&mut self, what: Resource)
        requires { length self.old < 66 }
        ensures { self.new ≡ what ∷ self.old }
    {
        self.taken[self.count] = what;
        self.count += 1;
    }

    /// Takes the last one out.
    pub fn pop(&mut self) -> Option<Resource>
        ensures some { IfSome result (λ what. self.old ≡ what ∷ self.new) }
        ensures none { IsNone result → self.old ≡ [] }
        ensures same { IsNone result → self.new ≡ [] }
    {
        if self.count == 0 {
            return None;
        }
        self.count -= 1;
        Some(self.taken[self.count])
    }

    /// Frees the lock that was taken last; false where there is none, and then no call is made.
    pub fn free_last<D: Device>(
        &mut self,
        world: &mut MetaWorld<D>,
        host: HostNo,
    ) -> Result<bool, StepNo>
        requires host { host < world.old.locks.geometry.hosts }
        requires empty { Knows world.old host (RecordIs []) }
        requires taking { IsTaking world.old host self.old }
        ensures went { IfOk result (Frees host world.old world.new self.old self.new) }
        ensures so { IfOk result (FreedSo host world.old world.new self.old self.new) }
        ensures cut { IfErr result (IsCut host world.old world.new) }
        ensures others { Others host world.old world.new }
    {
        let _geometry = world.locks().geometry();
        match self.pop() {
            Some(what) => match unlock(world, host, what) {
                Ok(()) => Ok(true),
                Err(why) => Err(why),
            },
            None => Ok(false),
        }
    }
}
