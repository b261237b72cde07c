// The end of a transaction: its record goes into the tables, and its locks are freed.
ghost use Rattle.std.specs.Prelude.{◌≡◌, ◌<◌, IfErr, IfOk};
ghost use Rattle.host_facts.specs.Others.{Others};
ghost use Rattle.plan_parts.specs.Cuts.{IsCut};
ghost use Rattle.share_plans.specs.Closings.{Closes, IsClosing, rest_of};

use lock_store::StepNo;
use meta_world::MetaWorld;
use plan_parts::{Applied, Applying, Taken};
use shared_disk::Device;
use vol_base::HostNo;

/// What is left of a transaction: its record is on its way into the tables; or none stands, and its locks are freed.
#[derive(Drop)]
pub enum Closing {
    Applies(Applying),
    Frees,
}

impl Closing {
    /// One step; nothing is left where no record stands and no lock is taken any more.
    pub fn next<D: Device>(
        self,
        world: &mut MetaWorld<D>,
        host: HostNo,
        taken: &mut Taken,
    ) -> Result<Option<Closing>, StepNo>
        requires host { host < world.old.locks.geometry.hosts }
        requires stands { IsClosing world.old host taken.old self }
        ensures went { IfOk result (Closes host world.old world.new taken.old taken.new self) }
        ensures cut { IfErr result (IsCut host world.old world.new) }
        ensures others { Others host world.old world.new }
    {
        match self {
            Closing::Applies(applying) => applies(world, host, taken, applying),
            Closing::Frees => frees(world, host, taken),
        }
    }
}

// A table is written, or, where none is left, the empty journal.
fn applies<D: Device>(
    world: &mut MetaWorld<D>,
    host: HostNo,
    taken: &Taken,
    applying: Applying,
) -> Result<Option<Closing>, StepNo>
    requires host { host < world.old.locks.geometry.hosts }
    requires stands { IsClosing world.old host taken.now (Closing.Applies applying) }
    ensures went { IfOk result (Closes host world.old world.new taken.now taken.now (Closing.Applies applying)) }
    ensures cut { IfErr result (IsCut host world.old world.new) }
    ensures others { Others host world.old world.new }
{
    let mut left = applying;
    match left.next(world, host) {
        Ok(Applied::Wrote(_)) => Ok(Some(Closing::Applies(left))),
        Ok(Applied::Finished) => Ok(rested(taken)),
        Err(why) => Err(why),
    }
}

// The lock that was taken last is freed.
fn frees<D: Device>(
    world: &mut MetaWorld<D>,
    host: HostNo,
    taken: &mut Taken,
) -> Result<Option<Closing>, StepNo>
    requires host { host < world.old.locks.geometry.hosts }
    requires stands { IsClosing world.old host taken.old Closing.Frees }
    ensures went { IfOk result (Closes host world.old world.new taken.old taken.new Closing.Frees) }
    ensures cut { IfErr result (IsCut host world.old world.new) }
    ensures others { Others host world.old world.new }
{
    match taken.free_last(world, host) {
        Ok(_freed) => Ok(rested(taken)),
        Err(why) => Err(why),
    }
}

/// What is left where no record stands.
pub fn rested(taken: &Taken) -> Option<Closing>
    ensures { result ≡ rest_of taken.now }
{
    if taken.is_empty() {
        None
    } else {
        Some(Closing::Frees)
    }
}
