// The stages in which a host takes the hold of its file, or gives a read hold back.
ghost use Rattle.std.specs.Prelude.{IfErr, IfOk};
ghost use Rattle.file_plans.specs.Stands.{At};
ghost use Rattle.file_plans.specs.Turns.{IsSooner};
ghost use Rattle.file_plans.specs.Went.{IsCutAt, IsHeldBehind, IsReadBehind, Went};
ghost use Rattle.host_facts.specs.Others.{Others};

use crate::ending::made;
use crate::stage::Stage;
use crate::state::Core;
use held_cache::HeldCache;
use lock_store::StepNo;
use meta_world::MetaWorld;
use plan_parts::{Outcome, ReadTry, TakeWrite, Taking};
use shared_disk::Device;
use vol_base::{Answer, Next, Step};

/// One step towards the write hold.
pub fn writes<D: Device>(
    core: &mut Core,
    world: &mut MetaWorld<D>,
    cache: &HeldCache,
    taking: TakeWrite,
) -> Result<(Step, Stage), StepNo>
    requires stands { At world.old cache.now core.old (Stage.Writes taking) }
    ensures went { IfOk result (λ r. Went world.old world.new cache.now core.old core.new (Stage.Writes taking) r.0 r.1) }
    ensures sooner { IfOk result (λ r. IsSooner world.old cache.now core.old (Stage.Writes taking) world.new cache.now core.new r.0.next r.1) }
    ensures cut { IfErr result (IsCutAt world.old world.new core.old (Stage.Writes taking)) }
    ensures others { Others core.old.host world.old world.new }
{
    let _geometry = world.locks().geometry();
    match taking.next(world, core.host, core.call.file()) {
        Ok(taken) => {
            let _geometry = world.locks().geometry();
            Ok(held(core, taken))
        }
        Err(why) => Err(why),
    }
}

// What comes behind it.
fn held(core: &mut Core, taken: Taking<TakeWrite>) -> (Step, Stage)
    ensures { IsHeldBehind core.old core.new taken result.0 result.1 }
{
    match taken {
        Taking::More(next) => (made(None, Next::More), Stage::Writes(next)),
        Taking::Taken => (made(None, Next::More), Stage::Sees),
        Taking::Busy(key) => {
            core.outcome = Outcome::Busy(key);
            (made(None, Next::Answered(Answer::Busy(key))), Stage::Over)
        }
    }
}

/// One step towards the read hold.
pub fn reads<D: Device>(
    core: &mut Core,
    world: &mut MetaWorld<D>,
    cache: &HeldCache,
    taking: ReadTry,
) -> Result<(Step, Stage), StepNo>
    requires stands { At world.old cache.now core.old (Stage.Reads taking) }
    ensures went { IfOk result (λ r. Went world.old world.new cache.now core.old core.new (Stage.Reads taking) r.0 r.1) }
    ensures sooner { IfOk result (λ r. IsSooner world.old cache.now core.old (Stage.Reads taking) world.new cache.now core.new r.0.next r.1) }
    ensures cut { IfErr result (IsCutAt world.old world.new core.old (Stage.Reads taking)) }
    ensures others { Others core.old.host world.old world.new }
{
    let _geometry = world.locks().geometry();
    match taking.take(world, core.host, core.call.file()) {
        Ok(taken) => {
            let _geometry = world.locks().geometry();
            Ok(read(core, taken))
        }
        Err(why) => Err(why),
    }
}

// What comes behind it.
fn read(core: &mut Core, taken: Taking<ReadTry>) -> (Step, Stage)
    ensures { IsReadBehind core.old core.new taken result.0 result.1 }
{
    match taken {
        Taking::More(next) => (made(None, Next::More), Stage::Reads(next)),
        Taking::Taken => (made(None, Next::More), Stage::Sees),
        Taking::Busy(key) => {
            core.outcome = Outcome::Busy(key);
            (made(None, Next::Answered(Answer::Busy(key))), Stage::Over)
        }
    }
}
