// The steps by which a file is closed: a write hold is freed, or a read hold is given back.
ghost use Rattle.std.specs.Prelude.{◌≡◌, IfErr, IfOk, None};
ghost use Rattle.file_plans.specs.Sights.{IsSight};
ghost use Rattle.file_plans.specs.Stands.{At};
ghost use Rattle.file_plans.specs.Turns.{IsSooner};
ghost use Rattle.file_plans.specs.Went.{IsCutAt, LeavesOthers, Went};
ghost use Rattle.held_cache.specs.Kept.{kept_at};
ghost use Rattle.host_facts.specs.Others.{Others};

use crate::ending::made;
use crate::forgetting::forget_file;
use crate::sight::Sight;
use crate::stage::Stage;
use crate::state::Core;
use held_cache::HeldCache;
use lock_store::StepNo;
use meta_world::MetaWorld;
use plan_parts::{Outcome, ReadTry, Taking, free_lock};
use shared_disk::Device;
use vol_base::{Answer, Next, Step};
use vol_layout::Resource;

/// Frees the write hold of a file that has no remain, which is then closed.
pub fn clears<D: Device>(
    core: &mut Core,
    world: &mut MetaWorld<D>,
    cache: &mut HeldCache,
) -> Result<(Step, Stage), StepNo>
    requires stands { At world.old cache.old core.old Stage.Sees }
    requires sight { IsSight world.old.locks.geometry (kept_at cache.old core.old.host) core.old.call (Sight.Clear) }
    ensures went { IfOk result (λ r. Went world.old world.new cache.new core.old core.new Stage.Sees r.0 r.1) }
    ensures sooner { IfOk result (λ r. IsSooner world.old cache.old core.old Stage.Sees world.new cache.new core.new r.0.next r.1) }
    ensures cut { IfErr result (IsCutAt world.old world.new core.old Stage.Sees) }
    ensures others { Others core.old.host world.old world.new }
    ensures leaves { LeavesOthers core.old.host cache.old cache.new }
{
    let _geometry = world.locks().geometry();
    let file = core.call.file();
    match free_lock(world, core.host, Resource::File(file)) {
        Ok(()) => {
            forget_file(world.locks().geometry(), cache, core.host, file);
            Ok((made(None, Next::Answered(Answer::Fine)), Stage::Over))
        }
        Err(why) => Err(why),
    }
}

/// One step that gives a read hold back.
pub fn gives_back<D: Device>(
    core: &mut Core,
    world: &mut MetaWorld<D>,
    cache: &mut HeldCache,
    taking: ReadTry,
) -> Result<(Step, Stage), StepNo>
    requires stands { At world.old cache.old core.old (Stage.GivesBack taking) }
    ensures went { IfOk result (λ r. Went world.old world.new cache.new core.old core.new (Stage.GivesBack taking) r.0 r.1) }
    ensures sooner { IfOk result (λ r. IsSooner world.old cache.old core.old (Stage.GivesBack taking) world.new cache.new core.new r.0.next r.1) }
    ensures cut { IfErr result (IsCutAt world.old world.new core.old (Stage.GivesBack taking)) }
    ensures others { Others core.old.host world.old world.new }
    ensures leaves { LeavesOthers core.old.host cache.old cache.new }
{
    let _geometry = world.locks().geometry();
    let file = core.call.file();
    match taking.give_back(world, core.host, file) {
        Ok(Taking::More(next)) => {
            let _geometry = world.locks().geometry();
            Ok((made(None, Next::More), Stage::GivesBack(next)))
        }
        Ok(Taking::Taken) => {
            forget_file(world.locks().geometry(), cache, core.host, file);
            Ok((made(None, Next::Answered(Answer::Fine)), Stage::Over))
        }
        Ok(Taking::Busy(key)) => {
            let _geometry = world.locks().geometry();
            core.outcome = Outcome::Busy(key);
            Ok((made(None, Next::Answered(Answer::Busy(key))), Stage::Over))
        }
        Err(why) => Err(why),
    }
}
