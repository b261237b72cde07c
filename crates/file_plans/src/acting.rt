// The step of a call that has its hold, by what the kept tables of its file say.
ghost use Rattle.std.specs.Prelude.{◌≡◌, IfErr, IfOk};
ghost use Rattle.file_plans.specs.Stands.{At};
ghost use Rattle.file_plans.specs.Turns.{IsSooner};
ghost use Rattle.file_plans.specs.Went.{IsCutAt, LeavesOthers, Went};
ghost use Rattle.host_facts.specs.Others.{Others};

use crate::changing::{heads, locks};
use crate::releasing::clears;
use crate::seeing::{confirms, needs, own, shows};
use crate::sight::{Sight, look};
use crate::stage::{Change, Stage};
use crate::state::Core;
use crate::writing::searches;
use held_cache::HeldCache;
use lock_store::StepNo;
use meta_world::MetaWorld;
use plan_parts::Search;
use shared_disk::Device;
use vol_base::Step;

/// One step of the call.
pub fn sees<D: Device>(
    core: &mut Core,
    world: &mut MetaWorld<D>,
    cache: &mut HeldCache,
) -> Result<(Step, Stage), StepNo>
    requires stands { At world.old cache.old core.old Stage.Sees }
    ensures went { IfOk result (λ r. Went world.old world.new cache.new core.old core.new Stage.Sees r.0 r.1) }
    ensures sooner { IfOk result (λ r. IsSooner world.old cache.old core.old Stage.Sees world.new cache.new core.new r.0.next r.1) }
    ensures cut { IfErr result (IsCutAt world.old world.new core.old Stage.Sees) }
    ensures others { Others core.old.host world.old world.new }
    ensures leaves { LeavesOthers core.old.host cache.old cache.new }
{
    let geometry = world.locks().geometry();
    match look(geometry, cache, core.host, &core.call) {
        Sight::Needs(which) => needs(core, world, cache, which),
        Sight::Settled(reply) => confirms(core, world, cache, reply),
        Sight::Shows(number) => shows(core, world, cache, number),
        Sight::Own(number) => own(core, world, cache, number),
        Sight::Fresh(old) => searches(core, world, cache, old, None, Search::Lock(0)),
        Sight::Drops(number) => locks(core, world, cache, Change::Drop(number)),
        Sight::Purges(remains) => locks(core, world, cache, Change::Purge(remains)),
        Sight::Heads(number) => heads(core, world, cache, number),
        Sight::Clear => clears(core, world, cache),
    }
}
