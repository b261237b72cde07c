// Which step comes at each stage.
ghost use Rattle.std.specs.Prelude.{◌≡◌, IfErr, IfOk};
ghost use Rattle.std.specs.Prelude.{None, false};
ghost use Rattle.file_plans.specs.Calls.{block_of};
ghost use Rattle.file_plans.specs.Plans.{HasStepped, IsRefused};
ghost use Rattle.file_plans.specs.Stands.{At};
ghost use Rattle.file_plans.specs.Turns.{IsSooner};
ghost use Rattle.file_plans.specs.Went.{LeavesOthers};
ghost use Rattle.host_facts.specs.Others.{Others};

use crate::acting::sees;
use crate::beginning::begins;
use crate::changing::{changes, fetches, locks};
use crate::closing::{applies, frees};
use crate::holding::{reads, writes};
use crate::releasing::gives_back;
use crate::stage::Stage;
use crate::state::Core;
use crate::writing::{fetches_shared, fills, locks_shared, puts, searches};
use held_cache::HeldCache;
use lock_store::StepNo;
use meta_world::MetaWorld;
use shared_disk::Device;
use vol_base::{Next, Step};

/// One step of a plan at this stage.
pub fn steps<D: Device>(
    core: &mut Core,
    world: &mut MetaWorld<D>,
    cache: &mut HeldCache,
    stage: Stage,
) -> Result<(Step, Stage), StepNo>
    requires stands { At world.old cache.old core.old stage }
    ensures step { IfOk result (λ r. HasStepped world.old world.new cache.new core.old core.new stage r.0 r.1 r.0.next) }
    ensures sooner { IfOk result (λ r. IsSooner world.old cache.old core.old stage world.new cache.new core.new r.0.next r.1) }
    ensures cut { IfErr result (IsRefused world.old world.new core.old stage) }
    ensures others { Others core.old.host world.old world.new }
    ensures leaves { LeavesOthers core.old.host cache.old cache.new }
{
    match stage {
        Stage::Asks => Ok((asked(core), Stage::Asks)),
        Stage::Begins => begins(core, world, cache),
        Stage::Writes(taking) => writes(core, world, cache, taking),
        Stage::Reads(taking) => reads(core, world, cache, taking),
        Stage::GivesBack(taking) => gives_back(core, world, cache, taking),
        Stage::Sees => sees(core, world, cache),
        Stage::Searches(old, shared, search) => searches(core, world, cache, old, shared, search),
        Stage::LocksShared(old, number, group) => locks_shared(
            core, world, cache, old, number, group,
        ),
        Stage::FetchesShared(old, number, group) => fetches_shared(
            core, world, cache, old, number, group,
        ),
        Stage::Puts(fresh) => puts(core, world, cache, fresh),
        Stage::Fills(fresh) => fills(core, world, cache, fresh),
        Stage::Locks(change) => locks(core, world, cache, change),
        Stage::Fetches(change) => fetches(core, world, cache, change),
        Stage::Changes(change, group) => changes(core, world, cache, change, group),
        Stage::Applies(applying) => applies(core, world, cache, applying),
        Stage::Frees => frees(core, world, cache),
        Stage::Over => Err(StepNo::NoMemory),
    }
}

// A step that asks for the digest of the block, and makes no call.
fn asked(core: &Core) -> Step
    ensures { result ≡ record { placed = None; called = false; next = Next.Work (block_of core.now.call) } }
{
    Step {
        placed: None,
        called: false,
        next: Next::Work(core.call.block()),
    }
}
