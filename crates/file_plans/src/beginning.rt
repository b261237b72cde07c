// The first step of a plan that waits for no digest: with its hold the call acts; without it the hold is tried, or a file is closed.
ghost use Rattle.std.specs.Prelude.{◌≡◌, ◌<◌, IfErr, IfOk, false};
ghost use Rattle.file_plans.specs.Begins.{has_hold};
ghost use Rattle.file_plans.specs.Calls.{file_of};
ghost use Rattle.file_plans.specs.Stands.{At};
ghost use Rattle.file_plans.specs.Turns.{IsSooner};
ghost use Rattle.file_plans.specs.Went.{IsCutAt, LeavesOthers, Went};
ghost use Rattle.host_facts.specs.Others.{Others};
ghost use Rattle.lock_store.specs.Memories.{holds};
ghost use Rattle.lock_store.specs.Views.{host_at};

use crate::acting::sees;
use crate::call::FileCall;
use crate::forgetting::forget_file;
use crate::holding::{reads, writes};
use crate::releasing::gives_back;
use crate::stage::Stage;
use crate::state::Core;
use held_cache::HeldCache;
use lock_store::StepNo;
use meta_world::MetaWorld;
use plan_parts::{ReadTry, TakeWrite};
use shared_disk::Device;
use vol_base::{Answer, Next, PlainCall, Step};
use vol_layout::Resource;

/// The first step: a host that lacks the hold forgets the tables that it kept of the file before it tries.
pub fn begins<D: Device>(
    core: &mut Core,
    world: &mut MetaWorld<D>,
    cache: &mut HeldCache,
) -> Result<(Step, Stage), StepNo>
    requires stands { At world.old cache.old core.old Stage.Begins }
    ensures went { IfOk result (λ r. Went world.old world.new cache.new core.old core.new Stage.Begins r.0 r.1) }
    ensures sooner { IfOk result (λ r. IsSooner world.old cache.old core.old Stage.Begins world.new cache.new core.new r.0.next r.1) }
    ensures cut { IfErr result (IsCutAt world.old world.new core.old Stage.Begins) }
    ensures others { Others core.old.host world.old world.new }
    ensures leaves { LeavesOthers core.old.host cache.old cache.new }
{
    if has_hold(core, world) {
        return sees(core, world, cache);
    }
    let file = core.call.file();
    forget_file(world.locks().geometry(), cache, core.host, file);
    tries(core, world, cache)
}

// Whether the host has the hold that its call wants.
fn has_hold<D: Device>(core: &Core, world: &MetaWorld<D>) -> bool
    requires host { core.now.host < world.now.locks.geometry.hosts }
    requires file { file_of core.now.call < world.now.locks.geometry.files }
    ensures { result ≡ has_hold core.now.call (host_at world.now.locks core.now.host) }
{
    let file = core.call.file();
    let locks = world.locks();
    match &core.call {
        FileCall::Plain(PlainCall::Read(_, _)) => {
            locks.holds(core.host, Resource::File(file)) || locks.reads(core.host, file)
        }
        _ => locks.holds(core.host, Resource::File(file)),
    }
}

// The first try for the hold.
fn tries<D: Device>(
    core: &mut Core,
    world: &mut MetaWorld<D>,
    cache: &mut HeldCache,
) -> Result<(Step, Stage), StepNo>
    requires stands { At world.old cache.old core.old Stage.Begins }
    requires out { has_hold core.old.call (host_at world.old.locks core.old.host) ≡ false }
    ensures went { IfOk result (λ r. Went world.old world.new cache.new core.old core.new Stage.Begins r.0 r.1) }
    ensures sooner { IfOk result (λ r. IsSooner world.old cache.old core.old Stage.Begins world.new cache.new core.new r.0.next r.1) }
    ensures cut { IfErr result (IsCutAt world.old world.new core.old Stage.Begins) }
    ensures others { Others core.old.host world.old world.new }
    ensures leaves { LeavesOthers core.old.host cache.old cache.new }
{
    let _geometry = world.locks().geometry();
    let file = core.call.file();
    if core.call.is_read() {
        let first = ReadTry::new(world, core.host, file);
        return reads(core, world, cache, first);
    }
    if core.call.wants_write() {
        let first = TakeWrite::new(world, core.host, file);
        return writes(core, world, cache, first);
    }
    if world.locks().reads(core.host, file) {
        let first = ReadTry::new(world, core.host, file);
        return gives_back(core, world, cache, first);
    }
    Ok((
        Step {
            placed: None,
            called: false,
            next: Next::Answered(Answer::Fine),
        },
        Stage::Over,
    ))
}
