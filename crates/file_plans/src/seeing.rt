// The stage in which a host has its hold: tables of its file are read, and the call acts by what they say.
ghost use Rattle.std.specs.Prelude.{◌≡◌, ◌<◌, IfErr, IfOk, IfSome};
ghost use Rattle.file_plans.specs.Bases.{IsCached};
ghost use Rattle.file_plans.specs.Calls.{file_of};
ghost use Rattle.file_plans.specs.Says.{ArePacked};
ghost use Rattle.file_plans.specs.Sights.{IsSight};
ghost use Rattle.file_plans.specs.Stands.{At};
ghost use Rattle.file_plans.specs.Turns.{IsSooner};
ghost use Rattle.file_plans.specs.Went.{IsCutAt, IsSeen, LeavesOthers, Went};
ghost use Rattle.held_cache.specs.Kept.{kept_at};
ghost use Rattle.host_facts.specs.Others.{Others};
ghost use Rattle.vol_layout.specs.Ranges.{IsGeometry};

use crate::call::FileCall;
use crate::ending::{made, rested};
use crate::sight::{Sight, look};
use crate::stage::Stage;
use crate::state::Core;
use held_cache::HeldCache;
use lock_store::StepNo;
use meta_world::MetaWorld;
use plan_parts::{Outcome, confirm};
use shared_disk::Device;
use vol_base::{DataNo, HostNo, Next, PlainReply, Step};
use vol_layout::{Geometry, Table};

// The reply of a call that leaves the volume as it is, where the kept tables settle it.
fn settled(
    geometry: &Geometry,
    cache: &HeldCache,
    host: HostNo,
    call: &FileCall,
) -> Option<PlainReply>
    requires geometry { IsGeometry geometry.now }
    requires volume { cache.now.volume ≡ geometry.now }
    requires host { host < geometry.now.hosts }
    requires file { file_of call.now < geometry.now.files }
    requires packed { ArePacked cache.now host }
    ensures { IfSome result (λ reply. IsSight geometry.now (kept_at cache.now host) call.now (Sight.Settled reply)) }
{
    match look(geometry, cache, host, call) {
        Sight::Settled(reply) => Some(reply),
        _ => None,
    }
}

// Reads a table of the file, and keeps it. The read is the place of a call that is settled by it.
pub fn needs<D: Device>(
    core: &mut Core,
    world: &mut MetaWorld<D>,
    cache: &mut HeldCache,
    which: Table,
) -> Result<(Step, Stage), StepNo>
    requires stands { At world.old cache.old core.old Stage.Sees }
    requires sight { IsSight world.old.locks.geometry (kept_at cache.old core.old.host) core.old.call (Sight.Needs which) }
    ensures went { IfOk result (λ r. Went world.old world.new cache.new core.old core.new Stage.Sees r.0 r.1) }
    ensures sooner { IfOk result (λ r. IsSooner world.old cache.old core.old Stage.Sees world.new cache.new core.new r.0.next r.1) }
    ensures cut { IfErr result (IsCutAt world.old world.new core.old Stage.Sees) }
    ensures others { Others core.old.host world.old world.new }
    ensures leaves { LeavesOthers core.old.host cache.old cache.new }
{
    let _geometry = world.locks().geometry();
    match world.read_table(core.host, which) {
        Ok(table) => {
            let _geometry = world.locks().geometry();
            cache.keep(core.host, which, &table);
            Ok(seen(core, world, cache))
        }
        Err(why) => Err(why),
    }
}

// What comes behind the read of a table.
fn seen<D: Device>(core: &mut Core, world: &MetaWorld<D>, cache: &HeldCache) -> (Step, Stage)
    requires host { core.old.host < world.now.locks.geometry.hosts }
    requires file { file_of core.old.call < world.now.locks.geometry.files }
    requires cached { IsCached world.now cache.now core.old.host }
    ensures { IsSeen world.now.locks.geometry (kept_at cache.now core.old.host) core.old core.new result.0 result.1 }
{
    let geometry = world.locks().geometry();
    match settled(geometry, cache, core.host, &core.call) {
        Some(reply) => {
            core.outcome = Outcome::Placed(reply);
            let (next, stage) = rested(core);
            (made(Some(reply), next), stage)
        }
        None => (made(None, Next::More), Stage::Sees),
    }
}

// Looks at the lock of the file, which is the place of a call that kept tables settle.
pub fn confirms<D: Device>(
    core: &mut Core,
    world: &mut MetaWorld<D>,
    cache: &HeldCache,
    reply: PlainReply,
) -> Result<(Step, Stage), StepNo>
    requires stands { At world.old cache.now core.old Stage.Sees }
    requires sight { IsSight world.old.locks.geometry (kept_at cache.now core.old.host) core.old.call (Sight.Settled reply) }
    ensures went { IfOk result (λ r. Went world.old world.new cache.now core.old core.new Stage.Sees r.0 r.1) }
    ensures sooner { IfOk result (λ r. IsSooner world.old cache.now core.old Stage.Sees world.new cache.now core.new r.0.next r.1) }
    ensures cut { IfErr result (IsCutAt world.old world.new core.old Stage.Sees) }
    ensures others { Others core.old.host world.old world.new }
{
    let _geometry = world.locks().geometry();
    match confirm(world, core.host, core.call.file()) {
        Ok(()) => {
            let _geometry = world.locks().geometry();
            core.outcome = Outcome::Placed(reply);
            let (next, stage) = rested(core);
            Ok((made(Some(reply), next), stage))
        }
        Err(why) => Err(why),
    }
}

// Reads the data block that the call reads, which is its place.
pub fn shows<D: Device>(
    core: &mut Core,
    world: &mut MetaWorld<D>,
    cache: &HeldCache,
    number: DataNo,
) -> Result<(Step, Stage), StepNo>
    requires stands { At world.old cache.now core.old Stage.Sees }
    requires sight { IsSight world.old.locks.geometry (kept_at cache.now core.old.host) core.old.call (Sight.Shows number) }
    ensures went { IfOk result (λ r. Went world.old world.new cache.now core.old core.new Stage.Sees r.0 r.1) }
    ensures sooner { IfOk result (λ r. IsSooner world.old cache.now core.old Stage.Sees world.new cache.now core.new r.0.next r.1) }
    ensures cut { IfErr result (IsCutAt world.old world.new core.old Stage.Sees) }
    ensures others { Others core.old.host world.old world.new }
{
    let _geometry = world.locks().geometry();
    match world.read_number(core.host, number) {
        Ok(block) => {
            let _geometry = world.locks().geometry();
            let reply = PlainReply::Holds(block);
            core.outcome = Outcome::Placed(reply);
            let (next, stage) = rested(core);
            Ok((made(Some(reply), next), stage))
        }
        Err(why) => Err(why),
    }
}

// Writes the block in place, which is the place of the write.
pub fn own<D: Device>(
    core: &mut Core,
    world: &mut MetaWorld<D>,
    cache: &HeldCache,
    number: DataNo,
) -> Result<(Step, Stage), StepNo>
    requires stands { At world.old cache.now core.old Stage.Sees }
    requires sight { IsSight world.old.locks.geometry (kept_at cache.now core.old.host) core.old.call (Sight.Own number) }
    ensures went { IfOk result (λ r. Went world.old world.new cache.now core.old core.new Stage.Sees r.0 r.1) }
    ensures sooner { IfOk result (λ r. IsSooner world.old cache.now core.old Stage.Sees world.new cache.now core.new r.0.next r.1) }
    ensures cut { IfErr result (IsCutAt world.old world.new core.old Stage.Sees) }
    ensures others { Others core.old.host world.old world.new }
{
    let _geometry = world.locks().geometry();
    let file = core.call.file();
    let index = core.call.index();
    match world.write_own(core.host, file, index, number, &core.call.block()) {
        Ok(()) => {
            let _geometry = world.locks().geometry();
            core.outcome = Outcome::Placed(PlainReply::Done);
            let (next, stage) = rested(core);
            Ok((made(Some(PlainReply::Done), next), stage))
        }
        Err(why) => Err(why),
    }
}
