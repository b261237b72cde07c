// The groups of the two data blocks are locked, that of the place's own one first.
ghost use Rattle.std.specs.Prelude.{◌≡◌, IfErr, IfOk};
ghost use Rattle.host_facts.specs.Others.{Others};
ghost use Rattle.plan_parts.specs.Cuts.{IsCut};
ghost use Rattle.share_plans.specs.Stands.{At};
ghost use Rattle.share_plans.specs.Went.{Went, behind_first, behind_locks};
ghost use Rattle.share_plans.specs.declared.stage.Stage.{Stage};

use crate::ending::ends;
use crate::sharing::{Place, Shared};
use crate::stage::{Came, Core, Pair, Stage};
use lock_store::StepNo;
use meta_world::MetaWorld;
use shared_disk::Device;
use vol_layout::{Field, PER_TABLE};

/// The group of the place's data block is locked.
pub fn locks<D: Device>(
    core: &mut Core,
    world: &mut MetaWorld<D>,
    pair: Pair,
) -> Result<Came, StepNo>
    requires stands { At world.old core.old (Stage.Locks pair) }
    ensures went { IfOk result (Went world.old world.new core.old core.new (Stage.Locks pair)) }
    ensures cut { IfErr result (IsCut core.old.host world.old world.new) }
    ensures others { Others core.old.host world.old world.new }
{
    let what = world
        .locks()
        .geometry()
        .resource_of(&Field::Count(pair.own));
    let came = core.taken.take(world, core.host, what);
    let _geometry = world.locks().geometry();
    match came {
        Ok(busy) => match busy {
            None => Ok(behind_first(&core.source, pair)),
            Some(key) => Ok(ends(&core.taken, Shared::Busy(key))),
        },
        Err(why) => Err(why),
    }
}

/// The group of the source's data block is locked, which is another one.
pub fn locks_source<D: Device>(
    core: &mut Core,
    world: &mut MetaWorld<D>,
    pair: Pair,
) -> Result<Came, StepNo>
    requires stands { At world.old core.old (Stage.LocksSource pair) }
    ensures went { IfOk result (Went world.old world.new core.old core.new (Stage.LocksSource pair)) }
    ensures cut { IfErr result (IsCut core.old.host world.old world.new) }
    ensures others { Others core.old.host world.old world.new }
{
    let what = world
        .locks()
        .geometry()
        .resource_of(&Field::Count(pair.source));
    let came = core.taken.take(world, core.host, what);
    let _geometry = world.locks().geometry();
    match came {
        Ok(busy) => match busy {
            None => Ok(behind_locks(&core.source, pair)),
            Some(key) => Ok(ends(&core.taken, Shared::Busy(key))),
        },
        Err(why) => Err(why),
    }
}

// What comes behind the first lock.
#[tactic(auto, unfolding(vol_layout::specs::Ranges::per_table))]
fn behind_first(source: &Place, pair: Pair) -> Came
    ensures { result ≡ behind_first source.now pair }
{
    if pair.own / PER_TABLE == pair.source / PER_TABLE {
        behind_locks(source, pair)
    } else {
        Came::More(Stage::LocksSource(pair))
    }
}

// What comes behind the last one.
fn behind_locks(source: &Place, pair: Pair) -> Came
    ensures { result ≡ behind_locks source.now pair }
{
    match source {
        Place::File(_, _) => Came::More(Stage::ReadsSource(pair)),
        Place::Arena(_) => Came::More(Stage::PeeksAgain(pair)),
    }
}
