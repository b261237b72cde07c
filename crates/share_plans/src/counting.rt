// The counts of the two data blocks are read, in the order of their locks.
ghost use Rattle.std.specs.Prelude.{◌≡◌, IfErr, IfOk};
ghost use Rattle.host_facts.specs.Others.{Others};
ghost use Rattle.plan_parts.specs.Cuts.{IsCut};
ghost use Rattle.share_plans.specs.Stands.{At};
ghost use Rattle.share_plans.specs.Went.{Went, behind_counts};
ghost use Rattle.share_plans.specs.declared.stage.Stage.{Stage};

use crate::stage::{Came, Core, Pair, Stage};
use lock_store::StepNo;
use meta_world::MetaWorld;
use plan_parts::{Kept, fetch};
use shared_disk::Device;
use vol_layout::{Field, PER_TABLE};

/// The table of the group of the place's data block is read.
pub fn counts_own<D: Device>(
    core: &Core,
    world: &mut MetaWorld<D>,
    pair: Pair,
) -> Result<Came, StepNo>
    requires stands { At world.old core.now (Stage.CountsOwn pair) }
    ensures went { IfOk result (Went world.old world.new core.now core.now (Stage.CountsOwn pair)) }
    ensures cut { IfErr result (IsCut core.now.host world.old world.new) }
    ensures others { Others core.now.host world.old world.new }
{
    let which = world.locks().geometry().table_of(&Field::Count(pair.own));
    let came = fetch(world, core.host, which);
    let _geometry = world.locks().geometry();
    match came {
        Ok(kept) => Ok(behind_counts(pair, kept)),
        Err(why) => Err(why),
    }
}

/// That of the source's data block is read, which is another one.
pub fn counts_source<D: Device>(
    core: &Core,
    world: &mut MetaWorld<D>,
    pair: Pair,
    group: Kept,
) -> Result<Came, StepNo>
    requires stands { At world.old core.now (Stage.CountsSource pair group) }
    ensures went { IfOk result (Went world.old world.new core.now core.now (Stage.CountsSource pair group)) }
    ensures cut { IfErr result (IsCut core.now.host world.old world.new) }
    ensures others { Others core.now.host world.old world.new }
{
    let which = world
        .locks()
        .geometry()
        .table_of(&Field::Count(pair.source));
    let came = fetch(world, core.host, which);
    let _geometry = world.locks().geometry();
    match came {
        Ok(kept) => Ok(Came::More(Stage::Commits(pair, group, Some(kept)))),
        Err(why) => Err(why),
    }
}

// What comes behind the first table.
#[tactic(auto, unfolding(vol_layout::specs::Ranges::per_table))]
fn behind_counts(pair: Pair, group: Kept) -> Came
    ensures { result ≡ behind_counts pair group }
{
    if pair.own / PER_TABLE == pair.source / PER_TABLE {
        Came::More(Stage::Commits(pair, group, None))
    } else {
        Came::More(Stage::CountsSource(pair, group))
    }
}
