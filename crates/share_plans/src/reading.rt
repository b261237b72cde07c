// The tables of the files are read, one a step, until they say what the places have.
ghost use Rattle.std.specs.Prelude.{◌≡◌, IfErr, IfOk};
ghost use Rattle.host_facts.specs.Others.{Others};
ghost use Rattle.plan_parts.specs.Cuts.{IsCut};
ghost use Rattle.share_plans.specs.Stands.{At};
ghost use Rattle.share_plans.specs.Went.{Went, behind_look};
ghost use Rattle.share_plans.specs.declared.stage.Stage.{Stage};

use crate::sight::{Sight, look};
use crate::stage::{Came, Core, Stage};
use lock_store::StepNo;
use meta_world::MetaWorld;
use plan_parts::fetch;
use shared_disk::Device;
use vol_layout::Table;

/// A table is read.
pub fn reads<D: Device>(
    core: &mut Core,
    world: &mut MetaWorld<D>,
    which: Table,
) -> Result<Came, StepNo>
    requires stands { At world.old core.old (Stage.Reads which) }
    ensures went { IfOk result (Went world.old world.new core.old core.new (Stage.Reads which)) }
    ensures cut { IfErr result (IsCut core.old.host world.old world.new) }
    ensures others { Others core.old.host world.old world.new }
{
    let _geometry = world.locks().geometry();
    let came = fetch(world, core.host, which);
    let geometry = world.locks().geometry();
    match came {
        Ok(kept) => {
            core.tables.push(kept);
            Ok(behind_look(look(geometry, &core.tables, core.file, core.index, &core.source)))
        }
        Err(why) => Err(why),
    }
}

// What comes next.
fn behind_look(sight: Sight) -> Came
    ensures { result ≡ behind_look sight }
{
    match sight {
        Sight::Needs(which) => Came::More(Stage::Reads(which)),
        Sight::Answers(answer) => Came::Answered(answer),
        Sight::Peeks(own) => Came::More(Stage::Peeks(own)),
        Sight::Pairs(pair) => Came::More(Stage::Locks(pair)),
    }
}
