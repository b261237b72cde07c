// What comes once the answer of a share is known.
ghost use Rattle.std.specs.Prelude.{◌≡◌, IfErr, IfOk};
ghost use Rattle.host_facts.specs.Others.{Others};
ghost use Rattle.plan_parts.specs.Cuts.{IsCut};
ghost use Rattle.share_plans.specs.Stands.{At};
ghost use Rattle.share_plans.specs.Went.{Went, closed_by, ended_by};
ghost use Rattle.share_plans.specs.declared.stage.Stage.{Stage};

use crate::closing::{Closing, rested};
use crate::sharing::Shared;
use crate::stage::{Came, Core, Stage};
use lock_store::StepNo;
use meta_world::MetaWorld;
use plan_parts::Taken;
use shared_disk::Device;

/// One step towards the end of the transaction.
pub fn closes<D: Device>(
    core: &mut Core,
    world: &mut MetaWorld<D>,
    closing: Closing,
    answer: Shared,
) -> Result<Came, StepNo>
    requires stands { At world.old core.old (Stage.Closes closing answer) }
    ensures went { IfOk result (Went world.old world.new core.old core.new (Stage.Closes closing answer)) }
    ensures cut { IfErr result (IsCut core.old.host world.old world.new) }
    ensures others { Others core.old.host world.old world.new }
{
    let came = closing.next(world, core.host, &mut core.taken);
    match came {
        Ok(next) => Ok(closed(next, answer)),
        Err(why) => Err(why),
    }
}

/// What comes behind a step by which the answer is known and no record stands: the locks that were taken are freed first.
pub fn ends(taken: &Taken, answer: Shared) -> Came
    ensures { result ≡ ended_by taken.now answer }
{
    closed(rested(taken), answer)
}

// What comes next, by what is left of the transaction.
fn closed(next: Option<Closing>, answer: Shared) -> Came
    ensures { result ≡ closed_by next answer }
{
    match next {
        None => Came::Answered(answer),
        Some(closing) => Came::More(Stage::Closes(closing, answer)),
    }
}
