// A slot of the arena is read, before its data block's group is locked and behind it.
ghost use Rattle.std.specs.Prelude.{◌≡◌, ◌<◌, ◌+◌, ◌^◌, IfErr, IfOk};
ghost use Rattle.host_facts.specs.Others.{Others};
ghost use Rattle.plan_parts.specs.Cuts.{IsCut};
ghost use Rattle.share_plans.specs.Stands.{At, IsArena};
ghost use Rattle.share_plans.specs.Went.{Went, behind_again, behind_peek};
ghost use Rattle.share_plans.specs.declared.sharing.Place.{Place};
ghost use Rattle.share_plans.specs.declared.stage.Stage.{Stage};

use crate::ending::ends;
use crate::sharing::{Place, Shared};
use crate::stage::{Came, Core, Pair, Stage};
use lock_store::StepNo;
use meta_world::MetaWorld;
use plan_parts::Taken;
use shared_disk::Device;
use vol_base::{DataNo, SlotNo};

/// The slot is read for the first time.
pub fn peeks<D: Device>(core: &Core, world: &mut MetaWorld<D>, own: DataNo) -> Result<Came, StepNo>
    requires stands { At world.old core.now (Stage.Peeks own) }
    ensures went { IfOk result (Went world.old world.new core.now core.now (Stage.Peeks own)) }
    ensures cut { IfErr result (IsCut core.now.host world.old world.new) }
    ensures others { Others core.now.host world.old world.new }
{
    let _geometry = world.locks().geometry();
    let came = world.peek_slot(core.host, slot_of(&core.source));
    let _geometry = world.locks().geometry();
    match came {
        Ok(number) => Ok(behind_peek(own, number)),
        Err(why) => Err(why),
    }
}

/// The slot is read again, which stays from here on.
pub fn peeks_again<D: Device>(
    core: &Core,
    world: &mut MetaWorld<D>,
    pair: Pair,
) -> Result<Came, StepNo>
    requires stands { At world.old core.now (Stage.PeeksAgain pair) }
    ensures went { IfOk result (Went world.old world.new core.now core.now (Stage.PeeksAgain pair)) }
    ensures cut { IfErr result (IsCut core.now.host world.old world.new) }
    ensures others { Others core.now.host world.old world.new }
{
    let _geometry = world.locks().geometry();
    let came = world.peek_slot(core.host, slot_of(&core.source));
    let _geometry = world.locks().geometry();
    match came {
        Ok(number) => Ok(behind_again(&core.taken, pair, number)),
        Err(why) => Err(why),
    }
}

// The slot of a source that is one.
fn slot_of(source: &Place) -> SlotNo
    requires { IsArena source.now }
    ensures { source.now ≡ Place.Arena result }
{
    match source {
        Place::Arena(slot) => *slot,
        Place::File(_, _) => unreachable!(),
    }
}

fn behind_peek(own: DataNo, number: u32) -> Came
    ensures { result ≡ behind_peek own number }
{
    if number == 0 {
        Came::Answered(Shared::NoSource)
    } else if number - 1 == own {
        Came::Answered(Shared::Already)
    } else {
        let pair = Pair {
            own,
            source: number - 1,
            shared: true,
        };
        Came::More(Stage::Locks(pair))
    }
}

fn behind_again(taken: &Taken, pair: Pair, number: u32) -> Came
    requires { pair.source + 1 < 2 ^ 32 }
    ensures { result ≡ behind_again taken.now pair number }
{
    if number == pair.source + 1 {
        Came::More(Stage::ReadsSource(pair))
    } else {
        ends(taken, Shared::NoSource)
    }
}
