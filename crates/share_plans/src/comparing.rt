// The two data blocks are read under the locks of their groups, and compared.
ghost use Rattle.std.specs.Prelude.{◌≡◌, IfErr, IfOk, IfSome, IsNone};
ghost use Rattle.host_facts.specs.Others.{Others};
ghost use Rattle.plan_parts.specs.Cuts.{IsCut};
ghost use Rattle.share_plans.specs.Causes.{IsApartAt};
ghost use Rattle.share_plans.specs.Stands.{At};
ghost use Rattle.share_plans.specs.Went.{Went, behind_compare};
ghost use Rattle.share_plans.specs.declared.stage.Stage.{Stage};

use crate::ending::ends;
use crate::sharing::Shared;
use crate::stage::{Came, Core, Pair, Stage};
use lock_store::StepNo;
use meta_world::MetaWorld;
use plan_parts::Taken;
use shared_disk::Device;
use vol_base::Block;

/// The source's data block is read.
pub fn reads_source<D: Device>(
    core: &Core,
    world: &mut MetaWorld<D>,
    pair: Pair,
) -> Result<Came, StepNo>
    requires stands { At world.old core.now (Stage.ReadsSource pair) }
    ensures went { IfOk result (Went world.old world.new core.now core.now (Stage.ReadsSource pair)) }
    ensures cut { IfErr result (IsCut core.now.host world.old world.new) }
    ensures others { Others core.now.host world.old world.new }
{
    let _geometry = world.locks().geometry();
    let came = world.read_number(core.host, pair.source);
    let _geometry = world.locks().geometry();
    match came {
        Ok(block) => Ok(Came::More(Stage::ReadsOwn(pair, block))),
        Err(why) => Err(why),
    }
}

/// The place's data block is read, and compared with the source's.
pub fn reads_own<D: Device>(
    core: &Core,
    world: &mut MetaWorld<D>,
    pair: Pair,
    source: Block,
) -> Result<Came, StepNo>
    requires stands { At world.old core.now (Stage.ReadsOwn pair source) }
    ensures went { IfOk result (Went world.old world.new core.now core.now (Stage.ReadsOwn pair source)) }
    ensures cut { IfErr result (IsCut core.now.host world.old world.new) }
    ensures others { Others core.now.host world.old world.new }
{
    let _geometry = world.locks().geometry();
    let came = world.read_number(core.host, pair.own);
    let _geometry = world.locks().geometry();
    match came {
        Ok(block) => Ok(behind_compare(&core.taken, pair, first_apart(&block, &source))),
        Err(why) => Err(why),
    }
}

fn behind_compare(taken: &Taken, pair: Pair, apart: Option<u32>) -> Came
    ensures { result ≡ behind_compare taken.now pair apart }
{
    match apart {
        Some(at) => ends(taken, Shared::Differs(at)),
        None => Came::More(Stage::CountsOwn(pair)),
    }
}

// The first place at which two blocks differ.
fn first_apart(one: &Block, other: &Block) -> Option<u32>
    ensures some { IfSome result (IsApartAt one.now.0 other.now.0) }
    ensures none { IsNone result → one.now.0 ≡ other.now.0 }
{
    for at in 0..4096u32 {
        if one.0[at as usize] != other.0[at as usize] {
            return Some(at);
        }
    }
    None
}
