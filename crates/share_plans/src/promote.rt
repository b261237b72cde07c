// A promotion as a plan.
ghost use Rattle.std.specs.Prelude.{◌≡◌, ◌≤◌, IfErr, IfOk, []};
ghost use Rattle.host_facts.specs.Others.{Others};
ghost use Rattle.plan_parts.specs.Cuts.{IsCut};
ghost use Rattle.share_plans.specs.Promotions.{At, Went, left, reached_of, result_of};
ghost use Rattle.share_plans.specs.declared.promotion.Doing.{Doing};
ghost use Rattle.vol_layout.specs.declared.kind.Table.{Table};

use crate::promoting::{closes, commits, locks_group, locks_part, reads, reads_group, reads_part};
use crate::promotion::{Doing, Promoted, Promotion, Reached};
use crate::tables::FileTables;
use lock_store::StepNo;
use meta_world::MetaWorld;
use plan_parts::Taken;
use shared_disk::Device;
use std::mem;
use vol_base::{FileNo, HostNo};
use vol_layout::Table;

/// A promotion, cut at each device call: an empty slot of the host's own part comes to name the block of a file, which is shared from then
/// on. It is a part of a larger command of its host, which holds the file.
#[derive(Drop)]
pub struct PromotePlan {
    pub core: Promotion,
    pub stage: Doing,
}

impl PromotePlan {
    /// The plan by which the block of a file at an index is promoted. No device call is made; at most thirteen steps come.
    pub fn new(host: HostNo, file: FileNo, index: u32) -> PromotePlan
        ensures core { result.core ≡ record { host = host; file = file; index = index; taken = []; tables = [] } }
        ensures stage { result.stage ≡ Doing.Reads (Table.File file) }
        ensures few { left result.core result.stage ≤ 13 }
    {
        PromotePlan {
            core: Promotion {
                host,
                file,
                index,
                taken: Taken::new(),
                tables: FileTables::new(),
            },
            stage: Doing::Reads(Table::File(file)),
        }
    }

    /// One step, which makes one device call; the answer, once there is one. A refused call cuts the command of which the promotion is
    /// a part, and the plan is at its end.
    pub fn next<D: Device>(&mut self, world: &mut MetaWorld<D>) -> Result<Option<Promoted>, StepNo>
        requires stands { At world.old self.old.core self.old.stage }
        ensures went { IfOk result (λ found. Went world.old world.new self.old.core self.new.core self.old.stage (reached_of self.new.stage found)) }
        ensures cut { IfErr result (IsCut self.old.core.host world.old world.new) }
        ensures others { Others self.old.core.host world.old world.new }
    {
        let stage = mem::replace(&mut self.stage, Doing::Over);
        match steps(&mut self.core, world, stage) {
            Ok(came) => Ok(self.comes(came)),
            Err(why) => Err(why),
        }
    }

    // What a step came to.
    fn comes(&mut self, came: Reached) -> Option<Promoted>
        ensures result { result ≡ result_of came }
        ensures core { self.new.core ≡ self.old.core }
        ensures came { reached_of self.new.stage result ≡ came }
    {
        match came {
            Reached::More(stage) => {
                self.stage = stage;
                None
            }
            Reached::Answered(answer) => {
                self.stage = Doing::Over;
                Some(answer)
            }
        }
    }
}

// One step at this stage.
fn steps<D: Device>(
    core: &mut Promotion,
    world: &mut MetaWorld<D>,
    stage: Doing,
) -> Result<Reached, StepNo>
    requires stands { At world.old core.old stage }
    ensures went { IfOk result (Went world.old world.new core.old core.new stage) }
    ensures cut { IfErr result (IsCut core.old.host world.old world.new) }
    ensures others { Others core.old.host world.old world.new }
{
    match stage {
        Doing::Reads(which) => reads(core, world, which),
        Doing::LocksPart(block) => locks_part(core, world, block),
        Doing::ReadsPart(block) => reads_part(core, world, block),
        Doing::LocksGroup(block, slot, part) => locks_group(core, world, block, slot, part),
        Doing::ReadsGroup(block, slot, part) => reads_group(core, world, block, slot, part),
        Doing::Commits(block, slot, part, group) => commits(core, world, block, slot, part, group),
        Doing::Closes(closing, answer) => closes(core, world, closing, answer),
        Doing::Over => Err(StepNo::NoMemory),
    }
}
