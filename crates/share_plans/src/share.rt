// Compare-and-share as a plan.
ghost use Rattle.std.specs.Prelude.{◌≡◌, ◌≤◌, IfErr, IfOk, []};
ghost use Rattle.host_facts.specs.Others.{Others};
ghost use Rattle.plan_parts.specs.Cuts.{IsCut};
ghost use Rattle.share_plans.specs.Lefts.{left};
ghost use Rattle.share_plans.specs.Stands.{At};
ghost use Rattle.share_plans.specs.Went.{Went, came_of, result_of};
ghost use Rattle.share_plans.specs.declared.stage.Stage.{Stage};
ghost use Rattle.vol_layout.specs.declared.kind.Table.{Table};

use crate::comparing::{reads_own, reads_source};
use crate::counting::{counts_own, counts_source};
use crate::ending::closes;
use crate::linking::commits;
use crate::locking::{locks, locks_source};
use crate::peeking::{peeks, peeks_again};
use crate::reading::reads;
use crate::sharing::{Place, Shared};
use crate::stage::{Came, Core, Stage};
use crate::tables::FileTables;
use lock_store::StepNo;
use meta_world::MetaWorld;
use plan_parts::Taken;
use shared_disk::Device;
use std::mem;
use vol_base::{FileNo, HostNo};
use vol_layout::Table;

/// A compare-and-share, cut at each device call. It is a part of a larger command of its host, which holds the file, and the source's file
/// where the source is one.
#[derive(Drop)]
pub struct SharePlan {
    pub core: Core,
    pub stage: Stage,
}

impl SharePlan {
    /// The plan by which the block of a file at an index comes to share its place with the source. No device call is made; at most
    /// eighteen steps come.
    pub fn new(host: HostNo, file: FileNo, index: u32, source: Place) -> SharePlan
        ensures core { result.core ≡ record { host = host; file = file; index = index; source = source; taken = []; tables = [] } }
        ensures stage { result.stage ≡ Stage.Reads (Table.File file) }
        ensures few { left result.core result.stage ≤ 18 }
    {
        SharePlan {
            core: Core {
                host,
                file,
                index,
                source,
                taken: Taken::new(),
                tables: FileTables::new(),
            },
            stage: Stage::Reads(Table::File(file)),
        }
    }

    /// One step, which makes one device call; the answer, once there is one. A refused call cuts the command of which the share is a
    /// part, and the plan is at its end.
    pub fn next<D: Device>(&mut self, world: &mut MetaWorld<D>) -> Result<Option<Shared>, StepNo>
        requires stands { At world.old self.old.core self.old.stage }
        ensures went { IfOk result (λ answer. Went world.old world.new self.old.core self.new.core self.old.stage (came_of self.new.stage answer)) }
        ensures cut { IfErr result (IsCut self.old.core.host world.old world.new) }
        ensures others { Others self.old.core.host world.old world.new }
    {
        let stage = mem::replace(&mut self.stage, Stage::Over);
        match steps(&mut self.core, world, stage) {
            Ok(came) => Ok(self.comes(came)),
            Err(why) => Err(why),
        }
    }

    // What a step came to.
    fn comes(&mut self, came: Came) -> Option<Shared>
        ensures result { result ≡ result_of came }
        ensures core { self.new.core ≡ self.old.core }
        ensures came { came_of self.new.stage result ≡ came }
    {
        match came {
            Came::More(stage) => {
                self.stage = stage;
                None
            }
            Came::Answered(answer) => {
                self.stage = Stage::Over;
                Some(answer)
            }
        }
    }
}

// One step at this stage.
fn steps<D: Device>(core: &mut Core, world: &mut MetaWorld<D>, stage: Stage) -> Result<Came, StepNo>
    requires stands { At world.old core.old stage }
    ensures went { IfOk result (Went world.old world.new core.old core.new stage) }
    ensures cut { IfErr result (IsCut core.old.host world.old world.new) }
    ensures others { Others core.old.host world.old world.new }
{
    match stage {
        Stage::Reads(which) => reads(core, world, which),
        Stage::Peeks(own) => peeks(core, world, own),
        Stage::Locks(pair) => locks(core, world, pair),
        Stage::LocksSource(pair) => locks_source(core, world, pair),
        Stage::PeeksAgain(pair) => peeks_again(core, world, pair),
        Stage::ReadsSource(pair) => reads_source(core, world, pair),
        Stage::ReadsOwn(pair, block) => reads_own(core, world, pair, block),
        Stage::CountsOwn(pair) => counts_own(core, world, pair),
        Stage::CountsSource(pair, group) => counts_source(core, world, pair, group),
        Stage::Commits(pair, group, other) => commits(core, world, pair, group, other),
        Stage::Closes(closing, answer) => closes(core, world, closing, answer),
        Stage::Over => Err(StepNo::NoMemory),
    }
}
