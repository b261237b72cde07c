// The host's own log blocks: they are read in order, and at last those that had entries are written empty.
ghost use Rattle.std.specs.Prelude.{◌≡◌, ◌<◌, ◌≤◌, ◌*◌, All, IfErr, IfOk, length};
ghost use Rattle.hint_blocks.specs.Entries.{IsLogEntry};
ghost use Rattle.host_facts.specs.Others.{Others};
ghost use Rattle.merge_plan.specs.Followings.{IsBehindLog, IsLogNoted, behind_emptied};
ghost use Rattle.merge_plan.specs.Plans.{PlanStands};
ghost use Rattle.merge_plan.specs.Steps.{Went};
ghost use Rattle.merge_plan.specs.declared.plan.Doing.{Doing};
ghost use Rattle.merge_shelves.specs.Rooms.{log_entries};
ghost use Rattle.plan_parts.specs.Cuts.{IsCut};
ghost use Rattle.vol_layout.specs.Ranges.{IsGeometry};

use crate::following::{next_filled, opens};
use crate::plan::{Come, Doing};
use crate::room::MergeRoom;
use hint_blocks::{Hints, LogEntry};
use lock_store::StepNo;
use merge_shelves::shelves;
use merge_steps::{empties_log, reads_log};
use meta_world::MetaWorld;
use shared_disk::Device;
use vol_base::{Answer, Block, HostNo};
use vol_layout::Geometry;

/// The first own log block is read, into an empty room.
#[tactic(none)]
pub(crate) fn begins<D: Device>(
    world: &mut MetaWorld<D>,
    host: HostNo,
    room: &mut MergeRoom,
) -> Result<Come, StepNo>
    requires stands { PlanStands world.old host room.old Doing.Begins }
    ensures went { IfOk result (Went host world.old world.new room.old room.new Doing.Begins) }
    ensures cut { IfErr result (IsCut host world.old world.new) }
    ensures others { Others host world.old world.new }
{
    room.clear(world.locks().geometry());
    reads(world, host, room, 0)
}

/// An own log block is read.
#[tactic(none)]
pub(crate) fn reads<D: Device>(
    world: &mut MetaWorld<D>,
    host: HostNo,
    room: &mut MergeRoom,
    log: u8,
) -> Result<Come, StepNo>
    requires stands { PlanStands world.old host room.old (Doing.ReadsLog log) }
    ensures went { IfOk result (Went host world.old world.new room.old room.new (Doing.ReadsLog log)) }
    ensures cut { IfErr result (IsCut host world.old world.new) }
    ensures others { Others host world.old world.new }
{
    let geometry = *world.locks().geometry();
    let read = reads_log(world, host, log);
    let _geometry = world.locks().geometry();
    match read {
        Ok(block) => {
            notes(room, &block, log, &geometry);
            Ok(behind_log(room, &geometry, log))
        }
        Err(why) => Err(why),
    }
}

// The entries of a log block.
fn notes(room: &mut MergeRoom, block: &Block, log: u8, geometry: &Geometry)
    requires geometry { IsGeometry geometry.now }
    requires log { log < 16 }
    requires room { length room.old.logs ≤ 126 * log }
    ensures noted { IsLogNoted geometry.now log block.now room.old room.new }
    ensures few { length (log_entries geometry.now block.now.0) ≤ 126 }
    ensures range { All (IsLogEntry geometry.now) (log_entries geometry.now block.now.0) }
{
    let hints: Hints<LogEntry> = Hints::of(block, geometry);
    room.logs.note(block, log, geometry);
    room.filled[log as usize] = hints.count() > 0;
}

// The next own log block comes; behind the last one the entries are sorted, and the first shelf comes that one belongs to. Where there is no entry the
// merge is answered.
fn behind_log(room: &mut MergeRoom, geometry: &Geometry, log: u8) -> Come
    requires geometry { IsGeometry geometry.now }
    requires log { log < geometry.now.logs }
    requires begun { room.old.sweep.at ≡ 0 }
    ensures { IsBehindLog geometry.now log room.old room.new result }
{
    if log + 1 < geometry.logs {
        return Come::More(Doing::ReadsLog(log + 1));
    }
    room.logs.order(shelves(geometry));
    if room.logs.count() == 0 {
        return Come::Answered(Answer::Merged(room.sweep.counts));
    }
    Come::More(opens(room, geometry))
}

/// An own log block that had entries is written empty.
#[tactic(none)]
pub(crate) fn empties<D: Device>(
    world: &mut MetaWorld<D>,
    host: HostNo,
    room: &MergeRoom,
    log: u8,
) -> Result<Come, StepNo>
    requires stands { PlanStands world.old host room.now (Doing.EmptiesLog log) }
    ensures went { IfOk result (Went host world.old world.new room.now room.now (Doing.EmptiesLog log)) }
    ensures cut { IfErr result (IsCut host world.old world.new) }
    ensures others { Others host world.old world.new }
{
    let geometry = *world.locks().geometry();
    let emptied = empties_log(world, host, log);
    let _geometry = world.locks().geometry();
    match emptied {
        Ok(_emptied) => Ok(behind_emptied(room, next_filled(&room.filled, log + 1, geometry.logs))),
        Err(why) => Err(why),
    }
}

// The next one comes; behind the last one the merge is answered.
fn behind_emptied(room: &MergeRoom, next: Option<u8>) -> Come
    ensures { result ≡ behind_emptied room.now.sweep.counts next }
{
    match next {
        Some(log) => Come::More(Doing::EmptiesLog(log)),
        None => Come::Answered(Answer::Merged(room.sweep.counts)),
    }
}
