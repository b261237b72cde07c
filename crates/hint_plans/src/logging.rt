// `log`: the pending hints are written to the first own log block that reads as none.
ghost use Rattle.std.specs.Prelude.{◌≡◌, ◌<◌, ◌≢◌, [], IfErr, IfOk, codes, map};
ghost use Rattle.hint_blocks.specs.Entries.{log_bytes};
ghost use Rattle.hint_blocks.specs.HintLists.{hint_block};
ghost use Rattle.hint_plans.specs.Logs.{behind_log};
ghost use Rattle.hint_plans.specs.Plans.{HasCome, IsCutAt, PlanStands};
ghost use Rattle.host_facts.specs.Others.{Others};
ghost use Rattle.host_runs.specs.HintCauses.{logged_hints};
ghost use Rattle.vol_layout.specs.Ranges.{IsGeometry};

use crate::plan::{Come, Doing};
use hint_blocks::{Hints, LogEntry};
use lock_store::StepNo;
use meta_world::MetaWorld;
use shared_disk::Device;
use std::mem;
use vol_base::{Answer, Block, HostNo};
use vol_layout::{Geometry, Kind};

/// Reads an own log block, where hints are pending.
pub(crate) fn reads_log<D: Device>(
    world: &mut MetaWorld<D>,
    pending: &Hints<LogEntry>,
    host: HostNo,
    log: u8,
) -> Result<Come, StepNo>
    requires stands { PlanStands world.old host pending.now (Doing.ReadsLog log) }
    ensures came { IfOk result (HasCome host world.old world.new pending.now pending.now (Doing.ReadsLog log)) }
    ensures cut { IfErr result (IsCutAt host world.old world.new pending.now.entries (Doing.ReadsLog log)) }
    ensures some { IfErr result (λ why. pending.now.entries ≢ []) }
    ensures others { Others host world.old world.new }
{
    if pending.count() == 0 {
        Ok(unlogged(world, pending, host, log))
    } else {
        looks(world, pending, host, log)
    }
}

// No hint is pending, so none is logged.
fn unlogged<D: Device>(
    world: &MetaWorld<D>,
    pending: &Hints<LogEntry>,
    host: HostNo,
    log: u8,
) -> Come
    requires stands { PlanStands world.now host pending.now (Doing.ReadsLog log) }
    requires none { pending.now.entries ≡ [] }
    ensures { HasCome host world.now world.now pending.now pending.now (Doing.ReadsLog log) result }
{
    let _pending = pending;
    let _host = host;
    let _log = log;
    let _geometry = world.locks().geometry();
    Come::Uncalled(Answer::Logged(0))
}

// Some are, so the block is read.
fn looks<D: Device>(
    world: &mut MetaWorld<D>,
    pending: &Hints<LogEntry>,
    host: HostNo,
    log: u8,
) -> Result<Come, StepNo>
    requires stands { PlanStands world.old host pending.now (Doing.ReadsLog log) }
    requires some { pending.now.entries ≢ [] }
    ensures came { IfOk result (HasCome host world.old world.new pending.now pending.now (Doing.ReadsLog log)) }
    ensures cut { IfErr result (IsCutAt host world.old world.new pending.now.entries (Doing.ReadsLog log)) }
    ensures others { Others host world.old world.new }
{
    let _pending = pending;
    let geometry = *world.locks().geometry();
    let read = world.read_hint(host, geometry.place(Kind::Log(host, log)));
    let _geometry = world.locks().geometry();
    match read {
        Ok(block) => Ok(behind_log(&block, &geometry, log)),
        Err(why) => Err(why),
    }
}

// What comes behind the read of a log block.
fn behind_log(block: &Block, geometry: &Geometry, log: u8) -> Come
    requires geometry { IsGeometry geometry.now }
    requires log { log < geometry.now.logs }
    ensures { result ≡ behind_log geometry.now log (logged_hints geometry.now block.now.0) }
{
    let hints: Hints<LogEntry> = Hints::of(block, geometry);
    if hints.count() == 0 {
        Come::More(Doing::WritesLog(log))
    } else if log + 1 < geometry.logs {
        Come::More(Doing::ReadsLog(log + 1))
    } else {
        Come::Answered(Answer::Logged(0))
    }
}

/// Writes the pending hints over an own log block that read as none; behind it none is pending.
pub(crate) fn writes_log<D: Device>(
    world: &mut MetaWorld<D>,
    pending: &mut Hints<LogEntry>,
    host: HostNo,
    log: u8,
) -> Result<Come, StepNo>
    requires stands { PlanStands world.old host pending.old (Doing.WritesLog log) }
    ensures came { IfOk result (HasCome host world.old world.new pending.old pending.new (Doing.WritesLog log)) }
    ensures cut { IfErr result (IsCutAt host world.old world.new pending.old.entries (Doing.WritesLog log)) }
    ensures others { Others host world.old world.new }
{
    let geometry = *world.locks().geometry();
    let count = pending.count();
    let block = take_out(pending, &geometry);
    let wrote = world.write_hint(host, geometry.place(Kind::Log(host, log)), &block);
    let _geometry = world.locks().geometry();
    match wrote {
        Ok(()) => Ok(Come::Answered(Answer::Logged(count))),
        Err(why) => Err(why),
    }
}

// All pending hints as the block of a log; none is pending any more.
fn take_out(pending: &mut Hints<LogEntry>, geometry: &Geometry) -> Block
    requires { IsGeometry geometry.now }
    ensures block { result.0 ≡ hint_block (codes "DEDELOGS") (map log_bytes pending.old.entries) }
    ensures none { pending.new ≡ record { geometry = geometry.now; entries = [] } }
{
    let hints = mem::replace(pending, Hints::empty(geometry));
    hints.into_block()
}
