// `scan`: the blocks of a file are read, and each of their digests becomes a pending hint.
ghost use Rattle.std.specs.Prelude.{◌≡◌, ◌≢◌, ◌<◌, IfErr, IfOk, length, true};
ghost use Rattle.hint_blocks.specs.Entries.{IsPlace};
ghost use Rattle.hint_plans.specs.Nexts.{behind_hold, hinted};
ghost use Rattle.hint_plans.specs.Plans.{HasCome, IsCutAt, MayHint, PlanStands};
ghost use Rattle.host_facts.specs.Others.{Others};
ghost use Rattle.lock_store.specs.Memories.{holds};
ghost use Rattle.lock_store.specs.Views.{host_at};
ghost use Rattle.vol_layout.specs.declared.kind.Resource.{Resource};

use crate::plan::{Come, Doing};
use crate::scan::{Scan, behind_scan, covered, first_scan, look};
use hint_blocks::{Hints, LogEntry};
use lock_store::StepNo;
use meta_world::MetaWorld;
use plan_parts::{TakeWrite, Taking, fetch};
use shared_disk::Device;
use vol_base::{Answer, Digest, FileNo, HostNo};
use vol_layout::{Field, PER_TABLE, Resource, Table};

/// The first step: a host that lacks the hold tries for it.
pub(crate) fn begins<D: Device>(
    world: &mut MetaWorld<D>,
    pending: &Hints<LogEntry>,
    host: HostNo,
    file: FileNo,
    index: u32,
) -> Result<Come, StepNo>
    requires stands { PlanStands world.old host pending.now (Doing.BeginsScan file index) }
    ensures came { IfOk result (HasCome host world.old world.new pending.now pending.now (Doing.BeginsScan file index)) }
    ensures cut { IfErr result (IsCutAt host world.old world.new pending.now.entries (Doing.BeginsScan file index)) }
    ensures others { Others host world.old world.new }
{
    let _geometry = world.locks().geometry();
    if world.locks().holds(host, Resource::File(file)) {
        reads_head(world, pending, host, file, index)
    } else {
        let taking = TakeWrite::new(world, host, file);
        holds_file(world, pending, host, file, index, taking)
    }
}

/// One step towards the hold.
pub(crate) fn holds_file<D: Device>(
    world: &mut MetaWorld<D>,
    pending: &Hints<LogEntry>,
    host: HostNo,
    file: FileNo,
    index: u32,
    taking: TakeWrite,
) -> Result<Come, StepNo>
    requires stands { PlanStands world.old host pending.now (Doing.HoldsFile file index taking) }
    ensures came { IfOk result (HasCome host world.old world.new pending.now pending.now (Doing.HoldsFile file index taking)) }
    ensures cut { IfErr result (IsCutAt host world.old world.new pending.now.entries (Doing.HoldsFile file index taking)) }
    ensures others { Others host world.old world.new }
{
    let _pending = pending;
    let _geometry = world.locks().geometry();
    let came = taking.next(world, host, file);
    let _geometry = world.locks().geometry();
    match came {
        Ok(taken) => Ok(behind_hold(file, index, taken)),
        Err(why) => Err(why),
    }
}

// What comes behind it.
fn behind_hold(file: FileNo, index: u32, taken: Taking<TakeWrite>) -> Come
    ensures { result ≡ behind_hold file index taken }
{
    match taken {
        Taking::More(next) => Come::More(Doing::HoldsFile(file, index, next)),
        Taking::Taken => Come::More(Doing::ReadsHead(file, index)),
        Taking::Busy(key) => Come::Answered(Answer::Busy(key)),
    }
}

/// The first table block of the file is read.
pub(crate) fn reads_head<D: Device>(
    world: &mut MetaWorld<D>,
    pending: &Hints<LogEntry>,
    host: HostNo,
    file: FileNo,
    index: u32,
) -> Result<Come, StepNo>
    requires stands { PlanStands world.old host pending.now (Doing.ReadsHead file index) }
    ensures came { IfOk result (HasCome host world.old world.new pending.now pending.now (Doing.ReadsHead file index)) }
    ensures cut { IfErr result (IsCutAt host world.old world.new pending.now.entries (Doing.ReadsHead file index)) }
    ensures others { Others host world.old world.new }
{
    let _pending = pending;
    let _geometry = world.locks().geometry();
    let read = fetch(world, host, Table::File(file));
    let _geometry = world.locks().geometry();
    match read {
        Ok(kept) => Ok(behind_scan(first_scan(&kept.table, file, index))),
        Err(why) => Err(why),
    }
}

/// The next table block is read that has a pointer below the length.
pub(crate) fn reads_table<D: Device>(
    world: &mut MetaWorld<D>,
    pending: &Hints<LogEntry>,
    host: HostNo,
    scan: Scan,
) -> Result<Come, StepNo>
    requires stands { PlanStands world.old host pending.now (Doing.ReadsTable scan) }
    ensures came { IfOk result (HasCome host world.old world.new pending.now pending.now (Doing.ReadsTable scan)) }
    ensures cut { IfErr result (IsCutAt host world.old world.new pending.now.entries (Doing.ReadsTable scan)) }
    ensures others { Others host world.old world.new }
{
    let _pending = pending;
    let geometry = *world.locks().geometry();
    let at = scan.index + scan.looked;
    let which = geometry.table_of(&Field::Pointer(scan.file, at));
    let read = fetch(world, host, which);
    let _geometry = world.locks().geometry();
    match read {
        Ok(kept) => {
            let mut scan = scan;
            let upto = covered(scan.index, scan.many, at / PER_TABLE);
            look(&mut scan, &kept.table, upto);
            Ok(behind_scan(scan))
        }
        Err(why) => Err(why),
    }
}

/// The next block is read, or all were scanned.
pub(crate) fn reads_block<D: Device>(
    world: &mut MetaWorld<D>,
    pending: &Hints<LogEntry>,
    host: HostNo,
    scan: Scan,
) -> Result<Come, StepNo>
    requires stands { PlanStands world.old host pending.now (Doing.ReadsBlock scan) }
    ensures came { IfOk result (HasCome host world.old world.new pending.now pending.now (Doing.ReadsBlock scan)) }
    ensures cut { IfErr result (IsCutAt host world.old world.new pending.now.entries (Doing.ReadsBlock scan)) }
    ensures others { Others host world.old world.new }
{
    let count = scan.found.count();
    if scan.done == count {
        Ok(scanned(world, pending, host, scan, count))
    } else {
        reads_next(world, pending, host, scan)
    }
}

// All were scanned, and the digest of the last one is handed in: no call is left.
fn scanned<D: Device>(
    world: &MetaWorld<D>,
    pending: &Hints<LogEntry>,
    host: HostNo,
    scan: Scan,
    count: u32,
) -> Come
    requires stands { PlanStands world.now host pending.now (Doing.ReadsBlock scan) }
    requires all { scan.done ≡ count }
    requires count { count ≡ length scan.found }
    ensures { HasCome host world.now world.now pending.now pending.now (Doing.ReadsBlock scan) result }
{
    let _pending = pending;
    let _host = host;
    let _scan = scan;
    let _geometry = world.locks().geometry();
    Come::Uncalled(Answer::Scanned(count))
}

// The next one is read.
fn reads_next<D: Device>(
    world: &mut MetaWorld<D>,
    pending: &Hints<LogEntry>,
    host: HostNo,
    scan: Scan,
) -> Result<Come, StepNo>
    requires stands { PlanStands world.old host pending.now (Doing.ReadsBlock scan) }
    requires some { scan.done ≢ length scan.found }
    ensures came { IfOk result (HasCome host world.old world.new pending.now pending.now (Doing.ReadsBlock scan)) }
    ensures cut { IfErr result (IsCutAt host world.old world.new pending.now.entries (Doing.ReadsBlock scan)) }
    ensures others { Others host world.old world.new }
{
    let _pending = pending;
    let _geometry = world.locks().geometry();
    let next = scan.found.get(scan.done);
    let read = world.read_number(host, next.number);
    let _geometry = world.locks().geometry();
    match read {
        Ok(block) => Ok(Come::More(Doing::AsksBlock(scan, block))),
        Err(why) => Err(why),
    }
}

/// The digest of the block that was read goes into a pending hint.
pub(crate) fn hints_block(scan: &Scan, digest: Digest, pending: &mut Hints<LogEntry>)
    requires { MayHint pending.old.geometry scan.now }
    ensures { pending.new ≡ hinted scan.now digest pending.old }
{
    let block = scan.found.get(scan.done);
    pending.push_over(LogEntry {
        digest,
        file: scan.file,
        index: block.index,
    });
}
