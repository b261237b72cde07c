// A read: the tables of the file that are not kept are read, and then its block.
ghost use Rattle.std.specs.Prelude.{◌≡◌, ◌<◌, ◌≤◌, ◌+◌, IfErr, IfOk};
ghost use Rattle.file_plans.specs.Bases.{IsCached};
ghost use Rattle.file_plans.specs.Sights.{IsSight};
ghost use Rattle.file_plans.specs.declared.call.FileCall.{FileCall};
ghost use Rattle.held_cache.specs.Kept.{kept_at};
ghost use Rattle.solo.specs.Alone.{IsAlone, LeavesDevice};
ghost use Rattle.solo.specs.Reads.{HasSeen, IsLooking, IsReadOf};
ghost use Rattle.solo.specs.Stops.{IsCause, IsCutOff};
ghost use Rattle.vol_base.specs.declared.plain.PlainCall.{PlainCall};

use file_plans::{FileCall, Sight, look};
use held_cache::HeldCache;
use lock_store::StepNo;
use meta_world::MetaWorld;
use shared_disk::Device;
use vol_base::{DataNo, FileNo, HostNo, PlainCall, PlainReply};
use vol_layout::Table;

/// The host that is alone.
pub const SOLO: HostNo = 0;

/// The reply of a read of a file that the host holds. A table that is read is kept.
pub fn reads<D: Device>(
    world: &mut MetaWorld<D>,
    cache: &mut HeldCache,
    file: FileNo,
    index: u32,
) -> Result<PlainReply, StepNo>
    requires alone { IsAlone world.old }
    requires cached { IsCached world.old cache.old 0 }
    requires file { file < world.old.locks.geometry.files }
    ensures reply { IfOk result (IsReadOf world.old file index) }
    ensures looking { IfOk result (λ reply. IsLooking world.old world.new cache.new) }
    ensures same { LeavesDevice world.old world.new }
    ensures few { world.new.locks.disk.calls ≤ world.old.locks.disk.calls + 3 }
    ensures cause { IfErr result (IsCause world.old world.new) }
{
    loop {
        match looks(world, cache, file, index) {
            Ok(found) => match found {
                Some(reply) => return Ok(reply),
                None => {}
            },
            Err(why) => return Err(why),
        }
    }
}

// One look: the reply, or one table more is kept.
fn looks<D: Device>(
    world: &mut MetaWorld<D>,
    cache: &mut HeldCache,
    file: FileNo,
    index: u32,
) -> Result<Option<PlainReply>, StepNo>
    requires alone { IsAlone world.old }
    requires cached { IsCached world.old cache.old 0 }
    requires file { file < world.old.locks.geometry.files }
    ensures looking { IfOk result (λ found. IsLooking world.old world.new cache.new) }
    ensures seen { IfOk result (HasSeen world.old world.new cache.old cache.new file index) }
    ensures cut { IfErr result (IsCutOff world.old world.new) }
{
    let call = FileCall::Plain(PlainCall::Read(file, index));
    match look(world.locks().geometry(), cache, SOLO, &call) {
        Sight::Needs(which) => needs(world, cache, file, index, which),
        Sight::Settled(reply) => Ok(Some(reply)),
        Sight::Shows(number) => shows(world, cache, file, index, number),
        _ => unreachable!(),
    }
}

// Reads a table of the file, and keeps it.
fn needs<D: Device>(
    world: &mut MetaWorld<D>,
    cache: &mut HeldCache,
    file: FileNo,
    index: u32,
    which: Table,
) -> Result<Option<PlainReply>, StepNo>
    requires alone { IsAlone world.old }
    requires cached { IsCached world.old cache.old 0 }
    requires file { file < world.old.locks.geometry.files }
    requires sight { IsSight world.old.locks.geometry (kept_at cache.old 0) (FileCall.Plain (PlainCall.Read file index)) (Sight.Needs which) }
    ensures looking { IfOk result (λ found. IsLooking world.old world.new cache.new) }
    ensures seen { IfOk result (HasSeen world.old world.new cache.old cache.new file index) }
    ensures cut { IfErr result (IsCutOff world.old world.new) }
{
    let _place = (file, index);
    let _geometry = world.locks().geometry();
    match world.read_table(SOLO, which) {
        Ok(table) => {
            cache.keep(SOLO, which, &table);
            Ok(None)
        }
        Err(why) => Err(why),
    }
}

// Reads the block that the file has at the index.
fn shows<D: Device>(
    world: &mut MetaWorld<D>,
    cache: &HeldCache,
    file: FileNo,
    index: u32,
    number: DataNo,
) -> Result<Option<PlainReply>, StepNo>
    requires alone { IsAlone world.old }
    requires cached { IsCached world.old cache.now 0 }
    requires file { file < world.old.locks.geometry.files }
    requires sight { IsSight world.old.locks.geometry (kept_at cache.now 0) (FileCall.Plain (PlainCall.Read file index)) (Sight.Shows number) }
    ensures looking { IfOk result (λ found. IsLooking world.old world.new cache.now) }
    ensures seen { IfOk result (HasSeen world.old world.new cache.now cache.now file index) }
    ensures cut { IfErr result (IsCutOff world.old world.new) }
{
    let _place = (file, index);
    let _kept = cache;
    let _geometry = world.locks().geometry();
    match world.read_number(SOLO, number) {
        Ok(block) => {
            let _geometry = world.locks().geometry();
            Ok(Some(PlainReply::Holds(block)))
        }
        Err(why) => Err(why),
    }
}
