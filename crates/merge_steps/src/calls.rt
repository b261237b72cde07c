// One device call each.
ghost use Rattle.std.specs.Prelude.{◌≡◌, ◌<◌, IfErr, IfOk};
ghost use Rattle.host_facts.specs.Others.{Others};
ghost use Rattle.host_runs.specs.HintCauses.{empty_log};
ghost use Rattle.merge_steps.specs.Logs.{LogsRead, emptied_more, read_more};
ghost use Rattle.merge_steps.specs.Steps.{IsIndex, IsMerging, IsSwapReply, Went};
ghost use Rattle.plan_parts.specs.Cuts.{IsCut};
ghost use Rattle.shared_disk.specs.Events.{Done, Reads, Reply, Shows, Tests, Writes};
ghost use Rattle.vol_layout.specs.Places.{place_of};
ghost use Rattle.vol_layout.specs.Ranges.{HasKind, IsGeometry};

use hint_blocks::{Hints, LogEntry};
use lock_store::StepNo;
use meta_world::MetaWorld;
use shared_disk::Device;
use vol_base::{Block, HostNo};
use vol_layout::{Geometry, Kind};

/// Reads an own log block, the next one.
pub fn reads_log<D: Device>(
    world: &mut MetaWorld<D>,
    host: HostNo,
    log: u8,
) -> Result<Block, StepNo>
    requires stands { IsMerging world.old host }
    requires log { log < world.old.locks.geometry.logs }
    ensures went { IfOk result (λ block. (r : LogsRead) → r.read ≡ log → r.emptied ≡ 0 → Went host world.old world.new (Reads (place_of world.old.locks.geometry (Kind.Log host log))) (Shows block.0) r (read_more world.old.locks.geometry block.0 r)) }
    ensures cut { IfErr result (IsCut host world.old world.new) }
    ensures others { Others host world.old world.new }
{
    let geometry = *world.locks().geometry();
    world.read_hint(host, geometry.place(Kind::Log(host, log)))
}

/// Reads a shard block, or one of requests.
pub fn reads_index<D: Device>(
    world: &mut MetaWorld<D>,
    host: HostNo,
    kind: Kind,
) -> Result<Block, StepNo>
    requires stands { IsMerging world.old host }
    requires kind { IsIndex kind }
    requires has { HasKind world.old.locks.geometry kind }
    ensures went { IfOk result (λ block. (r : LogsRead) → Went host world.old world.new (Reads (place_of world.old.locks.geometry kind)) (Shows block.0) r r) }
    ensures cut { IfErr result (IsCut host world.old world.new) }
    ensures others { Others host world.old world.new }
{
    let geometry = *world.locks().geometry();
    world.read_hint(host, geometry.place(kind))
}

/// Writes a shard block, or one of requests, by test-and-set; false exactly where the block there is not `old`, and nothing is written then.
pub fn swaps_index<D: Device>(
    world: &mut MetaWorld<D>,
    host: HostNo,
    kind: Kind,
    old: &Block,
    new: &Block,
) -> Result<bool, StepNo>
    requires stands { IsMerging world.old host }
    requires kind { IsIndex kind }
    requires has { HasKind world.old.locks.geometry kind }
    ensures went { IfOk result (λ swapped. (reply : Reply) × IsSwapReply swapped reply × ((r : LogsRead) → Went host world.old world.new (Tests (place_of world.old.locks.geometry kind) old.now.0 new.now.0) reply r r)) }
    ensures cut { IfErr result (IsCut host world.old world.new) }
    ensures others { Others host world.old world.new }
{
    let geometry = *world.locks().geometry();
    world.swap_hint(host, geometry.place(kind), old, new)
}

/// Writes an own log block empty.
pub fn empties_log<D: Device>(world: &mut MetaWorld<D>, host: HostNo, log: u8) -> Result<(), StepNo>
    requires stands { IsMerging world.old host }
    requires log { log < world.old.locks.geometry.logs }
    ensures went { IfOk result (λ done. (r : LogsRead) → r.emptied ≡ log → Went host world.old world.new (Writes (place_of world.old.locks.geometry (Kind.Log host log)) empty_log) Done r (emptied_more r)) }
    ensures cut { IfErr result (IsCut host world.old world.new) }
    ensures others { Others host world.old world.new }
{
    let geometry = *world.locks().geometry();
    let block = empty_block(&geometry);
    world.write_hint(host, geometry.place(Kind::Log(host, log)), &block)
}

// The block of a log that has no entry.
fn empty_block(geometry: &Geometry) -> Block
    requires { IsGeometry geometry.now }
    ensures { result.0 ≡ empty_log }
{
    let hints: Hints<LogEntry> = Hints::empty(geometry);
    hints.into_block()
}
