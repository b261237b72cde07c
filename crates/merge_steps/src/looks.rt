// What stands at the place of an entry: its tables are read, and its block.
ghost use Rattle.std.specs.Prelude.{◌≡◌, ◌<◌, IfErr, IfOk, true};
ghost use Rattle.host_facts.specs.Facts.Fact.{BlockIs, TableIs};
ghost use Rattle.host_facts.specs.Knows.{Knows};
ghost use Rattle.host_facts.specs.Others.{Others};
ghost use Rattle.host_facts.specs.OwnBlocks.{MayName};
ghost use Rattle.lock_store.specs.Memories.{may_read};
ghost use Rattle.lock_store.specs.Views.{host_at};
ghost use Rattle.merge_steps.specs.Logs.{LogsRead};
ghost use Rattle.merge_steps.specs.Steps.{IsMerging, Went};
ghost use Rattle.plan_parts.specs.Cuts.{IsCut};
ghost use Rattle.shared_disk.specs.Events.{Reads, Shows};
ghost use Rattle.table_blocks.specs.Tables.{IsPackingOf};
ghost use Rattle.vol_base.specs.Packing.{packed_bytes};
ghost use Rattle.disk_locks.specs.Keys.{owner};
ghost use Rattle.vol_layout.specs.Fields.{HasField};
ghost use Rattle.vol_layout.specs.Places.{place_of};
ghost use Rattle.vol_layout.specs.Ranges.{HasTable};
ghost use Rattle.vol_layout.specs.declared.field.Field.{Field};

use lock_store::StepNo;
use meta_world::MetaWorld;
use shared_disk::Device;
use vol_base::{Block, DataNo, HostNo, Packed};
use vol_layout::{Field, Kind, Table};

/// Reads a table of a resource that the host holds or reads, which is then known, with numbers in range.
pub fn reads_table<D: Device>(
    world: &mut MetaWorld<D>,
    host: HostNo,
    which: Table,
) -> Result<Packed<4>, StepNo>
    requires stands { IsMerging world.old host }
    requires table { HasTable world.old.locks.geometry which }
    requires may { may_read (host_at world.old.locks host) (owner which) ≡ true }
    ensures went { IfOk result (λ table. (r : LogsRead) → Went host world.old world.new (Reads (place_of world.old.locks.geometry (Kind.Table which))) (Shows (packed_bytes 4 table)) r r) }
    ensures known { IfOk result (λ table. Knows world.new host (TableIs which table)) }
    ensures packing { IfOk result (IsPackingOf world.old.locks.geometry which) }
    ensures cut { IfErr result (IsCut host world.old world.new) }
    ensures others { Others host world.old world.new }
{
    let _geometry = world.locks().geometry();
    world.read_table(host, which)
}

/// Reads a data block that a field names which the host may read.
pub fn reads_block<D: Device>(
    world: &mut MetaWorld<D>,
    host: HostNo,
    number: DataNo,
) -> Result<Block, StepNo>
    requires stands { IsMerging world.old host }
    requires number { HasField world.old.locks.geometry (Field.Count number) }
    requires named { (x : Field) × MayName world.old host x number }
    ensures went { IfOk result (λ block. (r : LogsRead) → Went host world.old world.new (Reads (place_of world.old.locks.geometry (Kind.Number number))) (Shows block.0) r r) }
    ensures block { IfOk result (λ block. (x : Field) → MayName world.old host x number → Knows world.new host (BlockIs x number block.0)) }
    ensures cut { IfErr result (IsCut host world.old world.new) }
    ensures others { Others host world.old world.new }
{
    let _geometry = world.locks().geometry();
    world.read_number(host, number)
}
