// A file's block, written in place.
ghost use Rattle.std.specs.Prelude.{◌≡◌, ◌<◌, ◌%◌, ◌^◌, ℕ, IfSome, IsNone, Ok, OnErr, [], false, length, true};
ghost use Rattle.vol_layout.specs.Fields.{HasField};
ghost use Rattle.vol_layout.specs.Ranges.{per_table};
ghost use Rattle.table_blocks.specs.Tables.{IsPackingOf, number_in};
ghost use Rattle.call_effects.specs.Places.{IsPlaced};
ghost use Rattle.lock_store.specs.Memories.{holds};
ghost use Rattle.lock_store.specs.Views.{host_at, told_of};
ghost use Rattle.disk_locks.specs.Sure.{BothTold};
ghost use Rattle.host_facts.specs.Facts.Fact.{BlockIs, RecordIs, TableIs};
ghost use Rattle.host_facts.specs.Knows.{Knows};
ghost use Rattle.host_facts.specs.Others.{Others};
ghost use Rattle.host_facts.specs.Wrote.{FilesStay};
ghost use Rattle.world_callers.specs.Rewrites.{ShowsOwn};

use image_view::{Number, read_pointer};
use lock_store::StepNo;
use meta_world::MetaWorld;
use shared_disk::Device;
use table_blocks::number;
use vol_base::{Block, DataNo, FileNo, HostNo, Packed, PlainCall, PlainReply};
use vol_layout::{Field, Resource, Table};

/// Writes the block of a held file at an index of its first table, where that table shows the block there below the file's length
/// and without the mark; false where it does not, and then nothing is done.
pub fn rewrite<D: Device>(
    world: &mut MetaWorld<D>,
    host: HostNo,
    file: FileNo,
    index: u32,
    table: &Packed<4>,
    block: &Block,
) -> Result<bool, StepNo>
    requires host { host < world.old.locks.geometry.hosts }
    requires pointer { HasField world.old.locks.geometry (Field.Pointer file index) }
    requires first { index < per_table }
    requires held { holds (host_at world.old.locks host) (Resource.File file) ≡ true }
    requires packing { IsPackingOf world.old.locks.geometry (Table.File file) table.now }
    requires known { Knows world.old host (TableIs (Table.File file) table.now) }
    requires empty { Knows world.old host (RecordIs []) }
    ensures others { Others host world.old world.new }
    ensures placed { result ≡ Ok true → BothTold (told_of world.old.locks) (told_of world.new.locks) (IsPlaced world.old.locks.geometry (PlainCall.Write file index block.now) PlainReply.Done) }
    ensures shows { result ≡ Ok true → (d : ℕ) × ShowsOwn table.now file index d × Knows world.new host (BlockIs (Field.Pointer file index) d block.now.0) }
    ensures kept { result ≡ Ok false → world.new ≡ world.old }
    ensures none { result ≡ Ok false → (d : ℕ) → ShowsOwn table.now file index d → ⊥ }
    ensures refused { OnErr result (FilesStay world.old world.new) }
{
    let _geometry = world.locks().geometry();
    match own_block(table, file, index) {
        Some(number) => match world.write_own(host, file, index, number, block) {
            Ok(()) => Ok(true),
            Err(cause) => Err(cause),
        },
        None => Ok(false),
    }
}

// The data block that the file's pointer names without the mark, below the file's length.
fn own_block(table: &Packed<4>, file: FileNo, index: u32) -> Option<DataNo>
    requires long { length table.now.entries ≡ per_table }
    requires pointer { number_in table.now (Field.Pointer file index) % 2 ^ 31 ≡ 0 → number_in table.now (Field.Pointer file index) ≡ 0 }
    ensures some { IfSome result (λ number. ShowsOwn table.now file index number) }
    ensures none { IsNone result → (d : ℕ) → ShowsOwn table.now file index d → ⊥ }
{
    let long = number(table, &Field::Head(file)).saturating_sub(1);
    match read_pointer(number(table, &Field::Pointer(file, index))) {
        Number::At(number, shared) => {
            if index < long && !shared {
                Some(number)
            } else {
                None
            }
        }
        Number::Hole => None,
    }
}
