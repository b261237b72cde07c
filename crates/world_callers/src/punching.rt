// A pointer of a file, made a hole.
ghost use Rattle.std.specs.Prelude.{◌≡◌, ◌≢◌, ◌<◌, [], OnOk, Some, length};
ghost use Rattle.vol_layout.specs.Fields.{table_of};
ghost use Rattle.vol_layout.specs.Ranges.{per_table};
ghost use Rattle.image_view.specs.Pointers.{named};
ghost use Rattle.table_blocks.specs.Made.{made};
ghost use Rattle.table_blocks.specs.Tables.{number_in};
ghost use Rattle.call_effects.specs.Drops.{dropped};
ghost use Rattle.disk_locks.specs.Consistent.{Consistent};
ghost use Rattle.lock_store.specs.Views.{key_at};
ghost use Rattle.host_facts.specs.Facts.Fact.{RecordIs};
ghost use Rattle.host_facts.specs.Knows.{Knows};
ghost use Rattle.host_facts.specs.Others.{Others};
ghost use Rattle.world_callers.specs.Punches.{KnowsBoth, KnowsDropped, Standing};

use journal_block::Record;
use lock_store::StepNo;
use meta_world::MetaWorld;
use shared_disk::Device;
use table_blocks::number;
use vol_base::{DataNo, FileNo, HostNo, Key, Packed};
use vol_layout::{Edit, Field};

/// Makes a hole of the pointer to a data block, with or without the mark, and lowers the block's count, by a record of both.
pub fn punch<D: Device>(
    world: &mut MetaWorld<D>,
    host: HostNo,
    file: FileNo,
    index: u32,
    block: DataNo,
    pointers: &Packed<4>,
    counts: &Packed<4>,
) -> Result<(), StepNo>
    requires host { host < world.old.locks.geometry.hosts }
    requires both { KnowsBoth world.old host file index block pointers.now counts.now }
    requires names { named (number_in pointers.now (Field.Pointer file index)) ≡ Some block }
    requires empty { Knows world.old host (RecordIs []) }
    ensures others { Others host world.old world.new }
    ensures tables { OnOk result (KnowsDropped world.new host file index block pointers.now counts.now) }
    ensures empty { OnOk result (Knows world.new host (RecordIs [])) }
{
    let _geometry = world.locks().geometry();
    let key = world.locks().key_of(host).unwrap();
    let entry = drop_of(key, file, index, block, counts);
    world.commit(host, &entry)?;
    settle(world, host, file, index, block, pointers, counts)
}

// Writes the record that stands to both tables, and takes it out.
fn settle<D: Device>(
    world: &mut MetaWorld<D>,
    host: HostNo,
    file: FileNo,
    index: u32,
    block: DataNo,
    pointers: &Packed<4>,
    counts: &Packed<4>,
) -> Result<(), StepNo>
    requires host { host < world.old.locks.geometry.hosts }
    requires stands { Standing world.old host file index block (dropped file index block (number_in counts.now (Field.Count block))) pointers.now counts.now }
    ensures others { Others host world.old world.new }
    ensures tables { OnOk result (KnowsDropped world.new host file index block pointers.now counts.now) }
    ensures empty { OnOk result (Knows world.new host (RecordIs [])) }
{
    let geometry = world.locks().geometry();
    let pointer_table = geometry.table_of(&Field::Pointer(file, index));
    let count_table = geometry.table_of(&Field::Count(block));
    world.advance(host, pointer_table, pointers)?;
    world.advance(host, count_table, counts)?;
    world.finish(host)
}

// The record: the pointer names nothing, and the count falls by one.
fn drop_of(key: Key, file: FileNo, index: u32, block: DataNo, counts: &Packed<4>) -> Record
    requires { length counts.now.entries ≡ per_table }
    ensures { result ≡ record { key = key.0; edits = dropped file index block (number_in counts.now (Field.Count block)) } }
{
    let count = number(counts, &Field::Count(block));
    let hole = Edit {
        field: Field::Pointer(file, index),
        number: 0,
    };
    let lowered = Edit {
        field: Field::Count(block),
        number: count.saturating_sub(1),
    };
    let mut entry = Record::new(key, hole);
    entry.add(lowered).unwrap();
    entry
}
