// The record of a link: the place's pointer comes to name the source's data block with the mark, which the source gets too.
ghost use Rattle.std.specs.Prelude.{◌≡◌, ◌≢◌, ◌<◌, ◌≤◌, ◌+◌, ◌-◌, ◌∷◌, ◌++◌, ℕ, [], IfErr, IfOk, IfSome, None, Option, Some, false, length, true};
ghost use Rattle.std.specs.Option.{option_to_list};
ghost use Rattle.call_effects.specs.Counts.{counts_moved};
ghost use Rattle.call_effects.specs.Links.{linked};
ghost use Rattle.host_facts.specs.Others.{Others};
ghost use Rattle.image_view.specs.Balances.{edit};
ghost use Rattle.image_view.specs.Links.{marked};
ghost use Rattle.image_view.specs.Pointers.{IsNumber};
ghost use Rattle.image_view.specs.declared.pointer.Number.{Number};
ghost use Rattle.plan_parts.specs.Cuts.{IsCut};
ghost use Rattle.share_plans.specs.LinkRecords.{AreLinkTables, HasUnmarkedApart, IsPointerRead, IsUnmarkedRead, MayRaise, count_table};
ghost use Rattle.share_plans.specs.LinkRecords.{linked_tables, mark_table, moved_by, room_in, table_in, unmarked_of};
ghost use Rattle.share_plans.specs.ReadTables.{kept_in};
ghost use Rattle.share_plans.specs.Stands.{At};
ghost use Rattle.share_plans.specs.Went.{Went};
ghost use Rattle.share_plans.specs.declared.stage.Stage.{Stage};
ghost use Rattle.table_blocks.specs.Tables.{number_in};
ghost use Rattle.vol_layout.specs.declared.field.Field.{Field};
ghost use Rattle.vol_layout.specs.Edits.{touches};
ghost use Rattle.vol_layout.specs.Fields.{HasField, IsInRange, greatest_count, table_of};
ghost use Rattle.vol_layout.specs.Ranges.{IsGeometry, per_table};

use crate::closing::Closing;
use crate::sharing::{Place, Shared};
use crate::stage::{Came, Core, Pair, Stage};
use crate::tables::FileTables;
use image_view::{Number, write_pointer};
use journal_block::Record;
use lock_store::StepNo;
use meta_world::MetaWorld;
use plan_parts::{Applying, Kept, Kepts, commit};
use shared_disk::Device;
use table_blocks::number;
use vol_base::{DataNo, FileNo, Key, Packed};
use vol_layout::{Edit, Field, Geometry, Table};

/// The record of the link is written.

pub fn commits<D: Device>(
    core: &Core,
    world: &mut MetaWorld<D>,
    pair: Pair,
    group: Kept,
    other: Option<Kept>,
) -> Result<Came, StepNo>
    requires stands { At world.old core.now (Stage.Commits pair group other) }
    ensures went { IfOk result (Went world.old world.new core.now core.now (Stage.Commits pair group other)) }
    ensures cut { IfErr result (IsCut core.now.host world.old world.new) }
    ensures others { Others core.now.host world.old world.new }
{
    let geometry = world.locks().geometry();
    let key = world.locks().key_of(core.host).unwrap();
    let entry = link(geometry, core, key, pair, &group, &other);
    let left = tables(geometry, core, pair, group, other);
    let came = commit(world, core.host, &entry, &left);
    let _geometry = world.locks().geometry();
    match came {
        Ok(()) => {
            let applying = Applying { entry, left };
            Ok(Came::More(Stage::Closes(Closing::Applies(applying), Shared::Linked)))
        }
        Err(why) => Err(why),
    }
}

// The record.
fn link(
    geometry: &Geometry,
    core: &Core,
    key: Key,
    pair: Pair,
    group: &Kept,
    other: &Option<Kept>,
) -> Record
    requires geometry { IsGeometry geometry.now }
    requires long { length group.now.table.entries ≡ per_table }
    requires from { MayRaise geometry.now (count_table group.now other.now).table pair.source }
    requires small { IsNumber (Number.At pair.source true) }
    requires apart { HasUnmarkedApart core.now pair }
    requires two { pair.own ≢ pair.source }
    ensures { result ≡ record {
      key = key.0;
      edits = linked core.now.file core.now.index pair.source (unmarked_of core.now.source pair)
          (moved_by geometry.now pair group.now other.now);
    } }
{
    let entry = marks(core, key, pair);
    let low = lowered(&group.table, pair.own);
    let high = raised_in(geometry, pair.source, group, other);
    if pair.own < pair.source {
        with_counts(entry, low, high)
    } else {
        with_counts(entry, high, low)
    }
}

// The pointers of the link: that of the place, and that of a source which has no mark yet.
fn marks(core: &Core, key: Key, pair: Pair) -> Record
    requires small { IsNumber (Number.At pair.source true) }
    requires apart { HasUnmarkedApart core.now pair }
    ensures { result ≡ record { key = key.0; edits = linked core.now.file core.now.index pair.source (unmarked_of core.now.source pair) [] } }
{
    let mut entry = Record::new(key, mark(core.file, core.index, pair.source));
    match unmarked(&core.source, pair) {
        Some((file, index)) => {
            add(&mut entry, mark(file, index, pair.source));
            entry
        }
        None => entry,
    }
}

// The source's pointer, where it has no mark.
fn unmarked(source: &Place, pair: Pair) -> Option<(FileNo, u32)>
    ensures { result ≡ unmarked_of source.now pair }
{
    match source {
        Place::File(file, index) => {
            if pair.shared {
                None
            } else {
                Some((*file, *index))
            }
        }
        Place::Arena(_) => None,
    }
}

/// A pointer comes to name a shared data block.
pub fn mark(file: FileNo, index: u32, block: DataNo) -> Edit
    requires { IsNumber (Number.At block true) }
    ensures { result ≡ edit (Field.Pointer file index) (marked block) }
{
    Edit {
        field: Field::Pointer(file, index),
        number: write_pointer(&Number::At(block, true)),
    }
}

// Adds the two counts.
fn with_counts(entry: Record, first: Edit, second: Edit) -> Record
    requires room { length entry.edits ≤ 6 }
    requires other { touches entry.edits first.field ≡ false }
    requires others { touches entry.edits second.field ≡ false }
    requires apart { first.field ≢ second.field }
    ensures { result ≡ record entry { edits = entry.edits ++ first ∷ second ∷ [] } }
{
    let mut whole = entry;
    add(&mut whole, first);
    add(&mut whole, second);
    whole
}

/// Adds an edit that there is room for.
pub fn add(entry: &mut Record, edit: Edit)
    requires room { length entry.old.edits < 8 }
    requires other { touches entry.old.edits edit.field ≡ false }
    ensures { entry.new ≡ record entry.old { edits = entry.old.edits ++ edit ∷ [] } }
{
    entry.add(edit).unwrap();
}

// The count of the place's data block, less one; a count of 0 stays.
fn lowered(table: &Packed<4>, block: DataNo) -> Edit
    requires { length table.now.entries ≡ per_table }
    ensures { result ≡ edit (Field.Count block) (number_in table.now (Field.Count block) - 1) }
{
    let field = Field::Count(block);
    Edit {
        field,
        number: number(table, &field).saturating_sub(1),
    }
}

// The count of the source's data block, which stands in one of these tables, and one more.
fn raised_in(geometry: &Geometry, block: DataNo, group: &Kept, other: &Option<Kept>) -> Edit
    requires geometry { IsGeometry geometry.now }
    requires from { MayRaise geometry.now (count_table group.now other.now).table block }
    ensures { result ≡ edit (Field.Count block) (room_in geometry.now (number_in (count_table group.now other.now).table (Field.Count block)) + 1) }
{
    match other {
        None => raised(geometry, &group.table, block),
        Some(other) => raised(geometry, &other.table, block),
    }
}

// One more than a count; the greatest one stays.
#[tactic(auto, unfolding(vol_layout::specs::Fields::greatest_count, vol_layout::specs::Ranges::per_table))]
fn raised(geometry: &Geometry, table: &Packed<4>, block: DataNo) -> Edit
    requires geometry { IsGeometry geometry.now }
    requires from { MayRaise geometry.now table.now block }
    ensures { result ≡ edit (Field.Count block) (room_in geometry.now (number_in table.now (Field.Count block)) + 1) }
{
    let field = Field::Count(block);
    let count = number(table, &field);
    let number = if geometry.allows(&field, count + 1) {
        count + 1
    } else {
        count
    };
    Edit { field, number }
}

// The tables of the record, in the order of its edits.
fn tables(geometry: &Geometry, core: &Core, pair: Pair, group: Kept, other: Option<Kept>) -> Kepts
    requires geometry { IsGeometry geometry.now }
    requires own { IsPointerRead geometry.now (kept_in core.now.tables) core.now.file core.now.index }
    requires from { IsUnmarkedRead geometry.now (kept_in core.now.tables) (unmarked_of core.now.source pair) }
    ensures { AreLinkTables core.now pair group other result }
{
    let which = geometry.table_of(&Field::Pointer(core.file, core.index));
    let own = kept(&core.tables, which);
    let mark = marked_table(geometry, &core.tables, which, unmarked(&core.source, pair));
    ordered(own, mark, pair, group, other)
}

// The table of the source's pointer, where it has no mark and is of another table.
fn marked_table(
    geometry: &Geometry,
    tables: &FileTables,
    own: Table,
    source: Option<(FileNo, u32)>,
) -> Option<Kept>
    requires geometry { IsGeometry geometry.now }
    requires from { IsUnmarkedRead geometry.now (kept_in tables.now) source }
    ensures { result ≡ mark_table (kept_in tables.now) own source }
{
    match source {
        None => None,
        Some((file, index)) => {
            let which = geometry.table_of(&Field::Pointer(file, index));
            if which == own {
                None
            } else {
                Some(kept(tables, which))
            }
        }
    }
}

// The tables of pointers, and then those of the groups in the order of their counts.
fn ordered(own: Kept, mark: Option<Kept>, pair: Pair, group: Kept, other: Option<Kept>) -> Kepts
    ensures { result ≡ linked_tables own mark pair group other }
{
    match other {
        None => Kepts::new(Some(own), mark, Some(group), None),
        Some(other) => {
            if pair.own < pair.source {
                Kepts::new(Some(own), mark, Some(group), Some(other))
            } else {
                Kepts::new(Some(own), mark, Some(other), Some(group))
            }
        }
    }
}

/// A table that was read.
pub fn kept(tables: &FileTables, which: Table) -> Kept
    requires { kept_in tables.now which ≢ None }
    ensures { table_in (kept_in tables.now) which ≡ Some result }
{
    Kept {
        which,
        table: copy(tables.get(which).unwrap()),
    }
}

fn copy(table: &Packed<4>) -> Packed<4>
    ensures { result ≡ table.now }
{
    table.clone().unwrap()
}
