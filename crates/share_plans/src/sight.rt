// What a share is to do next, by the file tables that were read.
ghost use Rattle.std.specs.Prelude.{◌≡◌, ◌<◌, ◌≤◌, ◌+◌, ℕ};
ghost use Rattle.share_plans.specs.ReadTables.{ArePacked, Known, Says, kept_in};
ghost use Rattle.share_plans.specs.Spots.{HasSourceFile, IsSight, IsSpot, PointsTo, behind_source};
ghost use Rattle.vol_layout.specs.Ranges.{IsGeometry, limit};

use crate::sharing::{Place, Shared};
use crate::stage::Pair;
use crate::tables::FileTables;
use image_view::{Number, read_pointer};
use table_blocks::number;
use vol_base::{DataNo, FileNo};
use vol_layout::{Field, Geometry, Table};

/// What the tables say of a file's block: this table is to be read first, there is none, or its data block and whether the pointer has
/// the mark of a shared one.
#[derive(Clone, Copy)]
pub enum Spot {
    Needs(Table),
    Nothing,
    Shows(DataNo, bool),
}

/// What a share is to do next.
#[derive(Clone, Copy)]
pub enum Sight {
    /// This table is to be read.
    Needs(Table),
    /// The answer is known.
    Answers(Shared),
    /// The slot is to be read; the place has this data block.
    Peeks(DataNo),
    /// These two data blocks are to be compared.
    Pairs(Pair),
}

/// What is to be done next for this place and this source.
pub fn look(
    geometry: &Geometry,
    tables: &FileTables,
    file: FileNo,
    index: u32,
    source: &Place,
) -> Sight
    requires geometry { IsGeometry geometry.now }
    requires file { file < geometry.now.files }
    requires source { HasSourceFile geometry.now source.now }
    requires packed { ArePacked geometry.now (kept_in tables.now) }
    ensures { IsSight geometry.now (kept_in tables.now) file index source.now result }
{
    match shown(geometry, tables, file, index) {
        Spot::Needs(which) => Sight::Needs(which),
        Spot::Nothing => Sight::Answers(Shared::Hole),
        Spot::Shows(own, _) => match source {
            Place::Arena(_) => Sight::Peeks(own),
            Place::File(from, at) => behind_source(own, shown(geometry, tables, *from, *at)),
        },
    }
}

// The same once the place's data block is known, for a source that is a file's block.
fn behind_source(own: DataNo, source: Spot) -> Sight
    ensures { result ≡ behind_source own source }
{
    match source {
        Spot::Needs(which) => Sight::Needs(which),
        Spot::Nothing => Sight::Answers(Shared::NoSource),
        Spot::Shows(number, shared) => {
            if number == own {
                Sight::Answers(Shared::Already)
            } else {
                Sight::Pairs(Pair {
                    own,
                    source: number,
                    shared,
                })
            }
        }
    }
}

/// What the tables say of the block of a file at an index.
pub fn shown(geometry: &Geometry, tables: &FileTables, file: FileNo, index: u32) -> Spot
    requires geometry { IsGeometry geometry.now }
    requires file { file < geometry.now.files }
    requires packed { ArePacked geometry.now (kept_in tables.now) }
    ensures { IsSpot geometry.now (kept_in tables.now) file index result }
{
    match tables.get(Table::File(file)) {
        None => Spot::Needs(Table::File(file)),
        Some(table) => within(
            geometry,
            tables,
            file,
            index,
            number(table, &Field::Head(file)),
        ),
    }
}

// The same where the file has this head.
fn within(geometry: &Geometry, tables: &FileTables, file: FileNo, index: u32, head: u32) -> Spot
    requires geometry { IsGeometry geometry.now }
    requires file { file < geometry.now.files }
    requires packed { ArePacked geometry.now (kept_in tables.now) }
    requires head { Says (kept_in tables.now) (Field.Head file) head }
    requires short { head ≤ limit geometry.now + 1 }
    ensures { IsSpot geometry.now (kept_in tables.now) file index result }
{
    if index >= head.saturating_sub(1) {
        return Spot::Nothing;
    }
    let field = Field::Pointer(file, index);
    let which = geometry.table_of(&field);
    match tables.get(which) {
        None => Spot::Needs(which),
        Some(table) => pointed(read_pointer(number(table, &field))),
    }
}

// The same by the pointer of a block below the file's length.
fn pointed(pointer: Number) -> Spot
    ensures { (g : Geometry) (known : Known) (f i : ℕ) → PointsTo g known f i pointer → IsSpot g known f i result }
{
    match pointer {
        Number::Hole => Spot::Nothing,
        Number::At(number, shared) => Spot::Shows(number, shared),
    }
}
