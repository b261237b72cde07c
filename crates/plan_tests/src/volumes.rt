// The blocks of a volume as a test begins with it.
ghost use Rattle.vol_layout.specs.Ranges.{IsGeometry};

use std::alloc::Global;
use table_blocks::set_number;
use vol_base::{Block, NoMemory, Packed};
use vol_layout::{Field, Geometry, Kind, PER_TABLE, Table};

/// The mark of a pointer to a data block that others may name too.
pub const MARK: u32 = 1 << 31;

pub const ONE_HOST: Geometry = Geometry {
    hosts: 1,
    files: 2,
    groups: 1,
    parts: 1,
    shards: 1,
    logs: 1,
    tables: 1,
};

pub const ONE_GROUP: Geometry = Geometry {
    hosts: 3,
    files: 4,
    groups: 1,
    parts: 1,
    shards: 2,
    logs: 1,
    tables: 1,
};

pub const THREE_GROUPS: Geometry = Geometry {
    hosts: 3,
    files: 4,
    groups: 3,
    parts: 2,
    shards: 3,
    logs: 2,
    tables: 1,
};

pub const THREE_TABLES: Geometry = Geometry {
    hosts: 3,
    files: 4,
    groups: 3,
    parts: 1,
    shards: 1,
    logs: 1,
    tables: 3,
};

/// A volume that was formatted, but that from one group on each count is 1, and that these fields have these numbers.
#[derive(Drop)]
pub struct Volume {
    pub geometry: Geometry,
    pub full_from: u8,
    pub numbers: &'static [(Field, u32)],
}

impl Volume {
    /// As formatting leaves it.
    pub fn formatted(geometry: Geometry) -> Volume {
        Volume {
            geometry,
            full_from: geometry.groups,
            numbers: &[],
        }
    }
}

/// The blocks of a formatted volume, but that from this group on each count is 1, and these fields have these numbers.
pub fn blocks_of(
    alloc: Global,
    geometry: &Geometry,
    full_from: u8,
    numbers: &[(Field, u32)],
) -> Result<Vec<Block>, NoMemory>
    requires { IsGeometry geometry.now }
{
    let mut blocks = Vec::new(alloc);
    for place in 0..geometry.total() {
        let blank = geometry.blank(place);
        let block = match geometry.kind(place) {
            Some(Kind::Table(Table::Group(at))) if full_from <= at => full(blank),
            _ => blank,
        };
        let block = match geometry.kind(place) {
            Some(Kind::Table(which)) => numbered(geometry, which, block, numbers),
            _ => block,
        };
        blocks.push(block).map_err(|_| NoMemory)?;
    }
    Ok(blocks)
}

// The table with 1 as each of its numbers, which are of four bytes and stand behind 64.
pub fn full(blank: Block) -> Block {
    let mut table = blank;
    for entry in 0..1008usize {
        table.0[4 * entry + 67] = 1;
    }
    table
}

// The table with the numbers that are of its fields.
fn numbered(geometry: &Geometry, which: Table, block: Block, numbers: &[(Field, u32)]) -> Block
    requires { IsGeometry geometry.now }
{
    match Packed::<4>::of(block, which.magic()) {
        Some(mut table) => {
            set_all(geometry, which, &mut table, numbers);
            table.into_block()
        }
        None => block,
    }
}

#[tactic(auto, unfolding(vol_layout::specs::Ranges::per_table))]
fn set_all(geometry: &Geometry, which: Table, table: &mut Packed<4>, numbers: &[(Field, u32)])
    requires { IsGeometry geometry.now }
{
    for (field, number) in numbers {
        if table.count() == PER_TABLE
            && geometry.has_field(field)
            && geometry.table_of(field) == which
        {
            set_number(table, field, *number);
        }
    }
}
