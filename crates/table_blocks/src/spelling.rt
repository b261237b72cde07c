// The block of a table, and what a block spells as a table.
ghost use Rattle.std.specs.Prelude.{◌≡◌, IfSome, IsNone};
ghost use Rattle.vol_base.specs.Bytes.{IsBlock};
ghost use Rattle.vol_base.specs.Packing.{packed_bytes};
ghost use Rattle.vol_layout.specs.Ranges.{HasTable, IsGeometry};
ghost use Rattle.image_view.specs.Spelled.{IsTable};
ghost use Rattle.volume_faults.specs.Sites.{HasNumbers};
ghost use Rattle.table_blocks.specs.Tables.{IsPackingOf};

use vol_base::{Block, Packed};
use vol_layout::{Geometry, Kind, Table};
use volume_faults::is_of_kind;

/// What the block spells as the table; `None` exactly where it is no spelling in range. It takes no
/// memory.
pub fn table_in(geometry: &Geometry, which: Table, block: Block) -> Option<Packed<4>>
    requires geometry { IsGeometry geometry.now }
    requires table { HasTable geometry.now which }
    ensures packing { IfSome result (λ table. IsPackingOf geometry.now which table) }
    ensures spelled { IfSome result (λ table. block.0 ≡ packed_bytes 4 table) }
    ensures none { IsNone result → (IsTable which block.0 × HasNumbers geometry.now which block.0) → ⊥ }
{
    if is_of_kind(geometry, 0, Kind::Table(which), &block) {
        Packed::<4>::of(block, which.magic())
    } else {
        None
    }
}

/// The block of a table. It takes no memory.
pub fn block_of(table: &Packed<4>) -> Block
    ensures bytes { result.0 ≡ packed_bytes 4 table.now }
    ensures block { IsBlock result.0 }
{
    copy(table).into_block()
}

fn copy(table: &Packed<4>) -> Packed<4>
    ensures { result ≡ table.now }
{
    table.clone().unwrap()
}
