// Whether a block is a spelling in range of its kind.
ghost use Rattle.std.specs.Prelude.{◌↔◌, IsTrue};
ghost use Rattle.vol_layout.specs.Ranges.{HasKind, IsGeometry};
ghost use Rattle.volume_faults.specs.Sites.{IsChecked, IsOfKind};

mod journals;
mod keys;
mod locks;
mod slots;
mod tables;

use crate::spelling::journals::is_journal;
use crate::spelling::locks::is_lock_of;
use crate::spelling::slots::is_slot_of;
use crate::spelling::tables::is_table;
use vol_base::Block;
use vol_layout::{Geometry, Kind};

/// Whether the block is a spelling in range of this kind, with keys that the device gave.
pub fn is_of_kind(geometry: &Geometry, counter: u64, kind: Kind, block: &Block) -> bool
    requires geometry { IsGeometry geometry.now }
    requires kind { HasKind geometry.now kind }
    requires checked { IsChecked kind }
    ensures { IsTrue result ↔ IsOfKind geometry.now counter kind block.now.0 }
{
    match kind {
        Kind::Slot(host) => is_slot_of(counter, host, block),
        Kind::Journal(_) => is_journal(geometry, counter, block),
        Kind::Lock(resource) => is_lock_of(geometry, counter, resource, block),
        Kind::Table(table) => is_table(geometry, table, block),
        _ => false,
    }
}
