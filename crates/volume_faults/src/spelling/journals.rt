// Whether a block is the journal of a host.
ghost use Rattle.std.specs.Prelude.{◌↔◌, IsTrue};
ghost use Rattle.image_view.specs.Spelled.{IsJournal};
ghost use Rattle.vol_layout.specs.Ranges.{IsGeometry};

use crate::spelling::keys::is_given;
use journal_block::read_journal;
use vol_base::{Block, Key};
use vol_layout::Geometry;

/// Whether the block spells a record in range, or none, with a key that the device gave.
pub fn is_journal(geometry: &Geometry, counter: u64, block: &Block) -> bool
    requires { IsGeometry geometry.now }
    ensures { IsTrue result ↔ IsJournal geometry.now counter block.now.0 }
{
    read_journal(block, geometry).is_some() && is_given(counter, Key(block.u64_at(16)))
}
