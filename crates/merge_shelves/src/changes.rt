// The blocks that a merge writes: those of a shelf that changed, and those of requests.
ghost use Rattle.std.specs.Prelude.{◌≡◌, ◌≢◌, ◌≤◌, ◌<◌, false, length, true};
ghost use Rattle.hint_blocks.specs.Entries.{IsRequest};
ghost use Rattle.merge_shelves.specs.Changes.{IsNextChanged, index_in, part, requested_with, shard_bytes};
ghost use Rattle.vol_layout.specs.Ranges.{IsGeometry};

use hint_blocks::{Hints, IndexEntry, Request};
use sorted_shard::Shelf;
use vol_base::Block;
use vol_layout::Geometry;

/// The block of requests with one more, behind the others; where 126 stand, the first is dropped.
pub fn posted(block: &Block, request: Request, geometry: &Geometry) -> Block
    requires geometry { IsGeometry geometry.now }
    requires request { IsRequest geometry.now request }
    ensures { result.0 ≡ requested_with geometry.now block.now.0 request }
{
    let mut requests: Hints<Request> = Hints::of(block, geometry);
    requests.push_over(request);
    requests.into_block()
}

/// The first shard block of a shelf, from block `from` on, whose entries as read are not those that the shelf has for it.
pub fn next_changed(read: &[Block], shelf: &Shelf, from: u32, geometry: &Geometry) -> Option<u32>
    requires geometry { geometry.now ≡ shelf.now.geometry }
    requires is_geometry { IsGeometry geometry.now }
    requires blocks { length read.now ≡ shelf.now.blocks }
    requires few { length read.now ≤ 4 }
    ensures { IsNextChanged geometry.now read.now shelf.now.entries from result }
{
    for k in from..read.len() as u32 {
        if is_changed(&read[k as usize], shelf, k, geometry) {
            return Some(k);
        }
    }
    None
}

// Whether the entries of a block as read are not those that the shelf has for it. Entries are the same where their one block is.
fn is_changed(read: &Block, shelf: &Shelf, k: u32, geometry: &Geometry) -> bool
    requires geometry { geometry.now ≡ shelf.now.geometry }
    requires is_geometry { IsGeometry geometry.now }
    requires block { k < shelf.now.blocks }
    ensures other { result ≡ true → index_in geometry.now read.now.0 ≢ part k shelf.now.entries }
    ensures same { result ≡ false → index_in geometry.now read.now.0 ≡ part k shelf.now.entries }
{
    let hints: Hints<IndexEntry> = Hints::of(read, geometry);
    hints.into_block() != shelf.block(k).into_block()
}
