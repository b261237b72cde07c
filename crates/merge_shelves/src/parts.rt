// The shelves of a volume.
ghost use Rattle.std.specs.Prelude.{◌≡◌, ◌≤◌, ◌<◌};
ghost use Rattle.merge_shelves.specs.Parts as parts;
ghost use Rattle.vol_layout.specs.Ranges.{IsGeometry};

use vol_layout::Geometry;

/// How many shelves the shards of a volume form: one for each four of them, of which the last may have fewer.
pub fn shelves(geometry: &Geometry) -> u8
    requires { IsGeometry geometry.now }
    ensures number { result ≡ parts.shelves geometry.now }
    ensures some { 1 ≤ result }
    ensures few { result ≤ 16 }
{
    geometry.shards.div_ceil(4)
}

/// How many shard blocks a shelf has, from shard `4 * shelf` on.
pub fn blocks_of(geometry: &Geometry, shelf: u8) -> u8
    requires geometry { IsGeometry geometry.now }
    requires shelf { shelf < parts.shelves geometry.now }
    ensures number { result ≡ parts.blocks_of geometry.now shelf }
    ensures some { 1 ≤ result }
    ensures few { result ≤ 4 }
{
    (geometry.shards - 4 * shelf).min(4)
}
