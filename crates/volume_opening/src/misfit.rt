// Whether the geometry of a workload fits a device.
ghost use Rattle.std.specs.Prelude.{◌≡◌, ◌==◌, find, length, not};
ghost use Rattle.std.specs.List.{zip};
ghost use Rattle.vol_layout.specs.Ranges.{IsGeometry};
ghost use Rattle.volume_opening.specs.Found.{found_geometry};
ghost use Rattle.volume_opening.specs.Misfits.{difference, misfit_with, geometry_numbers, shortfall};

use crate::block_zero::Found;
use vol_layout::Geometry;

/// The two numbers of `OpenNo::Geometry`, or `None` where the geometry fits.
pub fn find_misfit(geometry: &Geometry, found: &Found, blocks: u64) -> Option<(u64, u64)>
    requires { IsGeometry geometry.now }
    ensures { result ≡ misfit_with geometry.now blocks (found_geometry found.now) }
{
    let missing = missing_blocks(geometry, blocks);
    match found {
        Found::Volume(other) => first_difference(geometry, other).or(missing),
        Found::Blank | Found::Other => missing,
    }
}

fn missing_blocks(geometry: &Geometry, blocks: u64) -> Option<(u64, u64)>
    requires { IsGeometry geometry.now }
    ensures { result ≡ shortfall geometry.now blocks }
{
    let need = geometry.total();
    if blocks < need {
        Some((need, blocks))
    } else {
        None
    }
}

fn first_difference(given: &Geometry, found: &Geometry) -> Option<(u64, u64)>
    ensures { result ≡ difference given.now found.now }
{
    first_pair(&numbers(given), &numbers(found))
}

fn numbers(geometry: &Geometry) -> [u8; 7]
    ensures { result ≡ geometry_numbers geometry.now }
{
    [
        geometry.hosts,
        geometry.files,
        geometry.groups,
        geometry.parts,
        geometry.shards,
        geometry.logs,
        geometry.tables,
    ]
}

// The first number that differs, in the one and in the other.
fn first_pair(given: &[u8], found: &[u8]) -> Option<(u64, u64)>
    requires { length given.now ≡ length found.now }
    ensures { result ≡ find (λ pair. not (pair.0 == pair.1)) (zip given.now found.now) }
{
    for (i, &number) in given.iter().enumerate() {
        if number != found[i] {
            return Some((u64::from(number), u64::from(found[i])));
        }
    }
    None
}
