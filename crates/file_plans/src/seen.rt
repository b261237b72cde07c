// What the tables that are kept of a file say.
ghost use Rattle.std.specs.Prelude.{◌≡◌, ◌<◌, ◌≤◌, ◌+◌, ℕ, IfSome, IsNone, None};
ghost use Rattle.disk_locks.specs.Keys.{owner};
ghost use Rattle.file_plans.specs.Says.{AreFound, AreKnown, ArePacked, Known, PointsTo, Says, are_together, gathered, remains_in};
ghost use Rattle.held_cache.specs.Kept.{IsFileTable, kept_at};
ghost use Rattle.vol_layout.specs.Fields.{HasField, table_of};
ghost use Rattle.vol_layout.specs.Ranges.{IsGeometry, limit};

use crate::remains::{Remain, Remains};
use held_cache::HeldCache;
use image_view::{Number, read_pointer};
use table_blocks::number;
use vol_base::{FileNo, HostNo};
use vol_layout::{Field, Geometry, PER_TABLE, Resource, Table};

/// The number of the file's head; `None` exactly where its table is not kept.
pub fn head(cache: &HeldCache, host: HostNo, file: FileNo) -> Option<u32>
    requires geometry { IsGeometry cache.now.volume }
    requires host { host < cache.now.volume.hosts }
    requires file { file < cache.now.volume.files }
    requires packed { ArePacked cache.now host }
    ensures says { IfSome result (Says (kept_at cache.now host) (Field.Head file)) }
    ensures short { IfSome result (λ n. n ≤ limit cache.now.volume + 1) }
    ensures none { IsNone result → kept_at cache.now host (Table.File file) ≡ None }
{
    match cache.get(host, Table::File(file)) {
        Some(table) => Some(number(table, &Field::Head(file))),
        None => None,
    }
}

/// The pointer of the file at an index below the greatest length; `None` exactly where its table is not kept.
pub fn pointer(
    geometry: &Geometry,
    cache: &HeldCache,
    host: HostNo,
    file: FileNo,
    index: u32,
) -> Option<Number>
    requires geometry { IsGeometry geometry.now }
    requires volume { cache.now.volume ≡ geometry.now }
    requires host { host < geometry.now.hosts }
    requires pointer { HasField geometry.now (Field.Pointer file index) }
    requires packed { ArePacked cache.now host }
    ensures says { IfSome result (PointsTo geometry.now (kept_at cache.now host) file index) }
    ensures none { IsNone result → kept_at cache.now host (table_of (Field.Pointer file index)) ≡ None }
{
    let field = Field::Pointer(file, index);
    match cache.get(host, geometry.table_of(&field)) {
        Some(table) => Some(read_pointer(number(table, &field))),
        None => None,
    }
}

/// The first table block of the file that has a pointer from `from` to below `to` and is not kept.
pub fn missing(
    geometry: &Geometry,
    cache: &HeldCache,
    host: HostNo,
    file: FileNo,
    from: u32,
    to: u32,
) -> Option<Table>
    requires geometry { IsGeometry geometry.now }
    requires volume { cache.now.volume ≡ geometry.now }
    requires host { host < geometry.now.hosts }
    requires file { file < geometry.now.files }
    requires to { to ≤ limit geometry.now }
    ensures table { IfSome result (λ t. IsFileTable geometry.now t × (owner t ≡ Resource.File file) × (kept_at cache.now host t ≡ None)) }
    ensures none { IsNone result → AreKnown (kept_at cache.now host) file from to }
{
    for index in from..to {
        let which = geometry.table_of(&Field::Pointer(file, index));
        if cache.get(host, which).is_none() {
            return Some(which);
        }
    }
    None
}

/// The lowest pointer from `from` to below `to` that is no hole, and up to three further ones of its table block and of its data
/// block's group; `None` exactly where all are holes. The tables of these pointers are kept.
pub fn remains(
    geometry: &Geometry,
    cache: &HeldCache,
    host: HostNo,
    file: FileNo,
    from: u32,
    to: u32,
) -> Option<Remains>
    requires geometry { IsGeometry geometry.now }
    requires volume { cache.now.volume ≡ geometry.now }
    requires host { host < geometry.now.hosts }
    requires file { file < geometry.now.files }
    requires to { to ≤ limit geometry.now }
    requires packed { ArePacked cache.now host }
    requires known { AreKnown (kept_at cache.now host) file from to }
    ensures { AreFound geometry.now (kept_at cache.now host) file from to result }
{
    let mut found: Option<Remains> = None;
    for index in from..to {
        let seen = pointer(geometry, cache, host, file, index).unwrap();
        found = with_pointer(found, index, seen);
    }
    found
}

// What was found, with the pointer at the next index.
fn with_pointer(found: Option<Remains>, index: u32, pointer: Number) -> Option<Remains>
    ensures { (g : Geometry) (known : Known) (f from : ℕ) → from ≤ index → AreFound g known f from index found → PointsTo g known f index pointer → AreFound g known f from (index + 1) result }
{
    match pointer {
        Number::Hole => found,
        Number::At(number, _) => Some(with(found, Remain { index, number })),
    }
}

// One more remain, where it is the first one, or stands together with the first and less than four were found.
fn with(found: Option<Remains>, next: Remain) -> Remains
    ensures { result ≡ gathered (remains_in found) next }
{
    match found {
        None => Remains::new(next),
        Some(remains) => more(remains, next),
    }
}

fn more(remains: Remains, next: Remain) -> Remains
    ensures { result ≡ gathered remains next }
{
    let mut remains = remains;
    if remains.count() < 4 && are_together(&remains.get(0), &next) {
        remains.push(next);
    }
    remains
}

// Whether two pointers stand in one table block and name data blocks of one group.
#[tactic(auto, unfolding(vol_layout::specs::Ranges::per_table))]
fn are_together(one: &Remain, other: &Remain) -> bool
    ensures { result ≡ are_together one.now other.now }
{
    one.index / PER_TABLE == other.index / PER_TABLE
        && one.number / PER_TABLE == other.number / PER_TABLE
}
