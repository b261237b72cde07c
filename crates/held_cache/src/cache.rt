// What is kept for each host.
ghost use Rattle.std.specs.Prelude.{◌≡◌, ◌+◌, ◌*◌, ◌<◌, ◌≤◌, IfOk, None, Some, ℕ};
ghost use Rattle.std.specs.Option.{option_copied};
ghost use Rattle.vol_layout.specs.Ranges.{HasTable, IsGeometry};
ghost use Rattle.vol_layout.specs.Sizes.{file_tables};
ghost use Rattle.vol_layout.specs.declared.kind.Table.{Table};
ghost use Rattle.held_cache.specs.Kept.{ChangesOnly, ForgetsHost, IsFileTable, kept_at, number_of, place_of, places_of};

use crate::store::TableStore;
use std::alloc::Global;
use std::marker::Model;
use vol_base::{HostNo, NoMemory, Packed};
use vol_layout::{Geometry, Table};

/// The file tables that the hosts of a volume keep: for each host and each table block of a file
/// nothing, or the table that was kept last and not forgotten since. How they stand in memory is in
/// docs/ARCHITECTURE.md, "Kept tables".
#[derive(Drop)]
pub struct HeldCache {
    volume: Geometry,
    tables: TableStore,
}

impl Model for HeldCache {
    ghost use Rattle.std.specs.Prelude.{◌≡◌, length};
    ghost use Rattle.vol_layout.specs.Ranges.{IsGeometry};
    ghost use Rattle.held_cache.specs.Kept.{Cache, places_of};

    ghost Value = { Cache };

    ghost view = { λ cache. record { volume = cache.volume; places = cache.tables } };

    ghost invariant = { λ cache. IsGeometry cache.volume × (length cache.tables ≡ places_of cache.volume) };
}

impl HeldCache {
    /// A cache for the hosts and files of a volume, which keeps nothing yet. It reserves the memory of
    /// all tables that can be kept, 64 MiB at most, and the system hands it out as tables are kept.
    pub fn new(alloc: Global, volume: &Geometry) -> Result<HeldCache, NoMemory>
        requires { IsGeometry volume.now }
        ensures volume { IfOk result (λ cache. cache.volume ≡ volume.now) }
        ensures nothing { IfOk result (λ cache. (host : ℕ) (which : Table) → kept_at cache host which ≡ None) }
    {
        let places = usize::from(volume.hosts) * volume.file_tables() as usize;
        Ok(HeldCache {
            volume: *volume,
            tables: TableStore::new(alloc, places)?,
        })
    }

    /// Keeps a table for a host. It takes no memory.
    pub fn keep(&mut self, host: HostNo, which: Table, kept: &Packed<4>)
        requires host { host < self.old.volume.hosts }
        requires table { IsFileTable self.old.volume which }
        ensures { ChangesOnly self.old self.new host which (Some kept.now) }
    {
        let place = place_of(&self.volume, host, which);
        self.tables.set(place, copied(kept));
    }

    /// The table that is kept for a host; `None` exactly where none is.
    pub fn get(&self, host: HostNo, which: Table) -> Option<&Packed<4>>
        requires host { host < self.now.volume.hosts }
        requires table { IsFileTable self.now.volume which }
        ensures { option_copied result ≡ kept_at self.now host which }
    {
        self.tables.get(place_of(&self.volume, host, which))
    }

    /// Forgets a table of a host. Tables of groups and parts are never kept.
    pub fn forget(&mut self, host: HostNo, which: Table)
        requires host { host < self.old.volume.hosts }
        requires table { HasTable self.old.volume which }
        ensures { ChangesOnly self.old self.new host which None }
    {
        if let Table::File(_) | Table::More(_, _) = which {
            let place = place_of(&self.volume, host, which);
            self.tables.clear(place);
        }
    }

    /// Forgets all tables of a host.
    pub fn forget_host(&mut self, host: HostNo)
        requires { host < self.old.volume.hosts }
        ensures { ForgetsHost self.old self.new host }
    {
        let each = self.volume.file_tables() as usize;
        let first = usize::from(host) * each;
        self.tables.clear_range(first, first + each);
    }
}

// The place of a file table of a host.
fn place_of(volume: &Geometry, host: HostNo, which: Table) -> usize
    requires geometry { IsGeometry volume.now }
    requires host { host < volume.now.hosts }
    requires table { IsFileTable volume.now which }
    ensures place { result ≡ place_of volume.now host which }
    ensures within { result < places_of volume.now }
{
    usize::from(host) * volume.file_tables() as usize + number_of(volume, which)
}

// The number of a file table among those of all files.
fn number_of(volume: &Geometry, which: Table) -> usize
    requires geometry { IsGeometry volume.now }
    requires table { IsFileTable volume.now which }
    ensures number { result ≡ number_of volume.now which }
    ensures within { result < file_tables volume.now }
{
    let tables = usize::from(volume.tables);
    match which {
        Table::File(file) => usize::from(file) * tables,
        Table::More(file, block) => usize::from(file) * tables + usize::from(block),
        Table::Group(_) | Table::Part(_) => unreachable!(),
    }
}

fn copied(table: &Packed<4>) -> Packed<4>
    ensures { result ≡ table.now }
{
    table.clone().unwrap()
}
