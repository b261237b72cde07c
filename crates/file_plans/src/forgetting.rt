// The forgetting of a file's kept tables.
ghost use Rattle.std.specs.Prelude.{◌≡◌, ◌<◌};
ghost use Rattle.file_plans.specs.Forgets.{ForgetsFile};
ghost use Rattle.vol_layout.specs.Ranges.{IsGeometry};

use held_cache::HeldCache;
use vol_base::{FileNo, HostNo};
use vol_layout::{Geometry, Table};

/// Forgets all tables that are kept of a file for a host.
pub fn forget_file(geometry: &Geometry, cache: &mut HeldCache, host: HostNo, file: FileNo)
    requires geometry { IsGeometry geometry.now }
    requires volume { cache.old.volume ≡ geometry.now }
    requires host { host < geometry.now.hosts }
    requires file { file < geometry.now.files }
    ensures { ForgetsFile cache.old cache.new host file }
{
    cache.forget(host, Table::File(file));
    for more in 1..geometry.tables {
        cache.forget(host, Table::More(file, more));
    }
}
