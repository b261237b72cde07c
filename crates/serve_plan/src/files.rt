// The files that a host holds for writing.
ghost use Rattle.std.specs.Prelude.{◌<◌};
ghost use Rattle.serve_plan.specs.Files.{IsNextHeld};

use meta_world::MetaWorld;
use shared_disk::Device;
use vol_base::{FileNo, HostNo};
use vol_layout::Resource;

/// The first of them from a number on.
pub(crate) fn next_held<D: Device>(
    world: &MetaWorld<D>,
    host: HostNo,
    from: FileNo,
) -> Option<FileNo>
    requires host { host < world.now.locks.geometry.hosts }
    ensures { IsNextHeld world.now host from result }
{
    let files = world.locks().geometry().files;
    for file in from..files {
        if world.locks().holds(host, Resource::File(file)) {
            return Some(file);
        }
    }
    None
}
