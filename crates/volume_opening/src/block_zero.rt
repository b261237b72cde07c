// What stands at block 0 of a device.
ghost use Rattle.std.specs.Prelude.{◌≡◌, ◌≢◌, ◌≤◌, Contains, IfOk, IfSome};
ghost use Rattle.vol_base.specs.Faults.{Rose};
ghost use Rattle.image_view.specs.Images.{first_block};
ghost use Rattle.volume_opening.specs.Found.{IsFound};

use shared_disk::{Device, DiskNo};
use vol_base::{Block, Key};
use vol_layout::Geometry;

/// What block 0 of a device says.
#[derive(Clone, Copy)]
pub enum Found {
    /// It is all zeros.
    Blank,
    /// It is the superblock of this geometry.
    Volume(Geometry),
    /// It is anything else, or the device has no block.
    Other,
}

impl Found {
    fn of(block: &Block) -> Found
        ensures { IsFound block.now.0 result }
    {
        if block.is_zeros() {
            return Found::Blank;
        }
        match Geometry::read(block) {
            Ok(geometry) => Found::Volume(geometry),
            Err(_) => Found::Other,
        }
    }
}

/// Reads block 0, where the device has one.
pub fn read_block_zero<D: Device>(disk: &mut D, key: Key) -> Result<Found, DiskNo>
    requires { Contains (D.state disk.old).keys key.0 }
    ensures found { IfOk result (λ found. IfSome (D.state disk.old).told (λ told. IsFound (first_block told.image) found)) }
    ensures same { D.state disk.new ≡ D.state disk.old }
    ensures fenced { result ≢ Err DiskNo.Fenced }
    ensures no_keys { result ≢ Err DiskNo.NoKeys }
    ensures memory { result ≢ Err DiskNo.NoMemory }
    ensures failed { result ≡ Err DiskNo.Failed → Rose (D.faults disk.old) (D.faults disk.new) }
    ensures later { D.faults disk.old ≤ D.faults disk.new }
{
    if disk.blocks() == 0 {
        return Ok(Found::Other);
    }
    let block = disk.read(key, 0)?;
    Ok(Found::of(&block))
}
