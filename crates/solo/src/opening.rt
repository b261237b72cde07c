// The opening of a device for a host that is alone: which volume stands there.
ghost use Rattle.std.specs.Prelude.{◌≡◌, ◌≤◌, Contains, IfErr, IfOk};
ghost use Rattle.shared_disk.specs.Seen.{seen_by};
ghost use Rattle.solo.specs.Starts.{HasStartCause, IsGiven, IsOpenAs, TellsVolume};

use crate::reading::SOLO;
use crate::refusal::refused;
use settle::LoneNo;
use shared_disk::Device;
use vol_base::Key;
use vol_layout::Geometry;

/// The geometry of the volume on a device. A key is registered for the host, block 0 is read, and that key is taken off.
pub fn open<D: Device>(disk: &mut D) -> Result<Geometry, LoneNo>
    requires volume { TellsVolume (D.state disk.old) }
    ensures opened { IfOk result (λ geometry. IsOpenAs geometry (D.state disk.new)) }
    ensures volume { TellsVolume (D.state disk.new) }
    ensures told { (D.state disk.new).told ≡ (D.state disk.old).told }
    ensures given { IsGiven 1 (D.state disk.old) (D.state disk.new) }
    ensures cause { IfErr result (HasStartCause (seen_by D.Device disk.old) (seen_by D.Device disk.new)) }
    ensures later { D.faults disk.old ≤ D.faults disk.new }
{
    let key = match disk.register(SOLO) {
        Ok(key) => key,
        Err(why) => return Err(refused(why)),
    };
    let found = find(disk, key);
    match disk.fence(key, key) {
        Ok(()) => found,
        Err(_) => Err(LoneNo::Failed),
    }
}

// The geometry that block 0 says, of a volume that has room on the device.
fn find<D: Device>(disk: &mut D, key: Key) -> Result<Geometry, LoneNo>
    requires key { Contains (D.state disk.old).keys key.0 }
    requires volume { TellsVolume (D.state disk.old) }
    ensures found { IfOk result (λ geometry. IsOpenAs geometry (D.state disk.old)) }
    ensures same { D.state disk.new ≡ D.state disk.old }
    ensures cause { IfErr result (HasStartCause (seen_by D.Device disk.old) (seen_by D.Device disk.new)) }
    ensures later { D.faults disk.old ≤ D.faults disk.new }
{
    if disk.blocks() == 0 {
        return Err(LoneNo::Bad(0));
    }
    let block = match disk.read(key, 0) {
        Ok(block) => block,
        Err(_) => return Err(LoneNo::Failed),
    };
    let geometry = match Geometry::read(&block) {
        Ok(geometry) => geometry,
        Err(_) => return Err(LoneNo::Bad(0)),
    };
    if disk.blocks() < geometry.total() {
        return Err(LoneNo::Bad(0));
    }
    Ok(geometry)
}
