// The key under which a check or a survey is made.
ghost use Rattle.std.specs.Prelude.{◌≡◌, ◌≤◌, ◌+◌, Contains, OnErr, OnOk};
ghost use Rattle.vol_base.specs.Faults.{Rose};
ghost use Rattle.shared_disk.specs.Calls.{after_fence};

use shared_disk::Device;
use vol_base::Key;

/// The device failed, and the key may still be registered.
#[derive(Clone, Copy, Debug, PartialEq, Eq)]
pub struct NotFenced;

/// Fences the own key.
pub fn end<D: Device>(disk: &mut D, key: Key) -> Result<(), NotFenced>
    requires { Contains (D.state disk.old).keys key.0 }
    ensures done { OnOk result (D.state disk.new ≡ after_fence key.0 (D.state disk.old)) }
    ensures same { OnErr result (D.state disk.new ≡ D.state disk.old) }
    ensures failed { OnErr result (Rose (D.faults disk.old) (D.faults disk.new)) }
    ensures later { D.faults disk.old ≤ D.faults disk.new }
{
    match disk.fence(key, key) {
        Ok(()) => Ok(()),
        Err(_) => Err(NotFenced),
    }
}
