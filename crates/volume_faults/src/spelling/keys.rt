// The keys that a device gave.
ghost use Rattle.std.specs.Prelude.{◌/◌, ◌≤◌, ◌↔◌, IsTrue};

use vol_base::Key;

/// Whether the device's counter has reached the registration of the key.
pub fn is_given(counter: u64, key: Key) -> bool
    ensures { IsTrue result ↔ (key.0 / 16 ≤ counter) }
{
    key.0 / 16 <= counter
}
