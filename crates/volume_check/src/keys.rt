// The keys that slots and locks show.
ghost use Rattle.std.specs.Prelude.{◌≡◌, ◌≢◌, ◌<◌, ◌↔◌, IsTrue};
ghost use Rattle.vol_layout.specs.Ranges.{HasResource};
ghost use Rattle.image_view.specs.HostKeys.{IsHeldBy, slot_key_at};

use crate::metadata::Metadata;
use vol_base::{HostNo, Key};
use vol_layout::{Kind, Resource};

/// The state of a lock that is held.
pub const HELD: u32 = 1;

/// The key that a host's slot shows, 0 for none.
pub fn slot_key(metadata: &Metadata, host: HostNo) -> u64
    requires { host < metadata.now.geometry.hosts }
    ensures { result ≡ slot_key_at metadata.now.geometry metadata.now.image host }
{
    metadata.block(Kind::Slot(host)).u64_at(16)
}

/// Whether a host's slot shows this key, and is not free.
pub fn shows(metadata: &Metadata, host: HostNo, key: Key) -> bool
    requires { host < metadata.now.geometry.hosts }
    ensures { IsTrue result ↔ (slot_key_at metadata.now.geometry metadata.now.image host ≢ 0)
        × (key.0 ≡ slot_key_at metadata.now.geometry metadata.now.image host) }
{
    let shown = slot_key(metadata, host);
    shown != 0 && key.0 == shown
}

/// Whether the resource's lock is held by this key.
pub fn is_held_by(metadata: &Metadata, resource: Resource, key: Key) -> bool
    requires { HasResource metadata.now.geometry resource }
    ensures { IsTrue result ↔ IsHeldBy metadata.now.geometry metadata.now.image resource key.0 }
{
    let lock = metadata.block(Kind::Lock(resource));
    lock.u32_at(8) == HELD && lock.u64_at(16) == key.0
}
