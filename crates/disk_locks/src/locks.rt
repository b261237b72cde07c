// The locks: the store, with memory and image in agreement.
ghost use Rattle.std.specs.Prelude.{◌≡◌, ◌≢◌, ◌<◌, ◌≤◌, ◌↔◌, ℕ, IfSome, IsNone, replicate, true};
ghost use Rattle.disk_locks.specs.Consistent.{Consistent};
ghost use Rattle.disk_locks.specs.InMemory.{IsHeldInMemory};
ghost use Rattle.disk_locks.specs.Others.{Others};
ghost use Rattle.lock_store.specs.Memories.{dropped, holds, index_of, reads};
ghost use Rattle.lock_store.specs.Views.{host_at, key_at, keys_of, seen, told_of};
ghost use Rattle.shared_disk.specs.Seen.{disk_seen};
ghost use Rattle.slot_lock_blocks.specs.Keys.{IsKeyOf};
ghost use Rattle.lock_store.specs.Events.{Notes};
ghost use Rattle.vol_layout.specs.Ranges.{HasResource, IsGeometry};
ghost use Rattle.vol_layout.specs.declared.kind.Resource.{Resource};
ghost use Rattle.vol_layout.specs.Regions.{total};
ghost use Rattle.image_view.specs.Valid.{IsValid};

use lock_store::{HostState, Store};
use shared_disk::Device;
use std::marker::Model;
use vol_base::{FileNo, HostNo, Key};
use vol_layout::{Geometry, Resource};

/// Keys, slots, claims and locks of all hosts of a volume. What it is is seen as the device, the geometry, and what each host has
/// in memory; image and memory agree between any two calls.
#[derive(Drop)]
pub struct Locks<D: Device> {
    pub(crate) store: Store<D>,
}

impl<D: Device> Model for Locks<D> {
    ghost use Rattle.disk_locks.specs.Consistent.{Consistent};
    ghost use Rattle.lock_store.specs.Views.{LocksView};

    ghost Value = { LocksView };

    ghost view = { λ l. l.store };

    ghost invariant = { λ l. Consistent l.store };
}

impl<D: Device> Locks<D> {
    /// Locks over a device that, where it tells its content, has a valid volume. No host has a key afterwards. No device call is made.
    pub fn new(disk: D, geometry: Geometry) -> Locks<D>
        requires geometry { IsGeometry geometry }
        requires long { total geometry ≤ (D.state disk).blocks }
        requires valid { IfSome (D.state disk).told (λ t. IsValid geometry (D.state disk).counter t.image) }
        ensures { result ≡ seen (D.state disk) (D.faults disk) (D.room disk) (D.answered disk) geometry (replicate 16 dropped) }
    {
        let store = Store::new(disk, geometry);
        store.known();
        Locks { store }
    }

    /// The device, with no call of it.
    pub fn close(self) -> D
        ensures { self.disk ≡ disk_seen (D.state result) (D.faults result) (D.room result) (D.answered result) }
    {
        self.store.close()
    }

    /// The geometry of the volume, and what holds between any two calls: what each host with a key holds in memory.
    pub fn geometry(&self) -> &Geometry
        ensures geometry { result.now ≡ self.now.geometry }
        ensures consistent { Consistent self.now }
        ensures memory { IfSome (told_of self.now) (λ t. (h : ℕ) → key_at self.now h ≢ 0 → IsHeldInMemory self.now.geometry (keys_of self.now) t.image h (host_at self.now h)) }
    {
        self.store.geometry()
    }

    /// The key of the host; `None` exactly where it has none.
    pub fn key_of(&self, host: HostNo) -> Option<Key>
        requires { host < self.now.geometry.hosts }
        ensures none { IsNone result ↔ (key_at self.now host ≡ 0) }
        ensures key { IfSome result (λ key. key.0 ≡ key_at self.now host) }
        ensures of_host { IfSome result (λ key. IsKeyOf host key.0) }
    {
        self.me(host).key
    }

    /// What the host has in memory.
    pub fn host(&self, host: HostNo) -> &HostState
        requires { host < self.now.geometry.hosts }
        ensures { result.now ≡ host_at self.now host }
    {
        self.me(host)
    }

    /// Whether the host holds the resource.
    pub fn holds(&self, host: HostNo, what: Resource) -> bool
        requires host { host < self.now.geometry.hosts }
        requires what { HasResource self.now.geometry what }
        ensures { result ≡ holds (host_at self.now host) what }
    {
        self.me(host).holds(what)
    }

    /// Whether the host reads the file.
    pub fn reads(&self, host: HostNo, file: FileNo) -> bool
        requires host { host < self.now.geometry.hosts }
        requires file { file < self.now.geometry.files }
        ensures { result ≡ reads (host_at self.now host) (Resource.File file) }
    {
        self.me(host).reads(Resource::File(file))
    }

    /// Drops the host: it has no key and holds nothing in memory, while the disk stays as it is.
    pub fn drop_host(&mut self, host: HostNo)
        requires host { host < self.old.geometry.hosts }
        ensures did { Notes host dropped self.old self.new }
        ensures others { Others host self.old self.new }
    {
        self.store.note(host, &HostState::dropped());
    }
}

impl<D: Device> Locks<D> {
    // What a call of a host starts from.
    pub(crate) fn me(&self, host: HostNo) -> &HostState
        requires { host < self.now.geometry.hosts }
        ensures memory { result.now ≡ host_at self.now host }
        ensures consistent { Consistent self.now }
        ensures named { (host_at self.now host).joined ≡ true → key_at self.now host ≢ 0 }
        ensures small { (h : ℕ) → h < self.now.geometry.hosts → h < 16 }
        ensures files { self.now.geometry.files ≤ 64 }
        ensures resources { (r : Resource) → HasResource self.now.geometry r → index_of r < 144 }
    {
        self.store.host(host)
    }

    // The key of a host that has one.
    pub(crate) fn key(&self, host: HostNo) -> Key
        requires host { host < self.now.geometry.hosts }
        requires key { key_at self.now host ≢ 0 }
        ensures key { key_at self.now host ≡ result.0 }
        ensures of_host { IsKeyOf host result.0 }
        ensures consistent { Consistent self.now }
    {
        self.me(host).key.unwrap()
    }
}
