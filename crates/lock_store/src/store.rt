// The device, the geometry of its volume, and what each host has in memory.
ghost use Rattle.std.specs.Prelude.{◌≡◌, ◌<◌, ◌≤◌, length, replicate};
ghost use Rattle.lock_store.specs.Devices.{IsDevice};
ghost use Rattle.lock_store.specs.Events.{Notes};
ghost use Rattle.lock_store.specs.Memories.{dropped};
ghost use Rattle.lock_store.specs.Views.{host_at, seen};
ghost use Rattle.shared_disk.specs.Seen.{disk_seen};
ghost use Rattle.vol_layout.specs.Ranges.{IsGeometry};
ghost use Rattle.vol_layout.specs.Regions.{total};

use crate::host::HostState;
use shared_disk::Device;
use std::marker::Model;
use vol_base::HostNo;
use vol_layout::Geometry;

/// A device, the geometry of its volume, and what each of 16 hosts has in memory.
#[derive(Drop)]
pub struct Store<D: Device> {
    pub(crate) disk: D,
    pub(crate) geometry: Geometry,
    pub(crate) hosts: [HostState; 16],
}

impl<D: Device> Model for Store<D> {
    ghost use Rattle.std.specs.Prelude.{◌≡◌, ◌≤◌, length};
    ghost use Rattle.lock_store.specs.Views.{LocksView, seen};
    ghost use Rattle.vol_layout.specs.Ranges.{IsGeometry};
    ghost use Rattle.vol_layout.specs.Regions.{total};

    ghost Value = { LocksView };

    ghost view = { λ s. seen (D.state s.disk) (D.faults s.disk) (D.room s.disk) (D.answered s.disk) s.geometry s.hosts };

    ghost invariant = { λ s. IsGeometry s.geometry × (total s.geometry ≤ (D.state s.disk).blocks) × (length s.hosts ≡ 16) };
}

impl<D: Device> Store<D> {
    /// A store over the device, with no host that has a key. It makes no call of the device.
    pub fn new(disk: D, geometry: Geometry) -> Store<D>
        requires geometry { IsGeometry geometry }
        requires long { total geometry ≤ (D.state disk).blocks }
        ensures { result ≡ seen (D.state disk) (D.faults disk) (D.room disk) (D.answered disk) geometry (replicate 16 dropped) }
    {
        Store {
            disk,
            geometry,
            hosts: [HostState::dropped(); 16],
        }
    }

    /// The device, with no call of it.
    pub fn close(self) -> D
        ensures { self.disk ≡ disk_seen (D.state result) (D.faults result) (D.room result) (D.answered result) }
    {
        self.disk
    }

    /// The geometry of the volume.
    pub fn geometry(&self) -> &Geometry
        ensures geometry { result.now ≡ self.now.geometry }
        ensures range { IsGeometry self.now.geometry }
        ensures long { total self.now.geometry ≤ self.now.disk.state.blocks }
    {
        &self.geometry
    }

    /// What the host has in memory.
    pub fn host(&self, host: HostNo) -> &HostState
        requires { host < 16 }
        ensures memory { result.now ≡ host_at self.now host }
        ensures many { length self.now.hosts ≡ 16 }
    {
        &self.hosts[usize::from(host)]
    }

    /// What every device keeps.
    pub fn known(&self)
        ensures device { IsDevice self.now.disk.state }
    {
        let _geometry = self.geometry;
    }

    /// Notes what the host has in memory from now on. It makes no call of the device.
    pub fn note(&mut self, host: HostNo, memory: &HostState)
        requires { host < 16 }
        ensures { Notes host memory.now self.old self.new }
    {
        self.hosts[usize::from(host)] = *memory;
    }
}
