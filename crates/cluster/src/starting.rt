// The beginning of a cluster: its room, the opening of its device, and its first state.
ghost use Rattle.std.specs.Prelude.{◌≡◌, ◌+◌, ◌<◌, ◌≤◌, ◌^◌, All, IfErr, IfOk, None, [], length, replicate, false};
ghost use Rattle.cluster.specs.Agreements.{IsKnownLine};
ghost use Rattle.cluster.specs.Runs.{Facts, Led};
ghost use Rattle.cluster.specs.Starts.{AreFirst, HasRefused, HasStarted, IsRoomFor, first_cluster};
ghost use Rattle.cluster.specs.Views.{IsFirstSeat};
ghost use Rattle.host_runs.specs.DeviceCalls.{OnImage};
ghost use Rattle.image_view.specs.Valid.{IsValid};
ghost use Rattle.shared_disk.specs.Seen.{seen_by};
ghost use Rattle.vol_layout.specs.Ranges.{IsGeometry};
ghost use Rattle.vol_layout.specs.Regions.{total};
ghost use Rattle.workload.specs.Workloads.{IsWorkload};

use crate::budget::{Budget, lines_left};
use crate::cluster::Cluster;
use crate::ledger::Ledger;
use crate::parts::{Parts, next_own};
use crate::seat::Seat;
use crate::start_seen::StartSeen;
use disk_locks::Locks;
use held_cache::HeldCache;
use meta_world::MetaWorld;
use shared_disk::Device;
use std::alloc::Global;
use vol_base::{HostNo, NoMemory};
use vol_layout::Geometry;
use volume_opening::{OpenNo, open};
use workload::{Line, Workload};

/// All the memory that a cluster takes.
#[derive(Drop)]
pub struct Room {
    pub ledger: Ledger,
    pub cache: HeldCache,
    pub heads: Vec<Option<u32>>,
    pub seats: Vec<Seat>,
    pub budget: Budget,
}

impl<D: Device> Cluster<D> {
    /// Opens a device for a workload: a blank one becomes an empty volume, and any other one has to be a valid volume of the
    /// workload's geometry. Before that all memory of the run is taken, but for what the device takes. Where it is not opened the
    /// device is handed back: docs/FORMATS.md, "Opening".
    pub fn start(alloc: Global, disk: D, workload: Workload) -> Result<Cluster<D>, (OpenNo, D)>
        requires workload { IsWorkload workload }
        requires known { All IsKnownLine workload.lines }
        ensures started { IfOk result (λ cluster. HasStarted (seen_by D.Device disk) workload cluster) }
        ensures refused { IfErr result (λ e. HasRefused workload.geometry (seen_by D.Device disk) e.0 (seen_by D.Device e.1)) }
    {
        let room = match take_room(alloc, &workload) {
            Ok(room) => room,
            Err(_) => return Err((OpenNo::NoMemory, disk)),
        };
        let mut disk = disk;
        match open(alloc, &mut disk, &workload.geometry) {
            Ok(()) => Ok(begin(disk, workload, room)),
            Err(no) => Err((no, disk)),
        }
    }
}

// The cluster over an opened device, before its first turn.
fn begin<D: Device>(disk: D, workload: Workload, room: Room) -> Cluster<D>
    requires workload { IsWorkload workload }
    requires known { All IsKnownLine workload.lines }
    requires room { IsRoomFor workload room }
    requires long { total workload.geometry ≤ (D.state disk).blocks }
    requires valid { OnImage (D.state disk) (IsValid workload.geometry (D.state disk).counter) }
    ensures is { result ≡ first_cluster (seen_by D.Device disk) workload room }
    ensures run { Led result [] }
    ensures facts { Facts result }
{
    let _phases = phases_of(&workload);
    let start = StartSeen::of(&disk);
    let locks = Locks::new(disk, workload.geometry);
    let mut budget = room.budget;
    budget.begin(lines_left(workload.lines.as_slice(), room.ledger.answers(), 0));
    Cluster {
        parts: Parts {
            world: MetaWorld::new(locks),
            cache: room.cache,
            workload,
            phase: 0,
            ledger: room.ledger,
            heads: room.heads,
            seats: room.seats,
        },
        spent: false,
        budget,
        start,
    }
}

// The number of phases, by whose type a clause knows its range.
fn phases_of(workload: &Workload) -> u32
    ensures { result ≡ workload.now.phases }
{
    workload.phases
}

// The memory of the run of a workload.
fn take_room(alloc: Global, workload: &Workload) -> Result<Room, NoMemory>
    requires { IsWorkload workload.now }
    ensures { IfOk result (IsRoomFor workload.now) }
{
    let lines = workload.lines.as_slice();
    let hosts = workload.geometry.hosts;
    Ok(Room {
        ledger: Ledger::new(alloc, lines.len())?,
        cache: HeldCache::new(alloc, &workload.geometry)?,
        heads: first_lines(alloc, lines, hosts)?,
        seats: first_seats(alloc, &workload.geometry)?,
        budget: Budget::new(alloc, hosts)?,
    })
}

// The first line of each host.
fn first_lines(alloc: Global, lines: &[Line], hosts: HostNo) -> Result<Vec<Option<u32>>, NoMemory>
    requires { length lines.now < 4294967296 }
    ensures { IfOk result (λ heads. AreFirst lines.now hosts heads.items) }
{
    let mut heads = Vec::with_capacity(alloc, usize::from(hosts))?;
    for host in 0..hosts {
        heads.push_reserved(next_own(lines, 0, host));
    }
    Ok(heads)
}

// All hosts before they begin.
fn first_seats(alloc: Global, geometry: &Geometry) -> Result<Vec<Seat>, NoMemory>
    requires { IsGeometry geometry.now }
    ensures hosts { IfOk result (λ seats. length seats.items ≡ geometry.now.hosts) }
    ensures first { IfOk result (λ seats. All (IsFirstSeat geometry.now) seats.items) }
{
    let hosts = geometry.hosts;
    let mut seats = Vec::with_capacity(alloc, usize::from(hosts))?;
    for _ in 0..hosts {
        seats.push_reserved(Seat::new(alloc, geometry)?);
    }
    Ok(seats)
}
