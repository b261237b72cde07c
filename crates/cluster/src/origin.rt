// What a cluster was started from, and the list of its events.
ghost use Rattle.std.specs.Prelude.{◌≡◌, length, map};
ghost use Rattle.cluster.specs.Origins.{origin_of, seen_event};

use crate::cluster::Cluster;
use crate::event::RunEvent;
use crate::start_seen::StartSeen;
use shared_disk::Device;
use std::marker::Model;
use vol_base::{Begun, Counted};
use workload::Workload;

/// What a cluster was started from: its workload, and its device at the end of `Cluster::start`; and its phase, which `next_phase`
/// alone changes. Contracts alone speak of it.
#[derive(Drop)]
pub struct Origin<D: Device> {
    workload: Workload,
    phase: u32,
    start: StartSeen<D>,
}

impl<D: Device> Model for Origin<D> {
    ghost use Rattle.cluster.specs.Origins.{OriginView};
    ghost use Rattle.shared_disk.specs.Seen.{seen_by};

    ghost Value = { OriginView };

    ghost view = { λ o. record { workload = o.workload; phase = o.phase; began = seen_by D.Device o.start.value } };
}

impl<D: Device> Begun for Cluster<D> {
    type Origin = Origin<D>;

    ghost began = { λ c. origin_of c };
}

impl<D: Device> Counted for Cluster<D> {
    type Entry = RunEvent;

    ghost listed = { λ c. map seen_event c.parts.ledger.events };

    fn entries(&self) -> u64 {
        self.parts.ledger.events()
    }
}
