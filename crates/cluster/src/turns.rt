// The cluster as a run that several threads move forward.
ghost use Rattle.cluster.specs.Waits.{has_line, waited_for};

use crate::cluster::Cluster;
use shared_disk::Device;
use vol_base::{Digest, HostNo, NoMemory, Turn, Turns};

impl<D: Device> Turns for Cluster<D> {
    ghost hosts = { λ o. o.workload.geometry.hosts };

    ghost has_command = { λ c host. has_line c.parts host };

    ghost awaited = { λ c host. waited_for c host };

    ghost left = { λ c. c.budget.left };

    fn turn(&mut self, host: HostNo) -> Result<Turn, NoMemory> {
        Cluster::turn(self, host)
    }

    fn supply(&mut self, host: HostNo, digest: Digest) {
        Cluster::supply(self, host, digest);
    }

    fn left(&self) -> u64 {
        Cluster::left(self)
    }
}
