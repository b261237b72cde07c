// The phases of a workload.
ghost use Rattle.std.specs.Prelude.{◌≡◌, ◌↔◌, ◌+◌, ◌<◌, ◌≤◌, IsTrue, true, false};
ghost use Rattle.cluster.specs.Agreements.{IsSound};
ghost use Rattle.cluster.specs.PlanTurns.{lines_left_of};
ghost use Rattle.cluster.specs.Runs.{IsIdle};

use crate::budget::lines_left;
use crate::parts::Parts;
use shared_disk::Device;

impl<D: Device> Parts<D> {
    /// Whether no host has a command left in the phase.
    pub fn is_idle(&self) -> bool
        requires sound { IsSound self.now }
        ensures { IsTrue result ↔ IsIdle self.now }
    {
        for host in 0..self.hosts() {
            if self.next_line(host).is_some() {
                return false;
            }
        }
        true
    }

    /// Begins the next phase, if there is one.
    pub fn next_phase(&mut self) -> bool
        requires sound { IsSound self.old }
        requires idle { IsIdle self.old }
        ensures more { result ≡ true → self.old.phase + 1 < self.old.workload.phases }
        ensures begun { result ≡ true → self.new ≡ record self.old { phase = self.old.phase + 1 } }
        ensures last { result ≡ false → (self.old.workload.phases ≤ self.old.phase + 1) }
        ensures same { result ≡ false → self.new ≡ self.old }
        ensures sound { IsSound self.new }
    {
        if self.phase + 1 < self.workload.phases {
            self.phase += 1;
            true
        } else {
            false
        }
    }

    /// How many lines of the phase have no answer.
    pub fn lines_left(&self) -> u64
        requires sound { IsSound self.now }
        ensures is { result ≡ lines_left_of self.now }
        ensures few { result < 4294967296 }
    {
        lines_left(
            self.workload.lines.as_slice(),
            self.ledger.answers(),
            self.phase,
        )
    }
}
