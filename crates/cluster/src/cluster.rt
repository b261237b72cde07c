// A run of several hosts on one device, one turn at a time.
ghost use Rattle.std.specs.Prelude.{◌≡◌, ◌↔◌, ◌+◌, ◌<◌, ◌≤◌, ℕ, IfErr, IfNone, IfOk, IfSome, None, IsErr, IsOk, IsTrue, true, false};
ghost use Rattle.cluster.specs.Agreements.{Supplied, Turned};
ghost use Rattle.cluster.specs.Runs.{Facts, Goes, GoesOn, IsIdle, IsStill, SameStart};
ghost use Rattle.cluster.specs.Views.{disk_of};
ghost use Rattle.cluster.specs.Waits.{Tells, has_line, waited_for};
ghost use Rattle.host_runs.specs.NextLines.{next_line};
ghost use Rattle.host_runs.specs.Runs.{RunCall};
ghost use Rattle.shared_disk.specs.Seen.{seen_by};
ghost use Rattle.vol_base.specs.Grows.{BeginsWith};
ghost use Rattle.vol_base.specs.Turned.{Lowers, Stays};

use crate::budget::Budget;
use crate::parts::Parts;
use crate::start_seen::StartSeen;
use plain_files::Placed;
use shared_disk::Device;
use std::marker::Model;
use vol_base::{Answer, Digest, HostNo, NoMemory, Turn};
use workload::Workload;

/// The hosts of a workload over their one device, which several callers may move forward, one turn at a time. Between any two calls
/// there was a run from the device at the end of `start` to the present state: docs/DEFINITIONS.md, "A run of several hosts".
#[derive(Drop)]
pub struct Cluster<D: Device> {
    pub(crate) parts: Parts<D>,
    /// Whether a turn was refused memory.
    pub(crate) spent: bool,
    /// The turns that the phase has left.
    pub(crate) budget: Budget,
    pub(crate) start: StartSeen<D>,
}

impl<D: Device> Model for Cluster<D> {
    ghost use Rattle.cluster.specs.Budgets.{IsKept};
    ghost use Rattle.cluster.specs.Views.{ClusterView};
    ghost use Rattle.shared_disk.specs.Seen.{seen_by};

    ghost Value = { ClusterView };

    ghost view = { λ c. record { began = seen_by D.Device c.start.value; spent = c.spent; parts = c.parts; budget = c.budget } };

    ghost invariant = { λ c. IsKept (record { began = seen_by D.Device c.start.value; spent = c.spent; parts = c.parts; budget = c.budget }) };
}

/// What a cluster leaves: its device, its workload, the answers of the workload's lines by position, and the history.
#[derive(Drop)]
pub struct Closed<D> {
    pub disk: D,
    pub workload: Workload,
    pub answers: Vec<Option<Answer>>,
    pub history: Vec<Placed>,
}

impl<D: Device> Cluster<D> {
    /// One turn of a host: at most one device call. Memory is taken only where the device takes it. After `NoMemory` every later turn
    /// answers it too.
    pub fn turn(&mut self, host: HostNo) -> Result<Turn, NoMemory>
        ensures same { SameStart self.old self.new }
        ensures turned { IfOk result (λ turn. Turned self.old.parts host turn self.new.parts) }
        ensures run { IfOk result (λ turn. GoesOn self.old (RunCall.Turns host turn) self.new) }
        ensures live { IfOk result (λ turn. self.new.spent ≡ false) }
        ensures phase { self.new.parts.phase ≡ self.old.parts.phase }
        ensures events { BeginsWith self.old.parts.ledger.events self.new.parts.ledger.events }
        ensures facts { Facts self.new }
        ensures err { IfErr result (λ e. IsStill self.old.parts self.new.parts) }
        ensures spent { IfErr result (λ e. self.new.spent ≡ true) }
        ensures ever { self.old.spent ≡ true → IsErr result }
        ensures unchanged { self.old.spent ≡ true → self.new ≡ self.old }
        ensures lowers { IfOk result (λ turn. Lowers turn self.old.budget.left self.new.budget.left) }
        ensures stays { IfOk result (λ turn. Stays turn self.old self.new) }
        ensures tells { IfOk result (λ turn. Tells self.old.parts host turn) }
        ensures nobody { (h : ℕ) → self.old.parts.workload.geometry.hosts ≤ h → has_line self.old.parts h ≡ false }
        ensures room { 0 < (disk_of self.old.parts).room → self.old.spent ≡ false → IsOk result }
    {
        if self.spent {
            return Err(NoMemory);
        }
        match self.parts.turn(host) {
            Ok(turn) => {
                self.budget.count(host, &turn);
                Ok(turn)
            }
            Err(no) => {
                self.spent = true;
                Err(no)
            }
        }
    }

    /// Hands in the digest of the block that a host waits for. Where it waits for none the run stays as it is, and after `NoMemory` so does
    /// the cluster.
    pub fn supply(&mut self, host: HostNo, digest: Digest)
        ensures same { SameStart self.old self.new }
        ensures noted { self.old.spent ≡ false → Supplied self.old.parts host digest self.new.parts }
        ensures run { self.old.spent ≡ false → GoesOn self.old (RunCall.Supplies host digest) self.new }
        ensures live { self.new.spent ≡ self.old.spent }
        ensures phase { self.new.parts.phase ≡ self.old.parts.phase }
        ensures lists { self.new.parts.ledger ≡ self.old.parts.ledger }
        ensures facts { Facts self.new }
        ensures spent { self.old.spent ≡ true → self.new ≡ self.old }
        ensures lowers { IfSome (waited_for self.old host) (λ block. self.new.budget.left < self.old.budget.left) }
        ensures none { IfNone (waited_for self.old host) (self.new ≡ self.old) }
        ensures supplied { waited_for self.new host ≡ None }
    {
        if self.spent {
            return;
        }
        let waits = self.parts.awaited(host).is_some();
        self.parts.supply(host, digest);
        self.budget.supply(host, waits);
    }

    /// Whether no host has a command left in the phase.
    pub fn idle(&self) -> bool
        ensures { IsTrue result ↔ IsIdle self.now.parts }
    {
        self.parts.is_idle()
    }

    /// Begins the next phase; false exactly where there is none.
    pub fn next_phase(&mut self) -> bool
        requires idle { IsIdle self.old.parts }
        ensures same { SameStart self.old self.new }
        ensures goes { self.old.spent ≡ false → result ≡ true → Goes self.old.parts RunCall.NextPhase self.new.parts }
        ensures run { self.old.spent ≡ false → result ≡ true → GoesOn self.old RunCall.NextPhase self.new }
        ensures begun { result ≡ true → self.new.parts ≡ record self.old.parts { phase = self.old.parts.phase + 1 } }
        ensures live { self.new.spent ≡ self.old.spent }
        ensures more { result ≡ true → self.old.parts.phase + 1 < self.old.parts.workload.phases }
        ensures last { result ≡ false → self.old.parts.workload.phases ≤ self.old.parts.phase + 1 }
        ensures unchanged { result ≡ false → self.new ≡ self.old }
        ensures facts { Facts self.new }
    {
        if !self.parts.next_phase() {
            return false;
        }
        let lines = self.parts.lines_left();
        self.budget.begin(lines);
        true
    }

    /// How many turns are left of the phase at most, each of which begins a command, goes on with one or answers one; 0 exactly where no host
    /// has a command left.
    pub fn left(&self) -> u64
        ensures value { result ≡ self.now.budget.left }
        ensures none { (self.now.budget.left ≡ 0) ↔ IsIdle self.now.parts }
    {
        self.budget.left()
    }

    /// The number of hosts; a number from there on has no command.
    pub fn hosts(&self) -> HostNo
        ensures value { result ≡ self.now.parts.workload.geometry.hosts }
        ensures nobody { (h : ℕ) → result ≤ h → has_line self.now.parts h ≡ false }
    {
        self.parts.hosts()
    }

    /// Whether a turn was refused memory, so that every later one is.
    pub fn is_spent(&self) -> bool
        ensures { result ≡ self.now.spent }
    {
        self.spent
    }

    /// The position of the line that a host is at; `None` exactly where it has no command left in the phase.
    pub fn next_line(&self, host: HostNo) -> Option<u32>
        ensures { result ≡ next_line self.now.parts.workload.lines self.now.parts.ledger.answers self.now.parts.phase host }
    {
        self.parts.next_line(host)
    }

    /// The history so far.
    pub fn history(&self) -> &[Placed]
        ensures { result.now ≡ self.now.parts.ledger.history }
    {
        self.parts.ledger.history()
    }

    /// The answers so far, by position.
    pub fn answers(&self) -> &[Option<Answer>]
        ensures { result.now ≡ self.now.parts.ledger.answers }
    {
        self.parts.ledger.answers()
    }

    /// The device, with no call of it, the workload, and what came to be known.
    pub fn close(self) -> Closed<D>
        ensures disk { seen_by D.Device result.disk ≡ disk_of self.parts }
        ensures workload { result.workload ≡ self.parts.workload }
        ensures answers { result.answers.items ≡ self.parts.ledger.answers }
        ensures history { result.history.items ≡ self.parts.ledger.history }
        ensures facts { Facts self }
    {
        let parts = self.parts;
        let (answers, history) = parts.ledger.into_lists();
        Closed {
            disk: parts.world.close(),
            workload: parts.workload,
            answers,
            history,
        }
    }
}
