// Sources and sinks in memory, of which chosen calls fail.
ghost use Rattle.std.specs.Prelude.{◌≡◌, ◌+◌, ◌≤◌, ◌↔◌, [], List, ℕ, IfOk, OnErr, IsErr, IsTrue, length, min, is_err, Some};
ghost use Rattle.std.specs.Io.{ReadsAtMost, WritesAtMost};
ghost use Rattle.std.specs.Io.KnownBytes.{ReadConsumes, WriteAppends};
ghost use Rattle.vol_base.specs.Faults.{HasCause};
ghost use Rattle.vol_io.specs.Plan.{IsDue, called};
ghost use Rattle.vol_io.specs.Refusals.{CountsRefusals};
ghost use Rattle.vol_io.specs.Room.{KeepsRoom};

use crate::reading::{Failed, Source};
use crate::sure::{SureSink, SureSource};
use crate::writing::Sink;
use std::alloc::Global;
use std::marker::Model;
use vol_base::NoMemory;

/// The numbers of the calls that are to fail, where the first call is 1.
#[derive(Drop)]
struct FailPlan {
    fails: Vec<u64>,
    calls: u64,
    faults: u64,
}

impl Model for FailPlan {
    ghost use Rattle.vol_io.specs.Plan.{Plan};

    ghost Value = { Plan };

    ghost view = { λ p. record { fails = p.fails.items; calls = p.calls; faults = p.faults } };
}

impl FailPlan {
    fn new(fails: Vec<u64>) -> FailPlan
        ensures { result ≡ record { fails = fails.items; calls = 0; faults = 0 } }
    {
        FailPlan {
            fails,
            calls: 0,
            faults: 0,
        }
    }

    /// Counts a call, and answers whether it is to fail.
    fn next_fails(&mut self) -> bool
        ensures due { IsTrue result ↔ IsDue self.old }
        ensures counted { self.new ≡ called result self.old }
        ensures later { self.old.faults ≤ self.new.faults }
    {
        self.calls = self.calls.saturating_add(1);
        let due = self.fails.contains(&self.calls);
        if due {
            self.faults = self.faults.saturating_add(1);
        }
        due
    }
}

/// A source in memory. A contract sees it as the bytes that are left and the plan of its failures.
#[derive(Drop)]
pub struct MemSource {
    source: SureSource,
    plan: FailPlan,
}

impl Model for MemSource {
    ghost use Rattle.vol_io.specs.Held.{PlannedSource};

    ghost Value = { PlannedSource };

    ghost view = { λ s. record { left = s.source; plan = s.plan } };
}

impl MemSource {
    /// A source of these bytes. `fails` has the numbers of the calls that are to fail, where the
    /// first call is 1.
    pub fn new(bytes: Vec<u8>, fails: Vec<u64>) -> MemSource
        ensures { result ≡ record {
          left = bytes.items;
          plan = record { fails = fails.items; calls = 0; faults = 0 };
        } }
    {
        MemSource {
            source: SureSource::new(bytes),
            plan: FailPlan::new(fails),
        }
    }
}

impl Source for MemSource {
    ghost left = { λ s. Some s.left };

    ghost faults = { λ s. s.plan.faults };

    fn read_some(&mut self, into: &mut [u8]) -> Result<usize, Failed>
        ensures bound { ReadsAtMost result into.new }
        ensures bytes { ReadConsumes (Some self.old.left) (Some self.new.left) result into.new }
        ensures cause { HasCause self.old.plan.faults self.new.plan.faults result }
        ensures due { IsErr result ↔ IsDue self.old.plan }
        ensures plan { self.new.plan ≡ called (is_err result) self.old.plan }
        ensures gives { IfOk result (λ n. n ≡ min (length into.old) (length self.old.left)) }
    {
        if self.plan.next_fails() {
            return Err(Failed);
        }
        self.source.read_some(into)
    }
}

/// A sink in memory. A contract sees it as its store and the plan of its failures.
#[derive(Drop)]
pub struct MemSink {
    sink: SureSink,
    plan: FailPlan,
}

impl Model for MemSink {
    ghost use Rattle.vol_io.specs.Held.{PlannedStore};

    ghost Value = { PlannedStore };

    ghost view = { λ s. record { store = s.sink; plan = s.plan } };
}

impl MemSink {
    /// A sink that has room for so many bytes. `fails` has the numbers of the calls that are to
    /// fail, where the first call is 1.
    pub fn new(alloc: Global, room: usize, fails: Vec<u64>) -> Result<MemSink, NoMemory>
        ensures { IfOk result (λ sink. sink ≡ record {
          store = record { taken = []; room = room; refusals = 0 };
          plan = record { fails = fails.items; calls = 0; faults = 0 };
        }) }
    {
        let sink = SureSink::new(alloc, room)?;
        Ok(MemSink {
            sink,
            plan: FailPlan::new(fails),
        })
    }

    /// The bytes taken so far.
    pub fn taken(&self) -> &[u8]
        ensures { result.now ≡ self.now.store.taken }
    {
        self.sink.taken()
    }
}

impl Sink for MemSink {
    ghost taken = { λ s. Some s.store.taken };

    ghost faults = { λ s. s.plan.faults };

    ghost refusals = { λ s. s.store.refusals };

    ghost room = { λ s. s.store.room };

    fn write_some(&mut self, piece: &[u8]) -> Result<usize, Failed>
        ensures bound { WritesAtMost result piece.now }
        ensures bytes { WriteAppends (Some self.old.store.taken) (Some self.new.store.taken)
            result piece.now }
        ensures cause { HasCause self.old.plan.faults self.new.plan.faults result }
        ensures refusal { CountsRefusals self.old.store.refusals self.new.store.refusals
            result piece.now }
        ensures sure { KeepsRoom self.old.store.room self.new.store.room result piece.now }
        ensures due { IsErr result ↔ IsDue self.old.plan }
        ensures plan { self.new.plan ≡ called (is_err result) self.old.plan }
        ensures gives { IfOk result (λ count. count ≡ min (length piece.now) self.old.store.room) }
        ensures room { IfOk result (λ count. self.new.store.room + count ≡ self.old.store.room) }
        ensures kept { OnErr result (self.new.store ≡ self.old.store) }
    {
        if self.plan.next_fails() {
            return Err(Failed);
        }
        self.sink.write_some(piece)
    }
}
