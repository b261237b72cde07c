// A device that notes each call which it hands on, so that a test compares all calls with those that the rules give.
ghost use Rattle.std.specs.Prelude.{◌≡◌};

use crate::trace::Trace;
use shared_disk::{Device, DiskNo, Tested};
use vol_base::{Block, HostNo, Key};

/// A call of the device, and the place that it is at. A test-and-set is `Swap` where it wrote, and `Found` where another block stood.
#[derive(Clone, Copy, Debug, PartialEq, Eq)]
pub enum Call {
    Read(u64),
    Write(u64),
    Swap(u64),
    Found(u64),
    Register(HostNo),
    Fence(Key),
}

/// A device over another one, with the first 64 calls, and the text of all.
#[derive(Drop)]
pub struct Noting<D: Device> {
    disk: D,
    calls: [Call; 64],
    count: usize,
    trace: Trace,
}

impl<D: Device> Noting<D> {
    /// A device over this one, with no call.
    pub fn over(disk: D, trace: Trace) -> Noting<D>
        ensures { result.disk ≡ disk }
    {
        Noting {
            disk,
            calls: [Call::Read(0); 64],
            count: 0,
            trace,
        }
    }

    /// Call `k`, from 0.
    pub fn call(&self, k: usize) -> Option<Call> {
        if k < self.count {
            self.calls.get(k).copied()
        } else {
            None
        }
    }

    // Notes a call.
    fn note(&mut self, call: Call)
        ensures { self.new.disk ≡ self.old.disk }
    {
        if self.count < 64 {
            self.calls[self.count] = call;
            self.count += 1;
        }
    }
}

impl<D: Device + Drop> Noting<D> {
    /// The text of all calls.
    pub fn into_text(self) -> String {
        self.trace.into_text()
    }
}

impl<D: Device> Device for Noting<D> {
    ghost state = { λ n. D.state n.disk };

    ghost faults = { λ n. D.faults n.disk };

    ghost room = { λ n. D.room n.disk };

    ghost answered = { λ n. D.answered n.disk };

    fn blocks(&self) -> u64 {
        self.disk.blocks()
    }

    fn counter(&self) -> u64 {
        self.disk.counter()
    }

    fn calls(&self) -> u64 {
        self.disk.calls()
    }

    fn read(&mut self, key: Key, place: u64) -> Result<Block, DiskNo> {
        self.note(Call::Read(place));
        let read = self.disk.read(key, place);
        self.trace.add_read(key, place, &read);
        read
    }

    fn write(&mut self, key: Key, place: u64, block: &Block) -> Result<(), DiskNo> {
        self.note(Call::Write(place));
        let done = self.disk.write(key, place, block);
        self.trace.add_write(key, place, block, &done);
        done
    }

    fn test_and_set(
        &mut self,
        key: Key,
        place: u64,
        old: &Block,
        new: &Block,
    ) -> Result<Tested, DiskNo> {
        let tested = self.disk.test_and_set(key, place, old, new);
        self.note(match &tested {
            Ok(Tested::Found(_)) => Call::Found(place),
            _ => Call::Swap(place),
        });
        self.trace.add_test_and_set(key, place, old, new, &tested);
        tested
    }

    fn register(&mut self, host: HostNo) -> Result<Key, DiskNo> {
        self.note(Call::Register(host));
        self.trace.add_register(host);
        self.disk.register(host)
    }

    fn fence(&mut self, key: Key, target: Key) -> Result<(), DiskNo> {
        self.note(Call::Fence(target));
        self.trace.add_fence(key, target);
        self.disk.fence(key, target)
    }

    ghost whole_image = { λ n. D.whole_image n.disk };

    ghost whole_blocks = { λ n. D.whole_blocks n.disk };

    ghost keys_reached = { λ n. D.keys_reached n.disk };

    ghost keys_named = { λ n. D.keys_named n.disk };

    ghost counter_fits = { λ n. D.counter_fits n.disk };
}
