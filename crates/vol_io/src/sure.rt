// Sources and sinks in memory that never fail.
ghost use Rattle.std.specs.Prelude.{◌≡◌, ◌+◌, ◌≤◌, [], List, ℕ, IfOk, IsErr, length, min, Some, Ok};
ghost use Rattle.std.specs.Io.{ReadsAtMost, WritesAtMost};
ghost use Rattle.std.specs.Io.KnownBytes.{ReadConsumes, WriteAppends};
ghost use Rattle.vol_base.specs.Faults.{HasCause};
ghost use Rattle.vol_io.specs.Refusals.{CountsRefusals};
ghost use Rattle.vol_io.specs.Room.{KeepsRoom};

use crate::reading::{Failed, Source};
use crate::writing::{Sink, refusals_after};
use std::alloc::Global;
use std::marker::Model;
use vol_base::NoMemory;

/// A source in memory that never fails. A contract sees it as the bytes that are left.
#[derive(Drop)]
pub struct SureSource {
    bytes: Vec<u8>,
    start: usize,
}

impl Model for SureSource {
    ghost use Rattle.std.specs.Prelude.{◌≤◌, ℕ, List, drop, vec_len};

    ghost Value = { List ℕ };

    ghost view = { λ s. drop s.start s.bytes.items };

    ghost invariant = { λ s. s.start ≤ vec_len s.bytes };
}

impl SureSource {
    /// A source of these bytes.
    pub fn new(bytes: Vec<u8>) -> SureSource
        ensures { result ≡ bytes.items }
    {
        SureSource { bytes, start: 0 }
    }
}

impl Source for SureSource {
    ghost left = { λ s. Some s };

    ghost faults = { λ _. 0 };

    fn read_some(&mut self, into: &mut [u8]) -> Result<usize, Failed>
        ensures bound { ReadsAtMost result into.new }
        ensures bytes { ReadConsumes (Some self.old) (Some self.new) result into.new }
        ensures gives { result ≡ Ok (min (length into.old) (length self.old)) }
    {
        let rest = &self.bytes[self.start..];
        let count = into.len().min(rest.len());
        into[..count].copy_from_slice(&rest[..count]);
        self.start += count;
        Ok(count)
    }
}

/// A sink in memory that never fails. A contract sees it as the bytes taken, the room that is left
/// and the count of refusals.
#[derive(Drop)]
pub struct SureSink {
    bytes: Vec<u8>,
    room: usize,
    refusals: u64,
}

impl Model for SureSink {
    ghost use Rattle.std.specs.Prelude.{◌+◌, ◌≤◌, vec_len, vec_capacity};
    ghost use Rattle.vol_io.specs.Held.{Store};

    ghost Value = { Store };

    ghost view = { λ s. record { taken = s.bytes.items; room = s.room; refusals = s.refusals } };

    ghost invariant = { λ s. vec_len s.bytes + s.room ≤ vec_capacity s.bytes };
}

impl SureSink {
    /// A sink that has room for so many bytes.
    pub fn new(alloc: Global, room: usize) -> Result<SureSink, NoMemory>
        ensures { IfOk result (λ sink. sink ≡ record { taken = []; room = room; refusals = 0 }) }
    {
        let bytes = Vec::with_capacity(alloc, room)?;
        Ok(SureSink {
            bytes,
            room,
            refusals: 0,
        })
    }

    /// The bytes taken so far.
    pub fn taken(&self) -> &[u8]
        ensures { result.now ≡ self.now.taken }
    {
        self.bytes.as_slice()
    }
}

impl Sink for SureSink {
    ghost taken = { λ s. Some s.taken };

    ghost faults = { λ _. 0 };

    ghost refusals = { λ s. s.refusals };

    ghost room = { λ s. s.room };

    fn write_some(&mut self, piece: &[u8]) -> Result<usize, Failed>
        ensures bound { WritesAtMost result piece.now }
        ensures bytes { WriteAppends (Some self.old.taken) (Some self.new.taken) result piece.now }
        ensures refusal { CountsRefusals self.old.refusals self.new.refusals result piece.now }
        ensures sure { KeepsRoom self.old.room self.new.room result piece.now }
        ensures gives { result ≡ Ok (min (length piece.now) self.old.room) }
        ensures room { IfOk result (λ count. self.new.room + count ≡ self.old.room) }
    {
        let count = piece.len().min(self.room);
        self.bytes.extend_from_slice(&piece[..count]).unwrap();
        self.room -= count;
        self.refusals = refusals_after(self.refusals, count, piece);
        Ok(count)
    }
}
