// What gives bytes, and the loop that reads all of it.
ghost use Rattle.std.specs.Prelude.{◌≡◌, ◌≤◌, ℕ, List, Option, IfOk, IfErr, IsErrOf};
ghost use Rattle.std.specs.Io.{ReadsAtMost};
ghost use Rattle.std.specs.Io.KnownBytes.{ReadConsumes};
ghost use Rattle.vol_base.specs.Faults.{Rose, HasCause};
ghost use Rattle.vol_io.specs.Reads.{ReadsToEnd, ReadsFront};
ghost use Rattle.vol_io.specs.declared.reading.ReadNo.TheVariants as read_no;

use std::alloc::{AllocError, Global};
use thiserror::Error;

/// A source or a sink failed in this call.
#[derive(Clone, Copy, Debug, PartialEq, Eq)]
pub struct Failed;

/// What gives bytes until its end.
pub trait Source {
    /// The bytes that are left, where the source tells them.
    ghost left: { Self → Option (List ℕ) };

    /// How often the source failed; the count stands still at the end of `u64`.
    ghost faults: { Self → ℕ };

    /// Puts the next bytes at the front of `into` and answers their number. Zero for a slice that
    /// is not empty is the end of input.
    fn read_some(&mut self, into: &mut [u8]) -> Result<usize, Failed>
        ensures bound { ReadsAtMost result into.new }
        ensures bytes { ReadConsumes (left self.old) (left self.new) result into.new }
        ensures cause { HasCause (faults self.old) (faults self.new) result };
}

/// Why a source was not read to its end.
#[derive(Clone, Copy, Debug, PartialEq, Eq, Error)]
pub enum ReadNo {
    /// The source failed.
    #[error("Failed")]
    Failed,
    /// The source gave more bytes than the limit.
    #[error("Long")]
    Long,
    /// There was no memory for the bytes.
    #[error("NoMemory")]
    NoMemory,
}

impl From<Failed> for ReadNo {
    ghost from_gives = { λ _ no. no ≡ read_no.Failed };

    fn from(_: Failed) -> ReadNo {
        ReadNo::Failed
    }
}

impl From<AllocError> for ReadNo {
    ghost from_gives = { λ _ no. no ≡ read_no.NoMemory };

    fn from(_: AllocError) -> ReadNo {
        ReadNo::NoMemory
    }
}

/// How many bytes are read at a time at most.
const CHUNK: usize = 4096;

/// Reads the source to its end, and takes at most `limit + 1` bytes of it.
pub fn read_all<S: Source>(alloc: Global, source: &mut S, limit: usize) -> Result<Vec<u8>, ReadNo>
    ensures ok { IfOk result (λ bytes.
        ReadsToEnd limit (S.left source.old) (S.left source.new) bytes.items) }
    ensures err { IfErr result (λ no. ReadsFront limit (S.left source.old) (S.left source.new) no) }
    ensures later { S.faults source.old ≤ S.faults source.new }
    ensures failed { IsErrOf result ReadNo.Failed → Rose (S.faults source.old) (S.faults source.new) }
{
    let mut bytes = Vec::new(alloc);
    let mut chunk = [0u8; CHUNK];
    'reading: loop {
        let room = limit - bytes.len();
        let count = source.read_some(&mut chunk[..room.min(CHUNK - 1) + 1])?;
        if count == 0 {
            return Ok(bytes);
        }
        if count > room {
            return Err(ReadNo::Long);
        }
        bytes.extend_from_slice(&chunk[..count])?;
    }
}
