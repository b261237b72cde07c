// The entries of logs, of the index and of requests.
ghost use Rattle.std.specs.Prelude.{◌≡◌, ◌<◌, ℕ, IfSome, IsTrue, codes};
ghost use Rattle.vol_base.specs.Bytes.{u32_at};
ghost use Rattle.vol_layout.specs.Ranges.{IsGeometry};
ghost use Rattle.hint_blocks.specs.Entries.{
  IsIndexEntry,
  IsLogEntry,
  IsRequest,
  has_place,
  has_request,
  index_bytes,
  index_entry_of,
  log_bytes,
  log_entry_of,
  request_bytes,
  request_of,
  target_of,
};
ghost use Rattle.hint_blocks.specs.laws.EntryLaws.{
  index_entry_of-index_bytes,
  index_entry_in_range,
  log_entry_of-log_bytes,
  log_entry_in_range,
  request_of-request_bytes,
  request_in_range,
};

use crate::hint::Hint;
use crate::spelling::{digest_in, number_in, written};
use vol_base::{Digest, FileNo, SlotNo};
use vol_layout::Geometry;

/// An entry of a host's log: the file has, or had, a block of this digest at the index. In range are a
/// file of the volume and an index below `1008 * B`.
#[derive(Clone, Copy, Debug, PartialEq, Eq)]
pub struct LogEntry {
    pub digest: Digest,
    pub file: FileNo,
    pub index: u32,
}

/// Where the index says that a block of a digest is: at an index of a file, which has it alone as far as
/// is known, or in a slot of the arena, where files share it. In range are a file of the volume, an
/// index below `1008 * B` and a slot below `1008 * A`.
#[derive(Clone, Copy, Debug, PartialEq, Eq)]
pub enum HintTo {
    Unique(FileNo, u32),
    Shared(SlotNo),
}

/// An entry of the index.
#[derive(Clone, Copy, Debug, PartialEq, Eq)]
pub struct IndexEntry {
    pub digest: Digest,
    pub to: HintTo,
}

/// A request to the host that holds a file: the block at the index may be shared with a slot of the
/// arena. In range are an index below `1008 * B` and a slot below `1008 * A`.
#[derive(Clone, Copy, Debug, PartialEq, Eq)]
pub struct Request {
    pub digest: Digest,
    pub index: u32,
    pub slot: SlotNo,
}

impl Hint for LogEntry {
    ghost MAGIC = { codes "DEDELOGS" };

    ghost IsInRange = { IsLogEntry };

    ghost read = { log_entry_of };

    ghost entry_bytes = { log_bytes };

    ghost digest_bytes = { λ hint. hint.digest.0 };

    ghost reads_in_range = { log_entry_in_range };

    ghost reads_back = { log_entry_of-log_bytes };

    const MAGIC: [u8; 8] = *b"DEDELOGS";

    fn from_entry(entry: &[u8; 32], geometry: &Geometry) -> Option<LogEntry> {
        let file = number_in(entry, 20);
        let index = number_in(entry, 24);
        if !has_place(geometry, file, index) {
            return None;
        }
        Some(LogEntry {
            digest: digest_in(entry),
            file: file as u8,
            index,
        })
    }

    fn to_entry(&self) -> [u8; 32] {
        written(&self.digest, u32::from(self.file), self.index, 0)
    }

    fn digest(&self) -> Digest {
        self.digest
    }
}

impl Hint for IndexEntry {
    ghost MAGIC = { codes "DEDEINDX" };

    ghost IsInRange = { IsIndexEntry };

    ghost read = { index_entry_of };

    ghost entry_bytes = { index_bytes };

    ghost digest_bytes = { λ hint. hint.digest.0 };

    ghost reads_in_range = { index_entry_in_range };

    ghost reads_back = { index_entry_of-index_bytes };

    const MAGIC: [u8; 8] = *b"DEDEINDX";

    fn from_entry(entry: &[u8; 32], geometry: &Geometry) -> Option<IndexEntry> {
        let to = target_in(entry, geometry)?;
        Some(IndexEntry {
            digest: digest_in(entry),
            to,
        })
    }

    fn to_entry(&self) -> [u8; 32] {
        match self.to {
            HintTo::Unique(file, index) => written(&self.digest, 0, u32::from(file), index),
            HintTo::Shared(slot) => written(&self.digest, 1, slot, 0),
        }
    }

    fn digest(&self) -> Digest {
        self.digest
    }
}

impl Hint for Request {
    ghost MAGIC = { codes "DEDEREQS" };

    ghost IsInRange = { IsRequest };

    ghost read = { request_of };

    ghost entry_bytes = { request_bytes };

    ghost digest_bytes = { λ hint. hint.digest.0 };

    ghost reads_in_range = { request_in_range };

    ghost reads_back = { request_of-request_bytes };

    const MAGIC: [u8; 8] = *b"DEDEREQS";

    fn from_entry(entry: &[u8; 32], geometry: &Geometry) -> Option<Request> {
        let index = number_in(entry, 20);
        let slot = number_in(entry, 24);
        if !has_request(geometry, index, slot) {
            return None;
        }
        Some(Request {
            digest: digest_in(entry),
            index,
            slot,
        })
    }

    fn to_entry(&self) -> [u8; 32] {
        written(&self.digest, self.index, self.slot, 0)
    }

    fn digest(&self) -> Digest {
        self.digest
    }
}

// Where an entry of the index points, where that is in range.
fn target_in(entry: &[u8; 32], geometry: &Geometry) -> Option<HintTo>
    requires { IsGeometry geometry.now }
    ensures { result ≡ target_of geometry.now (u32_at entry.now 20) (u32_at entry.now 24) (u32_at entry.now 28) }
{
    let kind = number_in(entry, 20);
    let first = number_in(entry, 24);
    let second = number_in(entry, 28);
    match kind {
        0 if has_place(geometry, first, second) => Some(HintTo::Unique(first as u8, second)),
        1 if first < geometry.arena_slots() => Some(HintTo::Shared(first)),
        _ => None,
    }
}

// Whether files may be long enough for the index, and the arena has the slot.
fn has_request(geometry: &Geometry, index: u32, slot: u32) -> bool
    requires { IsGeometry geometry.now }
    ensures { result ≡ has_request geometry.now index slot }
{
    index < geometry.limit() && slot < geometry.arena_slots()
}

// Whether the volume has the file, and files may be long enough for the index.
fn has_place(geometry: &Geometry, file: u32, index: u32) -> bool
    requires { IsGeometry geometry.now }
    ensures place { result ≡ has_place geometry.now file index }
    ensures narrow { IsTrue result → file < 64 }
{
    file < u32::from(geometry.files) && index < geometry.limit()
}
