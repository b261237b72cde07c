// The entries of a host's logs, in the order in which they are handled.
ghost use Rattle.std.specs.Prelude.{◌≡◌, ◌≤◌, ◌<◌, ◌*◌, ◌++◌, Some, [], IfOk, length, slice_get};
ghost use Rattle.merge_shelves.specs.Rooms.{IsOrdered, log_entries, noted_from, sort_key};
ghost use Rattle.vol_layout.specs.Ranges.{IsGeometry};

use hint_blocks::{Hints, LogEntry, shard_of};
use std::alloc::{AllocError, Global};
use std::marker::Model;
use vol_base::Block;
use vol_layout::{Geometry, PER_HINT_BLOCK};

/// The most entries of a host's logs: sixteen blocks of 126.
const MOST: usize = 2016;

/// An entry of a log, and the place at which it was read: entry J of log block L has place `126 * L + J`.
#[derive(Clone, Copy, Debug, PartialEq, Eq)]
pub struct Noted {
    pub entry: LogEntry,
    pub place: u32,
}

/// The entries of a host's logs. Its room is taken when it is made.
#[derive(Drop)]
pub struct LogRoom {
    noted: Vec<Noted>,
}

impl Model for LogRoom {
    ghost use Rattle.std.specs.Prelude.{◌≤◌, List, length, vec_capacity};
    ghost use Rattle.merge_shelves.specs.declared.room.Noted.{Noted};

    ghost Value = { List Noted };

    ghost view = { λ room. room.noted.items };

    ghost invariant = { λ room. (length room.noted.items ≤ 2016) × (2016 ≤ vec_capacity room.noted) };
}

impl LogRoom {
    /// No entry, and room for 2,016.
    pub fn new(alloc: Global) -> Result<LogRoom, AllocError>
        ensures { IfOk result (λ room. room ≡ []) }
    {
        Ok(LogRoom {
            noted: Vec::with_capacity(alloc, MOST)?,
        })
    }

    /// Takes all entries out.
    pub fn clear(&mut self)
        ensures { self.new ≡ [] }
    {
        self.noted.clear();
    }

    /// The number of entries.
    pub fn count(&self) -> u32
        ensures number { result ≡ length self.now }
        ensures few { result ≤ 2016 }
    {
        self.noted.len() as u32
    }

    /// Entry `at`.
    pub fn get(&self, at: u32) -> Noted
        requires { at < length self.now }
        ensures { slice_get self.now at ≡ Some result }
    {
        self.noted[at as usize]
    }

    /// Puts the entries of log block `log` behind the others, which are those of blocks before it.
    pub fn note(&mut self, block: &Block, log: u8, geometry: &Geometry)
        requires geometry { IsGeometry geometry.now }
        requires log { log < 16 }
        requires room { length self.old ≤ 126 * log }
        ensures { self.new ≡ self.old ++ noted_from (126 * log) (log_entries geometry.now block.now.0) }
    {
        let hints: Hints<LogEntry> = Hints::of(block, geometry);
        for k in 0..hints.count() {
            self.noted.push_reserved(Noted {
                entry: hints.get(k),
                place: PER_HINT_BLOCK * u32::from(log) + k,
            });
        }
    }

    /// Sorts the entries by shelf, of so many; those of a shelf by digest, and those of one digest by the place at which they were read.
    pub fn order(&mut self, shelves: u8)
        requires { 1 ≤ shelves }
        ensures { IsOrdered shelves self.old self.new }
    {
        self.noted
            .sort_unstable_by_key(|noted| sort_key(noted, shelves));
    }
}

fn sort_key(noted: &Noted, shelves: u8) -> (u8, [u8; 20], u32)
    requires { 1 ≤ shelves }
    ensures { result ≡ sort_key shelves noted.now }
{
    let digest = noted.entry.digest;
    (shard_of(&digest, shelves), digest.0, noted.place)
}
