// The entries of a few shard blocks, sorted by digest.
ghost use Rattle.std.specs.Prelude.{◌≡◌, ◌<◌, ◌≤◌, ◌↔◌, ◌+◌, ◌*◌, [], ◌∷◌, ◌++◌, All, IsTrue, drop, length, take};
ghost use Rattle.vol_layout.specs.Ranges.{IsGeometry};
ghost use Rattle.hint_blocks.specs.Entries.{IsIndexEntry};
ghost use Rattle.hint_blocks.specs.HintLists.{HintList, pushed_over};
ghost use Rattle.sorted_shard.specs.Shelves.{Gains, IsShelf, IsSortedByDigest, IsSortedFrom, ShelfList, entries_in, with_digest, without_digest};

use crate::edits::{put_at, take_out};
use crate::places::{count_up_to, range_of};
use hint_blocks::{HintTo, Hints, IndexEntry};
use std::marker::Model;
use vol_base::{Block, Digest};
use vol_layout::{Geometry, PER_HINT_BLOCK};

/// The most entries of a shelf, which has four blocks at most.
const MOST: usize = 504;

// What stands behind the entries.
const BLANK: IndexEntry = IndexEntry {
    digest: Digest([0; 20]),
    to: HintTo::Shared(0),
};

/// The entries of one to four shard blocks, sorted by digest; entries of one digest keep the order in
/// which they were read or added. It holds 504 entries in place, some 18 kilobytes.
#[derive(Debug, Drop)]
pub struct Shelf {
    geometry: Geometry,
    blocks: u32,
    count: usize,
    entries: [IndexEntry; MOST],
}

impl Model for Shelf {
    ghost use Rattle.std.specs.Prelude.{◌≡◌, ◌≤◌, length, take};
    ghost use Rattle.sorted_shard.specs.Shelves.{IsShelf, ShelfList};

    ghost Value = { ShelfList };

    ghost view = { λ s. record { geometry = s.geometry; blocks = s.blocks; entries = take s.count s.entries } };

    ghost invariant = { λ s. (length s.entries ≡ 504) × (s.count ≤ 504)
        × IsShelf (record { geometry = s.geometry; blocks = s.blocks; entries = take s.count s.entries }) };
}

impl Shelf {
    /// All entries of one to four shard blocks as they read, sorted by digest. Entries of one digest stand
    /// in the order of the blocks and, of one block, in its order.
    pub fn of(blocks: &[Block], geometry: &Geometry) -> Shelf
        requires geometry { IsGeometry geometry.now }
        requires some { 1 ≤ length blocks.now }
        requires few { length blocks.now ≤ 4 }
        ensures entries { IsSortedFrom (entries_in geometry.now blocks.now) result.entries }
        ensures geometry { result.geometry ≡ geometry.now }
        ensures blocks { result.blocks ≡ length blocks.now }
    {
        let mut shelf = Shelf::empty(blocks.len() as u32, geometry);
        for block in blocks {
            shelf.insert_all(&Hints::of(block, geometry));
        }
        shelf
    }

    /// A shelf of one to four blocks that has no entry.
    pub fn empty(blocks: u32, geometry: &Geometry) -> Shelf
        requires geometry { IsGeometry geometry.now }
        requires some { 1 ≤ blocks }
        requires few { blocks ≤ 4 }
        ensures { result ≡ record { geometry = geometry.now; blocks = blocks; entries = [] } }
    {
        Shelf {
            geometry: *geometry,
            blocks,
            count: 0,
            entries: [BLANK; MOST],
        }
    }

    /// The entries of a digest, in order.
    pub fn entries_of(&self, digest: &Digest) -> &[IndexEntry]
        ensures entries { result.now ≡ with_digest digest.now.0 self.now.entries }
        ensures shelf { IsShelf self.now }
    {
        let entries = self.entries();
        let (start, end) = range_of(entries, digest);
        &entries[start..end]
    }

    /// Puts an entry behind those of its digest. Where 126 times the number of blocks stand, the first
    /// entry is dropped before.
    pub fn add(&mut self, entry: IndexEntry)
        requires { IsIndexEntry self.old.geometry entry }
        ensures entries { IsSortedFrom (pushed_over (126 * self.old.blocks) self.old.entries entry) self.new.entries }
        ensures geometry { self.new.geometry ≡ self.old.geometry }
        ensures blocks { self.new.blocks ≡ self.old.blocks }
    {
        if self.is_full() {
            self.drop_first();
        }
        self.insert(entry);
    }

    /// Takes away all entries of a digest.
    pub fn drop_digest(&mut self, digest: &Digest)
        ensures { self.new ≡ record self.old { entries = without_digest digest.now.0 self.old.entries } }
    {
        let (start, end) = range_of(&self.entries[..self.count], digest);
        take_out(&mut self.entries, self.count, start, end);
        self.count -= end - start;
    }

    /// The entries that shard block `k` of the shelf is to hold: at most 126, from entry `126 * k` on.
    pub fn block(&self, k: u32) -> Hints<IndexEntry>
        requires { k < self.now.blocks }
        ensures { result ≡ record { geometry = self.now.geometry; entries = take 126 (drop (126 * k) self.now.entries) } }
    {
        let mut hints = Hints::empty(&self.geometry);
        for entry in self.part(k) {
            hints.push_over(*entry);
        }
        hints
    }

    fn entries(&self) -> &[IndexEntry]
        ensures entries { result.now ≡ self.now.entries }
        ensures shelf { IsShelf self.now }
    {
        &self.entries[..self.count]
    }

    // The entries of block `k`.
    fn part(&self, k: u32) -> &[IndexEntry]
        requires { k < self.now.blocks }
        ensures entries { result.now ≡ take 126 (drop (126 * k) self.now.entries) }
        ensures range { All (IsIndexEntry self.now.geometry) result.now }
    {
        let entries = self.entries();
        let start = (PER_HINT_BLOCK * k) as usize;
        if start >= entries.len() {
            return &[];
        }
        let rest = &entries[start..];
        &rest[..(PER_HINT_BLOCK as usize).min(rest.len())]
    }

    fn is_full(&self) -> bool
        ensures full { IsTrue result ↔ (length self.now.entries ≡ 126 * self.now.blocks) }
        ensures shelf { IsShelf self.now }
    {
        self.count == (PER_HINT_BLOCK * self.blocks) as usize
    }

    fn drop_first(&mut self)
        requires { 1 ≤ length self.old.entries }
        ensures { self.new ≡ record self.old { entries = drop 1 self.old.entries } }
    {
        take_out(&mut self.entries, self.count, 0, 1);
        self.count -= 1;
    }

    // Puts an entry behind those of its digest, where there is room.
    fn insert(&mut self, entry: IndexEntry)
        requires room { length self.old.entries < 126 * self.old.blocks }
        requires range { IsIndexEntry self.old.geometry entry }
        ensures { Gains self.old self.new (entry ∷ []) }
    {
        let place = count_up_to(&self.entries[..self.count], &entry.digest);
        put_at(&mut self.entries, self.count, place, entry);
        self.count += 1;
    }

    // Puts each hint behind the entries of its digest, where there is room for all.
    fn insert_all(&mut self, hints: &Hints<IndexEntry>)
        requires sorted { IsSortedByDigest self.old.entries }
        requires room { length self.old.entries + length hints.now.entries ≤ 126 * self.old.blocks }
        requires geometry { hints.now.geometry ≡ self.old.geometry }
        ensures { Gains self.old self.new hints.now.entries }
    {
        for k in 0..hints.count() {
            self.insert(hints.get(k));
        }
    }
}
