// A hint block as a list.
ghost use Rattle.std.specs.Prelude.{◌≡◌, ◌<◌, ◌≤◌, ◌+◌, [], ◌∷◌, ◌++◌, All, Option, drop, length, map, slice_get};
ghost use Rattle.std.specs.Option.{option_to_list};
ghost use Rattle.std.specs.Str.{bytes_eq};
ghost use Rattle.vol_base.specs.Bytes.{IsBlock};
ghost use Rattle.vol_layout.specs.Ranges.{IsGeometry};
ghost use Rattle.vol_layout.specs.declared.geometry.Geometry.{Geometry};
ghost use Rattle.hint_blocks.specs.HintLists.{HintList, hint_block, hints_in, pushed_over, without};

use crate::hint::Hint;
use std::marker::{Model, PhantomData};
use vol_base::{Block, Digest, Packed};
use vol_layout::{Geometry, PER_HINT_BLOCK};

/// The hints of a block, in order: at most 126, each in range of the geometry that they were read with.
#[derive(Debug, Drop)]
pub struct Hints<T: Hint> {
    packed: Packed<32>,
    geometry: Geometry,
    kind: PhantomData<T>,
}

impl<T: Hint> Model for Hints<T> {
    ghost use Rattle.std.specs.Prelude.{◌≡◌, All};
    ghost use Rattle.std.specs.List.{filter_map};
    ghost use Rattle.vol_layout.specs.Ranges.{IsGeometry};
    ghost use Rattle.hint_blocks.specs.HintLists.{HintList};
    ghost use Rattle.hint_blocks.specs.laws.HintListLaws.{IsSpelling};

    ghost Value = { HintList T };

    ghost view = { λ hints. record {
      geometry = hints.geometry;
      entries = filter_map (T.read hints.geometry) hints.packed.entries;
    } };

    ghost invariant = { λ hints. IsGeometry hints.geometry × (hints.packed.magic ≡ T.MAGIC) × (hints.packed.word ≡ 0)
        × All (IsSpelling (T.read hints.geometry) T.entry_bytes) hints.packed.entries };
}

impl<T: Hint> Hints<T> {
    /// No hints.
    pub fn empty(geometry: &Geometry) -> Hints<T>
        requires { IsGeometry geometry.now }
        ensures { result ≡ record { geometry = geometry.now; entries = [] } }
    {
        Hints {
            packed: Packed::empty(T::MAGIC),
            geometry: *geometry,
            kind: PhantomData,
        }
    }

    /// What a block reads as: its entries in range, in order. A block with another magic or a count above
    /// 126 reads as none.
    pub fn of(block: &Block, geometry: &Geometry) -> Hints<T>
        requires { IsGeometry geometry.now }
        ensures entries { result.entries ≡ hints_in T.MAGIC (T.read geometry.now) block.now.0 }
        ensures room { length result.entries ≤ 126 }
        ensures range { All (T.IsInRange geometry.now) result.entries }
        ensures geometry { result.geometry ≡ geometry.now }
    {
        let mut hints = Hints::empty(geometry);
        let Some(packed) = Packed::of(*block, T::MAGIC) else {
            return hints;
        };
        for k in 0..packed.count() {
            hints.append_read(&packed.get(k));
        }
        hints
    }

    /// The number of hints, at most 126.
    pub fn count(&self) -> u32
        ensures value { result ≡ length self.now.entries }
        ensures room { result ≤ 126 }
        ensures geometry { IsGeometry self.now.geometry }
        ensures range { All (T.IsInRange self.now.geometry) self.now.entries }
    {
        self.packed.count()
    }

    /// Hint `k`.
    pub fn get(&self, k: u32) -> T
        requires { k < length self.now.entries }
        ensures value { slice_get self.now.entries k ≡ Some result }
        ensures range { T.IsInRange self.now.geometry result }
    {
        let Some(hint) = T::from_entry(&self.packed.get(k), &self.geometry) else {
            unreachable!()
        };
        hint
    }

    /// Puts a hint behind the others. Where 126 stand, the first is dropped.
    pub fn push_over(&mut self, hint: T)
        requires { T.IsInRange self.old.geometry hint }
        ensures { self.new ≡ record self.old { entries = pushed_over 126 self.old.entries hint } }
    {
        if self.count() == PER_HINT_BLOCK {
            self.drop_first();
        }
        self.append(hint);
    }

    /// Takes away all hints about the digest.
    pub fn drop_digest(&mut self, digest: &Digest)
        ensures { self.new ≡ record self.old { entries = without T.digest_bytes digest.now.0 self.old.entries } }
    {
        let mut kept = self.emptied();
        for k in 0..self.count() {
            let hint = self.get(k);
            if !are_same(&hint.digest(), digest) {
                kept.append(hint);
            }
        }
        *self = kept;
    }

    /// The one block that is written for the hints. It reads as them again.
    pub fn into_block(self) -> Block
        ensures bytes { result.0 ≡ hint_block T.MAGIC (map T.entry_bytes self.entries) }
        ensures reads { hints_in T.MAGIC (T.read self.geometry) result.0 ≡ self.entries }
        ensures block { IsBlock result.0 }
    {
        self.packed.into_block()
    }

    // The entry that the bytes stand for, if it is in range, behind the others.
    fn append_read(&mut self, entry: &[u8; 32])
        requires { length self.old.entries < 126 }
        ensures { self.new ≡ record self.old { entries = self.old.entries ++ option_to_list (T.read self.old.geometry entry.now) } }
    {
        match T::from_entry(entry, &self.geometry) {
            None => {}
            Some(hint) => self.append(hint),
        }
    }

    // A hint behind the others, where there is room.
    fn append(&mut self, hint: T)
        requires room { length self.old.entries < 126 }
        requires range { T.IsInRange self.old.geometry hint }
        ensures { self.new ≡ record self.old { entries = self.old.entries ++ hint ∷ [] } }
    {
        append_bytes(&mut self.packed, hint.to_entry());
    }

    fn emptied(&self) -> Hints<T>
        ensures { result ≡ record self.now { entries = [] } }
    {
        Hints::empty(&self.geometry)
    }

    fn drop_first(&mut self)
        ensures { self.new ≡ record self.old { entries = drop 1 self.old.entries } }
    {
        let mut rest = self.emptied();
        for k in 1..self.count() {
            rest.append(self.get(k));
        }
        *self = rest;
    }
}

// An entry behind the others, where there is room.
fn append_bytes(packed: &mut Packed<32>, entry: [u8; 32])
    requires { length packed.old.entries < 126 }
    ensures appended { packed.new ≡ record packed.old { entries = packed.old.entries ++ entry ∷ [] } }
    ensures long { length entry ≡ 32 }
{
    if packed.push(entry).is_none() {
        unreachable!()
    }
}

fn are_same(one: &Digest, other: &Digest) -> bool
    ensures { result ≡ bytes_eq one.now.0 other.now.0 }
{
    one.0 == other.0
}
