// A block as a list of entries of one width.
ghost use Rattle.std.specs.Prelude.{◌≡◌, ◌<◌, ◌≤◌, ◌↔◌, ◌+◌, ◌*◌, [], ◌∷◌, ◌++◌, length, slice_get, slice_set, IsSome, IsNone, IfSome, IfNone, OnSome};
ghost use Rattle.vol_base.specs.Bytes.{IsBlock, bytes_of};
ghost use Rattle.vol_base.specs.Packing.{Packing, IsPacked, IsPacking, numbers, packed_bytes, packing_of, room_of};

use crate::block::Block;
use crate::draft::Draft;
use byteorder::{BigEndian, ByteOrder};
use std::marker::Model;

/// A block that holds a magic of 8 bytes, the number of its entries, a word, and behind a header of
/// 64 bytes its entries of `W` bytes each; 4,032 / `W` have room. `W` is 4, 16 or 32.
///
/// No call takes memory. `of` and `into_block` move a whole block, the other calls change or read
/// the value where it stands.
#[derive(Clone, Debug, Drop)]
pub struct Packed<const W: usize> {
    magic: [u8; 8],
    count: u32,
    word: u32,
    entries: [u8; 4032],
}

impl<const W: usize> Model for Packed<W> {
    ghost use Rattle.std.specs.Prelude.{◌≡◌, ◌<◌, ◌≤◌, ◌^◌, length};
    ghost use Rattle.vol_base.specs.Packing.{Packing, entries_of, room_of};

    ghost Value = { Packing };

    ghost view = { λ p. record { magic = p.magic; word = p.word; entries = entries_of W p.count p.entries } };

    ghost invariant = { λ p. (0 < W) × (p.count ≤ room_of W) × (length p.magic ≡ 8) × (length p.entries ≡ 4032) × (p.word < 2 ^ 32) };
}

impl<const W: usize> Packed<W> {
    /// A packed block with no entries and the word 0.
    pub fn empty(magic: [u8; 8]) -> Packed<W>
        requires { 0 < W }
        ensures { result ≡ record { magic = magic; word = 0; entries = [] } }
    {
        Packed {
            magic,
            count: 0,
            word: 0,
            entries: [0; 4032],
        }
    }

    /// What a block reads as. It is `None` exactly where the magic differs, or the count is above
    /// the room. The bytes of the header past the word, and those behind the last entry, are not
    /// looked at.
    pub fn of(block: Block, magic: [u8; 8]) -> Option<Packed<W>>
        requires { 0 < W }
        ensures packed { IsSome result ↔ IsPacked W magic block.0 }
        ensures value { IfSome result (λ p. p ≡ packing_of W block.0) }
    {
        let count = block.u32_at(8);
        let word = block.u32_at(12);
        let (header, rest) = block.0.split_at(64);
        if &header[..8] != magic.as_slice() {
            return None;
        }
        if count as usize > 4032 / W {
            return None;
        }
        let mut entries = [0; 4032];
        entries.copy_from_slice(rest);
        Some(Packed {
            magic,
            count,
            word,
            entries,
        })
    }

    /// The number of entries.
    pub fn count(&self) -> u32
        ensures value { result ≡ length self.now.entries }
        ensures packing { IsPacking W self.now }
    {
        self.count
    }

    /// The word in the header.
    pub fn word(&self) -> u32
        ensures { result ≡ self.now.word }
    {
        self.word
    }

    /// Changes the word in the header.
    pub fn set_word(&mut self, word: u32)
        ensures { self.new ≡ record self.old { word = word } }
    {
        self.word = word;
    }

    /// The bytes of entry `k`.
    pub fn get(&self, k: u32) -> [u8; W]
        requires { k < length self.now.entries }
        ensures { slice_get self.now.entries k ≡ Some result }
    {
        let start = place(W, k, self.count);
        let mut entry = [0; W];
        entry.copy_from_slice(&self.entries[start..start + W]);
        entry
    }

    /// Changes entry `k`.
    pub fn set(&mut self, k: u32, entry: [u8; W])
        requires { k < length self.old.entries }
        ensures { self.new ≡ record self.old { entries = slice_set self.old.entries k entry.entry } }
    {
        let at = place(W, k, self.count);
        self.entries[at..at + W].copy_from_slice(&entry);
    }

    /// Adds an entry behind the last one. It is `None` exactly where there is no room, and then
    /// nothing changed.
    pub fn push(&mut self, entry: [u8; W]) -> Option<()>
        ensures full { IsNone result ↔ (length self.old.entries ≡ room_of W) }
        ensures pushed { OnSome result (self.new ≡ record self.old { entries = self.old.entries ++ entry.entry ∷ [] }) }
        ensures same { IfNone result (self.new ≡ self.old) }
    {
        if self.count as usize == 4032 / W {
            return None;
        }
        let at = place(W, self.count, self.count + 1);
        self.entries[at..at + W].copy_from_slice(&entry);
        self.count += 1;
        Some(())
    }

    /// The block that reads as this value. The bytes of the header past the word, and those behind
    /// the last entry, are 0.
    pub fn into_block(self) -> Block
        ensures bytes { result.0 ≡ packed_bytes W self.entry }
        ensures packed { IsPacked W self.entry.magic result.0 }
        ensures reads { packing_of W result.0 ≡ self.entry }
        ensures block { IsBlock result.0 }
    {
        let end = W * self.count as usize;
        let mut draft = header(&self.magic, self.count, self.word);
        draft.skip_to(64);
        draft.push_bytes(&self.entries[..end]);
        draft.finish()
    }
}

impl Packed<4> {
    /// Entry `k` as a number.
    pub fn number(&self, k: u32) -> u32
        requires { k < length self.now.entries }
        ensures { slice_get (numbers self.now) k ≡ Some result }
    {
        BigEndian::read_u32(&self.get(k))
    }

    /// Changes entry `k` to a number.
    pub fn set_number(&mut self, k: u32, number: u32)
        requires { k < length self.old.entries }
        ensures value { self.new ≡ record self.old { entries = slice_set self.old.entries k (bytes_of 4 number) } }
        ensures numbers { numbers self.new ≡ slice_set (numbers self.old) k number }
    {
        let mut entry = [0; 4];
        BigEndian::write_u32(&mut entry, number);
        self.set(k, entry);
    }
}

// The first byte of entry `k` of so many entries of a width.
fn place(width: usize, k: u32, count: u32) -> usize
    requires counted { k < count }
    requires room { count ≤ room_of width }
    ensures value { result ≡ width * k }
    ensures within { result + width ≤ 4032 }
{
    width * k as usize
}

// The part of the header that is looked at.
fn header(magic: &[u8; 8], count: u32, word: u32) -> Draft
    ensures value { result ≡ magic.now ++ bytes_of 4 count ++ bytes_of 4 word }
    ensures long { length result ≡ 16 }
{
    let mut draft = Draft::new();
    draft.push_bytes(magic);
    draft.push_u32(count);
    draft.push_u32(word);
    draft
}
