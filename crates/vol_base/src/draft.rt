// A block that is written from its front on.
ghost use Rattle.std.specs.Prelude.{◌≡◌, ◌≤◌, ◌+◌, ◌-◌, [], ◌++◌, length};
ghost use Rattle.vol_base.specs.Bytes.{IsBlock, bytes_of, zeros};

use crate::block::Block;
use byteorder::{BigEndian, ByteOrder};
use std::marker::Model;

/// A block that is written from its front on: a contract sees the bytes written so far.
#[derive(Debug, Drop)]
pub struct Draft {
    bytes: [u8; 4096],
    len: usize,
}

impl Model for Draft {
    ghost use Rattle.std.specs.Prelude.{◌≡◌, ◌≤◌, ◌-◌, ℕ, List, take, drop};
    ghost use Rattle.vol_base.specs.Bytes.{zeros};

    ghost Value = { List ℕ };

    ghost view = { λ draft. take draft.len draft.bytes };

    ghost invariant = { λ draft. (draft.len ≤ 4096) × (drop draft.len draft.bytes ≡ zeros (4096 - draft.len)) };
}

impl Draft {
    /// A draft with nothing written.
    pub fn new() -> Draft
        ensures { result ≡ [] }
    {
        Draft {
            bytes: [0; 4096],
            len: 0,
        }
    }

    /// Writes these bytes.
    pub fn push_bytes(&mut self, part: &[u8])
        requires { length self.old + length part.now ≤ 4096 }
        ensures value { self.new ≡ self.old ++ part.now }
        ensures long { length self.new ≡ length self.old + length part.now }
    {
        let end = self.len + part.len();
        self.bytes[self.len..end].copy_from_slice(part);
        self.len = end;
    }

    /// Writes the four bytes of a number, the highest first.
    #[tactic(auto, unfolding(crate::specs::Bytes::bytes_of))]
    pub fn push_u32(&mut self, number: u32)
        requires { length self.old + 4 ≤ 4096 }
        ensures value { self.new ≡ self.old ++ bytes_of 4 number }
        ensures long { length self.new ≡ length self.old + 4 }
    {
        let mut part = [0; 4];
        BigEndian::write_u32(&mut part, number);
        self.push_bytes(&part);
    }

    /// Writes the eight bytes of a number, the highest first.
    #[tactic(auto, unfolding(crate::specs::Bytes::bytes_of))]
    pub fn push_u64(&mut self, number: u64)
        requires { length self.old + 8 ≤ 4096 }
        ensures value { self.new ≡ self.old ++ bytes_of 8 number }
        ensures long { length self.new ≡ length self.old + 8 }
    {
        let mut part = [0; 8];
        BigEndian::write_u64(&mut part, number);
        self.push_bytes(&part);
    }

    /// Writes zeros up to byte `at`.
    pub fn skip_to(&mut self, at: usize)
        requires forward { length self.old ≤ at }
        requires within { at ≤ 4096 }
        ensures value { self.new ≡ self.old ++ zeros (at - length self.old) }
        ensures long { length self.new ≡ at }
    {
        self.len = at;
    }

    /// The block with the bytes written, and zeros behind them. It hands out a whole block.
    pub fn finish(self) -> Block
        ensures bytes { result.0 ≡ self ++ zeros (4096 - length self) }
        ensures block { IsBlock result.0 }
    {
        Block::of_bytes(&self.bytes)
    }
}
