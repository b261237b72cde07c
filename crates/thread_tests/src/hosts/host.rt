// One host of a run.
ghost use Rattle.std.specs.Prelude.{◌≡◌, ◌↔◌, ◌⊎◌, ◌<◌, ◌+◌, ◌^◌, ◌==◌, ℕ, Option, Some, None, is_some, IsTrue, IsSome, IfSome, IfNone, if◌then◌else◌};
ghost use Rattle.vol_base.specs.Turned.{Lowers, Stays};
ghost use Rattle.vol_base.specs.declared.block.Block.{Block};

use std::marker::Model;
use vol_base::{Answer, Block, Turn};

// The turns of a command.
const COMMAND: u64 = 4;

/// What a host has before it: turns, then maybe the digest of a block that it asks for, then turns.
#[derive(Drop)]
pub struct Host {
    before: u32,
    asks: Option<Block>,
    after: u32,
}

/// As clauses see it: the block whose digest it waits for, and the number of steps left.
impl Model for Host {
    ghost Value = { Option Block × ℕ };

    ghost view = { λ h. (if h.before == 0 then h.asks else None, h.before + (if is_some h.asks then 1 else 0) + h.after) };
}

impl Host {
    pub fn new(before: u32, asks: Option<Block>, after: u32) -> Host {
        Host {
            before,
            asks,
            after,
        }
    }

    pub fn left(&self) -> u64
        ensures value { result ≡ self.now.1 }
        ensures few { self.now.1 < 2 ^ 34 }
    {
        let asked = if self.asks.is_some() { 1 } else { 0 };
        u64::from(self.before) + asked + u64::from(self.after)
    }

    pub fn turn(&mut self) -> Turn
        ensures lowers { Lowers result self.old.1 self.new.1 }
        ensures stays { Stays result self.old self.new }
        ensures idle { (result ≡ Turn.Idle) ↔ (self.old.1 ≡ 0) }
        ensures work { (block : Block) → (result ≡ Turn.Work block) ↔ (self.old.0 ≡ Some block) }
    {
        if self.before > 0 {
            self.before -= 1;
            return self.made();
        }
        if let Some(block) = self.asks {
            return Turn::Work(block);
        }
        if self.after > 0 {
            self.after -= 1;
            return self.made();
        }
        Turn::Idle
    }

    /// Whether it waited.
    pub fn supply(&mut self) -> bool
        ensures waited { IsTrue result ↔ IsSome self.old.0 }
        ensures lowers { IfSome self.old.0 (λ _. self.new.1 < self.old.1) }
        ensures supplied { self.new.0 ≡ None }
        ensures stays { IfNone self.old.0 (self.new ≡ self.old) }
    {
        if self.before > 0 || self.asks.is_none() {
            return false;
        }
        self.asks = None;
        true
    }

    // What a turn gives that leaves so many: every fourth one answers a command.
    fn made(&self) -> Turn
        ensures { (result ≡ Turn.Moved) ⊎ (result ≡ Turn.Answered Answer.Fine) }
    {
        if (u64::from(self.before) + u64::from(self.after)) % COMMAND == 0 {
            Turn::Answered(Answer::Fine)
        } else {
            Turn::Moved
        }
    }
}
