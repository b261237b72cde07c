// A run of two hosts with three commands each. A command takes four turns, the last of which answers
// it; in its third command host 1 also asks for the digest of a block.
ghost use Rattle.std.specs.Prelude.{◌≡◌, ◌+◌, ◌==◌, ◌<◌, ℕ, not, false, None, OnOk, if◌then◌else◌};
ghost use Rattle.vol_base.specs.Grows.{BeginsWith};
ghost use Rattle.vol_base.specs.Turned.{Stays};

use super::host::Host;
use std::alloc::{AllocError, Global};
use vol_base::{Begun, Counted, Digest, HostNo, NoMemory, Turn, Turns, number_block};

/// The two hosts, who answered so far, and the digest that was handed in last.
#[derive(Drop)]
pub struct Pair {
    first: Host,
    second: Host,
    answered: Vec<HostNo>,
    digest: Option<Digest>,
}

impl Pair {
    /// A run that has room for so many answers.
    pub fn with_room(alloc: Global, answers: usize) -> Result<Pair, AllocError> {
        Ok(Pair {
            first: Host::new(12, None, 0),
            second: Host::new(10, Some(number_block(7)), 2),
            answered: Vec::with_capacity(alloc, answers)?,
            digest: None,
        })
    }

    pub fn answers(&self, host: HostNo) -> usize {
        self.answered.iter().filter(|by| **by == host).count()
    }

    pub fn digest(&self) -> Option<Digest> {
        self.digest
    }
}

impl Begun for Pair {
    type Origin = u8;

    ghost began = { λ _. 2 };
}

impl Counted for Pair {
    type Entry = u8;

    ghost listed = { λ pair. pair.answered.items };

    fn entries(&self) -> u64 {
        self.answered.len() as u64
    }
}

impl Turns for Pair {
    ghost hosts = { λ hosts. hosts };

    ghost has_command = { λ pair host. not ((if host == 0 then pair.first.1 else if host == 1 then pair.second.1 else 0) == 0) };

    ghost awaited = { λ pair host. if host == 0 then pair.first.0 else if host == 1 then pair.second.0 else None };

    ghost left = { λ pair. pair.first.1 + pair.second.1 };

    fn turn(&mut self, host: HostNo) -> Result<Turn, NoMemory> {
        match host {
            0 => {
                let turn = self.first.turn();
                note(&mut self.answered, host, &turn)?;
                Ok(turn)
            }
            1 => {
                let turn = self.second.turn();
                note(&mut self.answered, host, &turn)?;
                Ok(turn)
            }
            _ => Ok(Turn::Idle),
        }
    }

    fn supply(&mut self, host: HostNo, digest: Digest) {
        match host {
            0 => {
                if self.first.supply() {
                    self.digest = Some(digest);
                }
            }
            1 => {
                if self.second.supply() {
                    self.digest = Some(digest);
                }
            }
            _ => {}
        }
    }

    fn left(&self) -> u64 {
        self.first.left() + self.second.left()
    }
}

// Notes who answered.
fn note(answered: &mut Vec<HostNo>, host: HostNo, turn: &Turn) -> Result<(), NoMemory>
    ensures entries { BeginsWith answered.old.items answered.new.items }
    ensures stays { OnOk result (Stays turn.now answered.old answered.new) }
{
    if let Turn::Answered(_) = turn {
        if answered.len() == answered.capacity() {
            return Err(NoMemory);
        }
        answered.push_reserved(host);
    }
    Ok(())
}
