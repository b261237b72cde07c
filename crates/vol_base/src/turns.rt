// A run that several hosts move forward, one turn at a time.
ghost use Rattle.std.specs.Prelude.{◌≡◌, ◌<◌, ◌≤◌, ◌↔◌, ◌++◌, ℕ, List, Bool, false, Option, None, length, IfOk, IfSome, IfNone};
ghost use Rattle.vol_base.specs.Grows.{BeginsWith};
ghost use Rattle.vol_base.specs.Turned.{Lowers, Stays};
ghost use Rattle.vol_base.specs.declared.block.Block.{Block};

use crate::answer::Turn;
use crate::block::{Block, Digest};
use crate::plain::{HostNo, NoMemory};

/// A value that was started from something, as plain data.
pub trait Begun {
    type Origin;

    /// What the value was started from.
    ghost began: { Self → Self.Origin };
}

/// A value with a list of entries that only grows.
pub trait Counted: Begun {
    type Entry;

    /// The entries so far, the oldest first.
    ghost listed: { Self → List Self.Entry };

    /// The number of entries.
    fn entries(&self) -> u64
        ensures { result ≡ length (listed self.now) };
}

/// A run of several hosts in phases. Each turn is one host's; a host that wants the digest of a
/// block waits until it is supplied. `NoMemory` may come at any turn.
pub trait Turns: Counted {
    /// The number of hosts, read from what the run was started from.
    ghost hosts: { Self.Origin → ℕ };

    /// Whether the host has a command left in the phase.
    ghost has_command: { Self → ℕ → Bool };

    /// The block whose digest the host waits for.
    ghost awaited: { Self → ℕ → Option Block };

    /// A number that each step lowers.
    ghost left: { Self → ℕ };

    /// Makes the host's next turn.
    fn turn(&mut self, host: HostNo) -> Result<Turn, NoMemory>
        ensures began { Self.began self.new ≡ Self.began self.old }
        ensures entries { BeginsWith (Self.listed self.old) (Self.listed self.new) }
        ensures lowers { IfOk result (λ turn. Lowers turn (left self.old) (left self.new)) }
        ensures stays { IfOk result (λ turn. Stays turn self.old self.new) }
        ensures idle { IfOk result (λ turn. (turn ≡ Turn.Idle) ↔ (has_command self.old host ≡ false)) }
        ensures work { IfOk result (λ turn. (block : Block) → (turn ≡ Turn.Work block) ↔ (awaited self.old host ≡ Some block)) }
        ensures hosts { (h : ℕ) → hosts (Self.began self.old) ≤ h → has_command self.old h ≡ false };

    /// Hands in the digest that the host waits for; where it waits for none, nothing changes.
    fn supply(&mut self, host: HostNo, digest: Digest)
        ensures began { Self.began self.new ≡ Self.began self.old }
        ensures entries { Self.listed self.new ≡ Self.listed self.old }
        ensures lowers { IfSome (awaited self.old host) (λ _. left self.new < left self.old) }
        ensures supplied { awaited self.new host ≡ None }
        ensures stays { IfNone (awaited self.old host) (self.new ≡ self.old) };

    /// How many steps are left at most; 0 exactly where no host has a command left in the phase.
    fn left(&self) -> u64
        ensures value { result ≡ left self.now }
        ensures none { (left self.now ≡ 0) ↔ ((h : ℕ) → has_command self.now h ≡ false) };
}
