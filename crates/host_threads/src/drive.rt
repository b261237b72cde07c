// What the threads left over, driven by the caller.
ghost use Rattle.std.specs.Prelude.{◌≡◌, ◌≤◌, ◌<◌, ◌⊎◌, ℕ, false, OnOk};
ghost use Rattle.vol_base.specs.Grows.{BeginsWith};

use fingerprint::digest_of;
use vol_base::{HostNo, NoMemory, Turn, Turns};

/// Makes the turns of all hosts, one after the other, until none has a command left.
///
/// # Errors
///
/// `NoMemory` where a turn was refused memory.
pub fn to_the_end<T: Turns>(mut value: T, hosts: HostNo) -> (T, Result<(), NoMemory>)
    requires some { 1 ≤ hosts }
    requires hosts { T.hosts (T.began value) ≤ hosts }
    ensures began { T.began result.0 ≡ T.began value }
    ensures entries { BeginsWith (T.listed value) (T.listed result.0) }
    ensures none_left { OnOk result.1 (T.left result.0 ≡ 0) }
    ensures idle { OnOk result.1 ((host : ℕ) → T.has_command result.0 host ≡ false) }
{
    while value.left() > 0 {
        if round(&mut value, hosts).is_err() {
            return (value, Err(NoMemory));
        }
    }
    (value, Ok(()))
}

// A turn of each host. Some steps fewer are left, or no host had a command.
fn round<T: Turns>(value: &mut T, hosts: HostNo) -> Result<(), NoMemory>
    requires some { 1 ≤ hosts }
    requires hosts { T.hosts (T.began value.old) ≤ hosts }
    ensures began { T.began value.new ≡ T.began value.old }
    ensures entries { BeginsWith (T.listed value.old) (T.listed value.new) }
    ensures lowers { OnOk result ((T.left value.new < T.left value.old) ⊎ ((host : ℕ) → T.has_command value.old host ≡ false)) }
{
    for host in 0..hosts {
        step(value, host)?;
    }
    Ok(())
}

// A turn of the host, and the digest that it then waits for.
fn step<T: Turns>(value: &mut T, host: HostNo) -> Result<(), NoMemory>
    ensures began { T.began value.new ≡ T.began value.old }
    ensures entries { BeginsWith (T.listed value.old) (T.listed value.new) }
    ensures lowers { OnOk result ((T.left value.new < T.left value.old) ⊎ ((value.new ≡ value.old) × (T.has_command value.old host ≡ false))) }
    ensures hosts { (h : ℕ) → T.hosts (T.began value.old) ≤ h → T.has_command value.old h ≡ false }
{
    if let Turn::Work(block) = value.turn(host)? {
        value.supply(host, digest_of(&block));
    }
    Ok(())
}
