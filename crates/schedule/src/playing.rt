// A schedule that is played on a cluster.
ghost use Rattle.std.specs.Prelude.{◌≡◌, ◌≤◌, IfOk, OnErr, OnOk, length, true, false};
ghost use Rattle.cluster.specs.Runs.{Facts, IsIdle, SameStart};
ghost use Rattle.schedule.specs.Plays.{HasPlayed, IsGone, IsRefused, IsStopped, PlaysPhase, PlaysRound, PlaysRounds, PlaysWords, at_word, in_round};

use cluster::Cluster;
use fingerprint::digest_of;
use shared_disk::Device;
use vol_base::{HostNo, NoMemory, Turn};

/// Plays a schedule to the end of the last phase: each word is the turn of a host, one of an idle host or of none does nothing; behind the
/// words the turns go round all hosts. docs/COMMANDS.md, "The order of turns".
///
/// # Errors
///
/// `NoMemory` where the device had no room left for a turn; the run ends there, and later turns of the cluster are refused too.
pub fn play<D: Device>(cluster: &mut Cluster<D>, words: &[HostNo]) -> Result<(), NoMemory>
    requires live { cluster.old.spent ≡ false }
    ensures same { SameStart cluster.old cluster.new }
    ensures played { OnOk result (HasPlayed words.now cluster.old.parts cluster.new.parts) }
    ensures facts { OnOk result (Facts cluster.new) }
    ensures stopped { OnErr result (IsStopped (record { words = words.now; next = 0 }) cluster.old.parts cluster.new.parts) }
    ensures spent { OnErr result (cluster.new.spent ≡ true) }
{
    let mut at = 0;
    loop {
        at = by_phase(cluster, words, at)?;
        if !cluster.next_phase() {
            return Ok(());
        }
    }
}

// The words from a position on, and then rounds, until all hosts are idle; the position behind the words.
fn by_phase<D: Device>(
    cluster: &mut Cluster<D>,
    words: &[HostNo],
    from: usize,
) -> Result<usize, NoMemory>
    requires live { cluster.old.spent ≡ false }
    requires from { from ≤ length words.now }
    ensures same { SameStart cluster.old cluster.new }
    ensures played { IfOk result (PlaysPhase words.now from cluster.old cluster.new) }
    ensures stopped { OnErr result (IsStopped (at_word words.now from) cluster.old.parts cluster.new.parts) }
    ensures spent { OnErr result (cluster.new.spent ≡ true) }
{
    let at = by_words(cluster, words, from)?;
    if at < words.len() {
        return Ok(at);
    }
    by_rounds(cluster)?;
    Ok(at)
}

// The words from a position on, until all hosts are idle; the position behind them.
fn by_words<D: Device>(
    cluster: &mut Cluster<D>,
    words: &[HostNo],
    from: usize,
) -> Result<usize, NoMemory>
    requires live { cluster.old.spent ≡ false }
    requires from { from ≤ length words.now }
    ensures same { SameStart cluster.old cluster.new }
    ensures played { IfOk result (PlaysWords words.now from cluster.old cluster.new) }
    ensures stopped { OnErr result (IsStopped (at_word words.now from) cluster.old.parts cluster.new.parts) }
    ensures spent { OnErr result (cluster.new.spent ≡ true) }
{
    let mut at = from;
    while at < words.len() && !cluster.idle() {
        step(cluster, words[at])?;
        at += 1;
    }
    Ok(at)
}

// Rounds, until all hosts are idle.
fn by_rounds<D: Device>(cluster: &mut Cluster<D>) -> Result<(), NoMemory>
    requires live { cluster.old.spent ≡ false }
    ensures same { SameStart cluster.old cluster.new }
    ensures played { OnOk result (PlaysRounds cluster.old cluster.new) }
    ensures stopped { OnErr result (IsStopped (in_round 0) cluster.old.parts cluster.new.parts) }
    ensures spent { OnErr result (cluster.new.spent ≡ true) }
{
    while !cluster.idle() {
        round(cluster)?;
    }
    Ok(())
}

// A turn of each host, until all are idle.
fn round<D: Device>(cluster: &mut Cluster<D>) -> Result<(), NoMemory>
    requires live { cluster.old.spent ≡ false }
    ensures same { SameStart cluster.old cluster.new }
    ensures played { OnOk result (PlaysRound cluster.old cluster.new) }
    ensures stopped { OnErr result (IsStopped (in_round 0) cluster.old.parts cluster.new.parts) }
    ensures spent { OnErr result (cluster.new.spent ≡ true) }
{
    let hosts = cluster.hosts();
    for host in 0..hosts {
        if cluster.idle() {
            return Ok(());
        }
        step(cluster, host)?;
    }
    Ok(())
}

// A turn of the host, and the digest that it then waits for.
fn step<D: Device>(cluster: &mut Cluster<D>, host: HostNo) -> Result<(), NoMemory>
    requires live { cluster.old.spent ≡ false }
    requires busy { IsIdle cluster.old.parts → ⊥ }
    ensures same { SameStart cluster.old cluster.new }
    ensures gone { OnOk result (IsGone host cluster.old cluster.new) }
    ensures refused { OnErr result (IsRefused cluster.old.parts cluster.new.parts) }
    ensures spent { OnErr result (cluster.new.spent ≡ true) }
{
    if let Turn::Work(block) = cluster.turn(host)? {
        cluster.supply(host, digest_of(&block));
    }
    Ok(())
}
