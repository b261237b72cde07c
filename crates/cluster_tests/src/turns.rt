// Turns of a cluster, and what each of them gave.
ghost use Rattle.std.specs.Prelude.{◌≡◌, IfSome, false};

use cluster::{Cluster, are_known};
use shared_disk::{Device, MemDisk};
use std::alloc::Global;
use std::process::Abort;
use vol_base::{Answer, CutBy, Digest, HostNo, PlainReply, Turn};
use workload::parse;

/// What a turn gave, with keys as numbers.
#[derive(Clone, Copy, Debug, PartialEq, Eq)]
pub enum Gave {
    Moved,
    /// The host waits for a digest, which is handed in at once.
    Work,
    Idle,
    Joined(u64),
    /// The call on plain files was done.
    Done,
    /// A read gave a block of zeros.
    Zeros,
    Fine,
    Busy(u64),
    Seen(u32),
    Recovered,
    Died,
    Refused,
    Other,
}

/// One turn: its host, what it gave, and then the device calls since the opening and the entries of the history.
pub type Row = (HostNo, Gave, u64, usize);

// The calls of the device, the entries, and the turns that are left.
#[derive(Clone, Copy, Debug, PartialEq, Eq)]
struct Shown {
    gave: Gave,
    calls: u64,
    entries: usize,
    left: u64,
}

/// Compares the turns with these, one after the other: the run is begun anew for each of them, since the calls of its device show where
/// it is closed.
pub fn compare(rt: &impl Abort, alloc: Global, text: &[u8], rows: &[Row]) {
    let opened = play(alloc, text, &rows[..0]);
    for (k, row) in rows.iter().enumerate() {
        let shown = play(alloc, text, &rows[..k.saturating_add(1)]);
        assert_eq!(rt; shown.gave, row.1);
        assert_eq!(rt; shown.calls.saturating_sub(opened.calls), row.2);
        assert_eq!(rt; shown.entries, row.3);
    }
}

/// The turns that are left behind these.
pub fn left_behind(alloc: Global, text: &[u8], rows: &[Row]) -> u64 {
    play(alloc, text, rows).left
}

// The last of so many turns.
fn play(alloc: Global, text: &[u8], rows: &[Row]) -> Shown {
    let none = Shown {
        gave: Gave::Refused,
        calls: 0,
        entries: 0,
        left: 0,
    };
    let Some(mut cluster) = started(alloc, text) else {
        return none;
    };
    let mut gave = Gave::Other;
    for row in rows {
        gave = turn(&mut cluster, row.0);
    }
    let left = cluster.left();
    let closed = cluster.close();
    Shown {
        gave,
        calls: closed.disk.calls(),
        entries: closed.history.len(),
        left,
    }
}

/// A cluster over a new device in memory, before its first turn.
pub fn started(alloc: Global, text: &[u8]) -> Option<Cluster<MemDisk>>
    ensures live { IfSome result (λ cluster. cluster.spent ≡ false) }
{
    let Ok(workload) = parse(alloc, text) else {
        return None;
    };
    if !are_known(workload.lines.as_slice()) {
        return None;
    }
    let disk = MemDisk::new(alloc, workload.geometry.total()).ok()?;
    Cluster::start(alloc, disk, workload).ok()
}

// One turn, in the next phase where all hosts are idle; a digest is handed in at once.
fn turn(cluster: &mut Cluster<MemDisk>, host: HostNo) -> Gave {
    if cluster.idle() {
        let _more = cluster.next_phase();
    }
    match cluster.turn(host) {
        Ok(Turn::Moved) => Gave::Moved,
        Ok(Turn::Idle) => Gave::Idle,
        Ok(Turn::Work(_)) => {
            cluster.supply(host, Digest([0; 20]));
            Gave::Work
        }
        Ok(Turn::Answered(answer)) => gave_of(&answer),
        Err(_) => Gave::Refused,
    }
}

/// What an answer gives.
pub fn gave_of(answer: &Answer) -> Gave {
    match answer {
        Answer::Joined(key) => Gave::Joined(key.0),
        Answer::Plain(PlainReply::Done) => Gave::Done,
        Answer::Plain(PlainReply::Holds(block)) if block.is_zeros() => Gave::Zeros,
        Answer::Fine => Gave::Fine,
        Answer::Busy(key) => Gave::Busy(key.0),
        Answer::Seen(count) => Gave::Seen(*count),
        Answer::Recovered => Gave::Recovered,
        Answer::Cut(CutBy::Died) => Gave::Died,
        _ => Gave::Other,
    }
}
