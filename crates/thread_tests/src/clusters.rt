// The first phase of a workload by threads, over a device in memory.
use crate::hosts::meeting::Meeting;
use cluster::{Cluster, are_known};
use host_threads::run_phase;
use shared_disk::MemDisk;
use std::alloc::Global;
use vol_base::{Answer, NoMemory, PlainReply};
use workload::parse;

// Two hosts that want the one group of their volume.
const TEXT: &[u8] = b"volume 2 2 1 1 1 1
0 join
1 join
0 create 0
0 size 0 1
1 create 1
1 size 1 1
barrier
0 write 0 0 1
1 write 1 0 2
barrier
1 write 1 0 2
";

// The lines of the first phase.
const FIRST_PHASE: usize = 6;

// Those of them that change a file.
const CHANGES: usize = 4;

// The position of the `create` of host 1.
const CREATE: u32 = 4;

// Host 0 waits inside its `create` until host 1 has joined and has created its file, so the history begins with that.
#[test]
fn hosts_of_a_cluster_interleave_inside_a_command(rt: HostRuntime) {
    let Some(cluster) = started(rt.alloc()) else {
        panic!(rt; "there was memory");
    };
    let meeting = Meeting::new();
    let hosts = cluster.hosts();
    let (cluster, ended) = run_phase(&rt, rt.alloc(), cluster, hosts, &meeting);
    assert_eq!(rt; ended, Ok::<(), NoMemory>(()));
    assert!(rt; meeting.was_held(), "the hosts met");
    assert!(rt; cluster.idle());
    let closed = cluster.close();
    assert_eq!(rt; closed.history.len(), CHANGES);
    assert!(rt;
        closed
            .history
            .iter()
            .next()
            .is_some_and(|entry| entry.line == CREATE)
    );
    assert_eq!(rt;
        closed
            .answers
            .iter()
            .filter(|answer| is_well(answer))
            .count(),
        FIRST_PHASE
    );
}

// A cluster over a new device, before its first turn.
fn started(alloc: Global) -> Option<Cluster<MemDisk>> {
    let Ok(workload) = parse(alloc, TEXT) else {
        return None;
    };
    if !are_known(workload.lines.as_slice()) {
        return None;
    }
    let disk = MemDisk::new(alloc, workload.geometry.total()).ok()?;
    Cluster::start(alloc, disk, workload).ok()
}

// Whether a host joined, or changed a file.
fn is_well(answer: &Option<Answer>) -> bool {
    matches!(
        answer,
        Some(Answer::Joined(_) | Answer::Plain(PlainReply::Done))
    )
}
