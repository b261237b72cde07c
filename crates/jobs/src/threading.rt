// The job that runs a workload with a thread for each host.
ghost use Rattle.std.specs.Prelude.{◌≡◌, ◌+◌, All, OnOk};
ghost use Rattle.cluster.specs.Agreements.{IsKnownLine};
ghost use Rattle.cluster.specs.Runs.{SameStart};
ghost use Rattle.shared_disk.specs.Seen.{seen_by};
ghost use Rattle.workload.specs.Grammar.{most_bytes};
ghost use Rattle.workload.specs.Workloads.{IsWorkload};
ghost use Rattle.jobs.specs.Runs.{ByThreads, IsOver, RunDecides};
ghost use Rattle.jobs.specs.Seen.{sink_by, source_by, seen};
ghost use Rattle.jobs.specs.Simulations.{SimDecides, SimEnds};
ghost use Rattle.jobs.specs.Sources.{TakesAtMost};

use crate::outcome::Outcome;
use crate::reading::read_workload;
use crate::running::{finish, unopened};
use crate::status::Status;
use crate::telling::tell;
use cluster::Cluster;
use host_threads::run_phase;
use shared_disk::Device;
use std::alloc::Global;
use std::sync::Wait;
use std::thread::Threads;
use vol_base::{Gate, NoMemory};
use vol_io::{Sink, Source};
use workload::Workload;

/// Runs the workload whose text the source gives, with a thread for each host, and writes its report; or else why it was not run.
/// A blank device becomes an empty volume first. Each thread passes the gate before each of its turns of a phase.
pub fn run<R: Threads + Wait + Sync, S: Source, K: Sink, D: Device + Send, G: Gate + Sync>(
    rt: &R,
    alloc: Global,
    source: &mut S,
    sink: &mut K,
    disk: D,
    gate: &G,
) -> (Status, D)
    ensures ends { SimEnds ByThreads
        (seen (source_by S.Source source.old) (seen_by D.Device disk) (sink_by K.Sink sink.old))
        (seen (source_by S.Source source.new) (seen_by D.Device result.1) (sink_by K.Sink sink.new))
        result.0 }
{
    let (outcome, disk) = decide(rt, alloc, source, disk, gate);
    let status = tell(alloc, sink, outcome);
    (status, disk)
}

// What is decided before a byte is written.
fn decide<R: Threads + Wait + Sync, S: Source, D: Device + Send, G: Gate + Sync>(
    rt: &R,
    alloc: Global,
    source: &mut S,
    disk: D,
    gate: &G,
) -> (Outcome, D)
    ensures decided { SimDecides ByThreads
        (source_by S.Source source.old) (source_by S.Source source.new)
        (seen_by D.Device disk) (seen_by D.Device result.1)
        result.0 }
    ensures taken { TakesAtMost (most_bytes + 1) (source_by S.Source source.old) (source_by S.Source source.new) }
    ensures blocks { (D.state result.1).blocks ≡ (D.state disk).blocks }
{
    match read_workload(alloc, source) {
        Ok(workload) => run_threads(rt, alloc, disk, workload, gate),
        Err(outcome) => (outcome, disk),
    }
}

// Opens a device, runs a workload on it phase by phase, and surveys the volume that the run left.
fn run_threads<R: Threads + Wait + Sync, D: Device + Send, G: Gate + Sync>(
    rt: &R,
    alloc: Global,
    disk: D,
    workload: Workload,
    gate: &G,
) -> (Outcome, D)
    requires workload { IsWorkload workload }
    requires known { All IsKnownLine workload.lines }
    ensures decided { RunDecides workload ByThreads (seen_by D.Device disk) (seen_by D.Device result.1) result.0 }
    ensures blocks { (D.state result.1).blocks ≡ (D.state disk).blocks }
{
    let cluster = match Cluster::start(alloc, disk, workload) {
        Ok(cluster) => cluster,
        Err((refusal, disk)) => return (unopened(refusal), disk),
    };
    let (cluster, ended) = run_phases(rt, alloc, cluster, gate);
    match ended {
        Ok(()) => finish(alloc, cluster),
        Err(NoMemory) => (Outcome::Memory, cluster.close().disk),
    }
}

// Runs one phase after the other, each to its end.
fn run_phases<R: Threads + Wait + Sync, D: Device + Send, G: Gate + Sync>(
    rt: &R,
    alloc: Global,
    mut cluster: Cluster<D>,
    gate: &G,
) -> (Cluster<D>, Result<(), NoMemory>)
    ensures same { SameStart cluster result.0 }
    ensures over { OnOk result.1 (IsOver result.0) }
{
    loop {
        let hosts = cluster.hosts();
        let (later, ended) = run_phase(rt, alloc, cluster, hosts, gate);
        cluster = later;
        // The run that a cluster keeps ends at its device as it is only where no turn was refused memory.
        if ended.is_err() || cluster.is_spent() {
            return (cluster, Err(NoMemory));
        }
        if !cluster.next_phase() {
            return (cluster, Ok(()));
        }
    }
}
