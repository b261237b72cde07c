// The call that the program makes.
ghost use Rattle.std.specs.Prelude.{◌≡◌, map, string_bytes};
ghost use Rattle.jobs.specs.Commands.{TopEnds};
ghost use Rattle.shared_disk.specs.Seen.{seen_by};
ghost use Rattle.jobs.specs.Seen.{sink_by, source_by, seen};

use crate::commands::{perform, refuse};
use crate::status::Status;
use crate::threading::run;
use shared_disk::Device;
use std::alloc::Global;
use std::sync::Wait;
use std::thread::Threads;
use vol_base::Gate;
use vol_io::{Sink, Source};
use words::{Job, asked};

/// Does the job that the words behind the program's name ask for, on this device, and hands it back: that of `command`, or the run
/// by threads, each of which passes the gate before each of its turns. Nothing is said of whether such a run returns.
pub fn top<R: Threads + Wait + Sync, S: Source, K: Sink, D: Device + Send, G: Gate + Sync>(
    rt: &R,
    alloc: Global,
    words: &[String],
    source: &mut S,
    sink: &mut K,
    disk: D,
    gate: &G,
) -> (Status, D)
    ensures ends { TopEnds (map string_bytes words.now)
        (seen (source_by S.Source source.old) (seen_by D.Device disk) (sink_by K.Sink sink.old))
        (seen (source_by S.Source source.new) (seen_by D.Device result.1) (sink_by K.Sink sink.new))
        result.0 }
{
    let line = match asked(alloc, words) {
        Ok(line) => line,
        Err(why) => return (refuse(alloc, sink, why), disk),
    };
    match line.job {
        Job::Run => run(rt, alloc, source, sink, disk, gate),
        _ => perform(alloc, &line, source, sink, disk),
    }
}
