// The jobs by the words of the command line.
ghost use Rattle.std.specs.Prelude.{◌≡◌, Some, map, string_bytes};
ghost use Rattle.jobs.specs.Commands.{CheckEnds, CommandEnds, IsRefused, JobEnds, UsageEnds};
ghost use Rattle.shared_disk.specs.Seen.{seen_by};
ghost use Rattle.jobs.specs.Seen.{sink_by, source_by, seen};
ghost use Rattle.words.specs.Words.{HasRounds};

use crate::checking::check;
use crate::generating::generate;
use crate::outcome::Outcome;
use crate::settling::settle;
use crate::simulating::sim;
use crate::status::Status;
use crate::telling::tell;
use shared_disk::Device;
use std::alloc::Global;
use vol_io::{Sink, Source};
use words::{Job, Line, LineNo, asked};

/// Does the job that the words behind the program's name ask for, on this device, and hands it back.
/// Words that are of no form, and those that ask for threads, have the usage written, and then nothing else is touched.
pub fn command<S: Source, K: Sink, D: Device>(
    alloc: Global,
    words: &[String],
    source: &mut S,
    sink: &mut K,
    disk: D,
) -> (Status, D)
    ensures ends { CommandEnds (map string_bytes words.now)
        (seen (source_by S.Source source.old) (seen_by D.Device disk) (sink_by K.Sink sink.old))
        (seen (source_by S.Source source.new) (seen_by D.Device result.1) (sink_by K.Sink sink.new))
        result.0 }
{
    match asked(alloc, words) {
        Ok(line) => perform(alloc, &line, source, sink, disk),
        Err(why) => (refuse(alloc, sink, why), disk),
    }
}

/// Has the usage written for words of no form. Where memory was refused nothing is written.
pub(crate) fn refuse<K: Sink>(alloc: Global, sink: &mut K, why: LineNo) -> Status
    ensures { IsRefused why (sink_by K.Sink sink.old) (sink_by K.Sink sink.new) result }
{
    match why {
        LineNo::Usage => tell(alloc, sink, Outcome::Usage),
        LineNo::NoMemory => Status::Memory,
    }
}

/// Does the job of a line. `run` is to it as words of no form, since this call has no threads.
pub(crate) fn perform<S: Source, K: Sink, D: Device>(
    alloc: Global,
    line: &Line<'_>,
    source: &mut S,
    sink: &mut K,
    disk: D,
) -> (Status, D)
    requires rounds { HasRounds line.now.job }
    ensures ends { JobEnds (Some line.now.job) line.now.hosts.items
        (seen (source_by S.Source source.old) (seen_by D.Device disk) (sink_by K.Sink sink.old))
        (seen (source_by S.Source source.new) (seen_by D.Device result.1) (sink_by K.Sink sink.new))
        result.0 }
{
    match line.job {
        Job::Sim => sim(alloc, line.hosts.as_slice(), source, sink, disk),
        Job::Check => check(alloc, sink, disk),
        Job::Settle => settle(alloc, sink, disk),
        Job::Gen(rounds) => (generate(alloc, sink, rounds), disk),
        Job::Run => (tell(alloc, sink, Outcome::Usage), disk),
    }
}
