// Cases: a device, and what is done with it step by step.
use crate::devices::{Edit, Number, edited, holds};
use crate::scripts::script_of;
use jobs::{Status, command};
use shared_disk::{Device, MemDisk};
use std::alloc::{AllocError, Global};
use std::process::Abort;
use std::test::Fail;
use vol_base::NoMemory;
use vol_io::{Sink, Source, SureSink, SureSource};

pub const SIM: &[&str] = &["v", "sim"];

pub const CHECK: &[&str] = &["v", "check"];

/// A workload of one host.
pub const FIRST: &str =
    "volume 2 4 1 1 4 1\n0 join\n0 create 0\n0 size 0 2\n0 write 0 0 7\n0 read 0 0\n";

/// Its report on a blank device.
pub const FIRST_REPORT: &str =
    "2 joined 32\n3 ok\n4 ok\n5 ok\n6 = 7\nhistory 3 4 5 6\nused 1 mapped 1\n";

/// A workload without commands, with its report: what it leaves is an empty volume of 1,032 blocks. Slots stand in the blocks 1 and 2,
/// journals in 3 and 4, locks in 5 to 10, tables of files in 11 to 14, of the group in 15 and of the part in 16; with four shards, as in
/// `FIRST`, they stand there too.
pub const EMPTY: &str = "volume 2 4 1 1 1 1\n\nhistory\nused 0 mapped 0\n";

/// Steps on a device that is blank before them.
pub struct Case {
    pub shows: &'static str,
    pub blocks: u64,
    pub steps: &'static [Step],
}

pub enum Step {
    /// `sim` runs a workload with its answers, and lines behind them (`script_of`), to the end.
    Sim(&'static str),
    /// `sim` runs the workload `FIRST`, ends so, and writes this.
    First(Status, &'static str),
    /// `check` writes that the volume is valid, and this line.
    Valid(&'static str),
    /// `check` writes these faults.
    Faulty(&'static str),
    /// Any job.
    Job(Job<'static>),
    Edit(Edit),
    /// This call from now on fails, where the next one is 1.
    Fail(u64),
    /// These numbers stand on the device.
    Holds(&'static [Number]),
}

/// The words of a job, its text, its status, and all that it writes.
#[derive(Drop)]
pub struct Job<'a> {
    pub words: &'a [&'a str],
    pub text: &'a str,
    pub status: Status,
    pub written: &'a str,
}

/// Plays each case.
pub fn play(rt: &impl Abort, alloc: Global, cases: &[Case]) -> Result<(), Fail> {
    for case in cases {
        play_case(rt, alloc, case)?;
    }
    Ok(())
}

fn play_case(rt: &impl Abort, alloc: Global, case: &Case) -> Result<(), Fail> {
    let mut disk = MemDisk::new(alloc, case.blocks)?;
    for step in case.steps {
        disk = done(rt, alloc, disk, step, case.shows)?;
    }
    Ok(())
}

// Does a step.
fn done(
    rt: &impl Abort,
    alloc: Global,
    disk: MemDisk,
    step: &Step,
    shows: &str,
) -> Result<MemDisk, Fail> {
    match step {
        Step::Sim(script) => simulate(rt, alloc, script, disk, shows),
        Step::First(status, written) => {
            let job = Job {
                words: SIM,
                text: FIRST,
                status: *status,
                written,
            };
            expect(rt, alloc, &job, disk, shows)
        }
        Step::Valid(usage) => expect_valid(rt, alloc, usage, disk, shows),
        Step::Faulty(faults) => {
            let job = Job {
                words: CHECK,
                text: "",
                status: Status::Volume,
                written: faults,
            };
            expect(rt, alloc, &job, disk, shows)
        }
        Step::Job(job) => expect(rt, alloc, job, disk, shows),
        Step::Edit(edit) => Ok(edited(alloc, &disk, edit)?),
        Step::Fail(call) => Ok(failing(disk, *call)?),
        Step::Holds(numbers) => {
            holds(rt, &disk, numbers, shows);
            Ok(disk)
        }
    }
}

/// Runs a workload with its answers to the end.
pub fn simulate(
    rt: &impl Abort,
    alloc: Global,
    script: &str,
    disk: MemDisk,
    shows: &str,
) -> Result<MemDisk, Fail> {
    let script = script_of(alloc, script)?;
    let job = Job {
        words: SIM,
        text: script.text.as_str(),
        status: Status::Ok,
        written: script.written.as_str(),
    };
    expect(rt, alloc, &job, disk, shows)
}

/// Expects a valid volume of this usage.
pub fn expect_valid(
    rt: &impl Abort,
    alloc: Global,
    usage: &str,
    disk: MemDisk,
    shows: &str,
) -> Result<MemDisk, Fail> {
    let mut written = String::from_str(alloc, "valid\n")?;
    written.push_str(usage)?;
    let job = Job {
        words: CHECK,
        text: "",
        status: Status::Ok,
        written: written.as_str(),
    };
    expect(rt, alloc, &job, disk, shows)
}

/// Does a job, and compares its status and what it wrote.
pub fn expect(
    rt: &impl Abort,
    alloc: Global,
    job: &Job,
    disk: MemDisk,
    shows: &str,
) -> Result<MemDisk, Fail> {
    let mut source = SureSource::new(Vec::from_slice(alloc, job.text.as_bytes())?);
    let mut sink = SureSink::new(alloc, 16_384)?;
    let (status, disk) = call(alloc, job.words, &mut source, &mut sink, disk)?;
    compare(rt, status, sink.taken(), job, shows);
    Ok(disk)
}

/// Compares how a job ended and what was taken of its text.
pub fn compare(rt: &impl Abort, status: Status, taken: &[u8], job: &Job, shows: &str) {
    let ended = status == job.status && taken == job.written.as_bytes();
    assert!(rt; ended, "{shows}");
}

/// Does what the words say over this source and this sink.
pub fn call<S: Source, K: Sink>(
    alloc: Global,
    words: &[&str],
    source: &mut S,
    sink: &mut K,
    disk: MemDisk,
) -> Result<(Status, MemDisk), AllocError> {
    let mut owned = Vec::new(alloc);
    for word in words {
        owned.push(String::from_str(alloc, word)?)?;
    }
    Ok(command(alloc, &owned, source, sink, disk))
}

fn failing(disk: MemDisk, call: u64) -> Result<MemDisk, NoMemory> {
    let mut disk = disk;
    disk.fail_at(disk.calls().saturating_add(call))?;
    Ok(disk)
}
