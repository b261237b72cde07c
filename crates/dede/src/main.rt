//! The program `dede`: one job on one volume. `docs/COMMANDS.md` has its words, texts and statuses.
#![tactic(auto)]

use file_disk::FileDisk;
use jobs::{Job, LineNo, Status, asked, top};
use std::alloc::Global;
use std::env;
use std::io::ErrorKind;
use std::process::ExitCode;
use vol_base::{FreeGate, NoMemory};
use vol_io::{StdSink, StdSource};

fn main(rt: HostRuntime) -> ExitCode {
    let Ok(words) = words(&rt) else {
        return ExitCode::from(Status::Memory.code());
    };
    let Ok((path, disk)) = volume(&rt, &words) else {
        return ExitCode::from(Status::Memory.code());
    };
    let mut source = StdSource::new(rt.stdin());
    let mut sink = StdSink::new(rt.stdout());
    let (status, disk) = top(
        &rt,
        rt.alloc(),
        &words,
        &mut source,
        &mut sink,
        disk,
        &FreeGate,
    );
    if status == Status::DiskFault {
        tell_reason(&rt, path, &disk);
    }
    ExitCode::from(status.code())
}

// Writes on the standard error why the device failed. Where that cannot be written the status is the same.
fn tell_reason(rt: &HostRuntime, path: &str, disk: &FileDisk) {
    if let Some(reason) = disk.reason() {
        let _written = eprintln!(rt; "dede: {path}: {reason}");
    }
}

// The words behind the program's name. Where one is no text there are none, so that they are of no form.
fn words(rt: &HostRuntime) -> Result<Vec<String>, NoMemory> {
    let words = match env::args(rt) {
        Ok(words) => words,
        Err(error) if error.kind() == ErrorKind::OutOfMemory => return Err(NoMemory),
        Err(_) => return Ok(Vec::new(rt.alloc())),
    };
    match words.skip(1).collect(rt.alloc()) {
        Ok(words) => Ok(words),
        Err(_) => Err(NoMemory),
    }
}

// The path of the volume's file, and the device over it.
fn volume<'a>(rt: &HostRuntime, words: &'a [String]) -> Result<(&'a str, FileDisk), NoMemory> {
    let path = path_of(rt.alloc(), words)?;
    let disk = FileDisk::new(rt, rt.alloc(), path)?;
    Ok((path, disk))
}

// The path is empty for words that are of no form, and for those of a job without a volume, so that they make no file.
fn path_of(alloc: Global, words: &[String]) -> Result<&str, NoMemory> {
    match asked(alloc, words) {
        Ok(line) => match line.job {
            Job::Gen(_) => Ok(""),
            _ => Ok(line.volume),
        },
        Err(LineNo::Usage) => Ok(""),
        Err(LineNo::NoMemory) => Err(NoMemory),
    }
}
