// What the program writes of a run by threads. The report is worked out by hand.
use jobs::{Status, command, top};
use shared_disk::MemDisk;
use std::alloc::{AllocError, Global};
use std::process::Abort;
use std::sync::Wait;
use std::test::Fail;
use std::thread::Threads;
use vol_base::FreeGate;
use vol_io::{SureSink, SureSource};

const TEXT: &str =
    "volume 2 4 1 1 4 1\n0 join\n0 create 0\n0 size 0 2\n0 write 0 0 7\n0 read 0 0\n";

// The blocks of a volume of that line, which all texts have.
const BLOCKS: u64 = 1035;

const REPORT: &str = "2 joined 32\n3 ok\n4 ok\n5 ok\n6 = 7\nhistory 3 4 5 6\nused 1 mapped 1\n";

// An entry of the log is stale once its block was written anew.
const MERGED_TEXT: &str =
    "volume 2 4 1 1 4 1\n0 join\n0 create 0\n0 size 0 1\n0 write 0 0 5\n0 log\n0 write 0 0 6\n0 merge\n";

const MERGED_REPORT: &str =
    "2 joined 32\n3 ok\n4 ok\n5 ok\n6 logged 1\n7 ok\n8 merged 1 0 0 0 0 0 0 0 0\nhistory 3 4 5 7\nused 1 mapped 1\n";

const USAGE: &str = "usage: dede VOLUME JOB [ARGS]\n";

fn owned(alloc: Global, words: &[&str]) -> Result<Vec<String>, AllocError> {
    let mut owned = Vec::new(alloc);
    for word in words {
        owned.push(String::from_str(alloc, word)?)?;
    }
    Ok(owned)
}

// Does what the words say over a blank device, and expects this status and text.
fn expect<R: Threads + Wait + Sync + Abort>(
    rt: &R,
    alloc: Global,
    words: &[&str],
    text: &str,
    status: Status,
    written: &str,
) -> Result<(), Fail> {
    let words = owned(alloc, words)?;
    let mut source = SureSource::new(Vec::from_slice(alloc, text.as_bytes())?);
    let mut sink = SureSink::new(alloc, 200)?;
    let disk = MemDisk::new(alloc, BLOCKS)?;
    let (found, _disk) = top(rt, alloc, &words, &mut source, &mut sink, disk, &FreeGate);
    assert!(rt; sink.taken() == written.as_bytes());
    assert!(rt; found == status);
    Ok(())
}

#[test]
fn one_host_reports_as_by_a_schedule(rt: HostRuntime) -> Result<(), Fail> {
    let alloc = rt.alloc();
    expect(&rt, alloc, &["v", "sim"], TEXT, Status::Ok, REPORT)?;
    expect(&rt, alloc, &["v", "run"], TEXT, Status::Ok, REPORT)?;
    expect(&rt, alloc, &["v", "run", "0"], TEXT, Status::Usage, USAGE)
}

#[test]
fn a_merge_by_threads_reports_as_by_a_schedule(rt: HostRuntime) -> Result<(), Fail> {
    let alloc = rt.alloc();
    expect(
        &rt,
        alloc,
        &["v", "sim"],
        MERGED_TEXT,
        Status::Ok,
        MERGED_REPORT,
    )?;
    expect(
        &rt,
        alloc,
        &["v", "run"],
        MERGED_TEXT,
        Status::Ok,
        MERGED_REPORT,
    )
}

#[test]
fn a_call_without_threads_does_not_run(rt: HostRuntime) -> Result<(), Fail> {
    let words = owned(rt.alloc(), &["v", "run"])?;
    let mut source = SureSource::new(Vec::from_slice(rt.alloc(), TEXT.as_bytes())?);
    let mut sink = SureSink::new(rt.alloc(), 200)?;
    let disk = MemDisk::new(rt.alloc(), BLOCKS)?;
    let (status, _disk) = command(rt.alloc(), &words, &mut source, &mut sink, disk);
    assert!(rt; status == Status::Usage);
    assert!(rt; sink.taken() == USAGE.as_bytes());
    Ok(())
}
