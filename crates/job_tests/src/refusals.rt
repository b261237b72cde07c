// Words and texts by which nothing is run.
use crate::cases::{FIRST, Job, SIM, expect};
use jobs::Status;
use shared_disk::{Device, MemDisk};
use std::alloc::Global;
use std::process::Abort;
use std::test::Fail;

// A device behind a job that is refused before it is touched.
fn refuse(rt: &impl Abort, alloc: Global, job: &Job, shows: &str) -> Result<(), Fail> {
    let disk = expect(rt, alloc, job, MemDisk::new(alloc, 1035)?, shows)?;
    assert!(rt; disk.calls() == 0, "{shows}");
    Ok(())
}

static WORDS: [&[&str]; 17] = [
    &["v", "sim", "16"],
    &["v", "sim", "0", "01"],
    &["v", "sim", "-1"],
    &["v", "sim", ""],
    &["v", "Sim"],
    &["v", "run"],
    &["v", "check", "0"],
    &["v", "gen"],
    &["v", "gen", "0"],
    &["v", "gen", "01"],
    &["v", "gen", "101"],
    &["v", "gen", "1000"],
    &["v", "gen", "1", "2"],
    &["-v", "sim"],
    &["", "check"],
    &["v"],
    &[],
];

#[test]
fn words_of_no_form(rt: HostRuntime) -> Result<(), Fail> {
    for words in &WORDS {
        let job = Job {
            words,
            text: FIRST,
            status: Status::Usage,
            written: "usage: dede VOLUME JOB [ARGS]\n",
        };
        refuse(&rt, rt.alloc(), &job, "words of no form")?;
    }
    Ok(())
}

// Texts with their refusals.
static TEXTS: [(&str, &str); 6] = [
    ("", "workload line 1: volume\n"),
    (
        "volume 2 4 1 1 4 1\n0 join\n16 join\n",
        "workload line 3: range\n",
    ),
    (
        "volume 2 4 1 1 4 1\n0 join\n0 look 0\n",
        "workload line 3: own\n",
    ),
    (
        "volume 2 4 1 1 4 1\n0 merge\n0 size 0\n",
        "workload line 3: count\n",
    ),
    ("volume 2 4 1 1 1 1\n0 merges\n", "workload line 2: word\n"),
    (
        "volume 2 4 1 1 1 1\n0 serve 1\n",
        "workload line 2: count\n",
    ),
];

#[test]
fn texts_that_are_not_run(rt: HostRuntime) -> Result<(), Fail> {
    for (text, written) in &TEXTS {
        let job = Job {
            words: SIM,
            text,
            status: Status::Workload,
            written,
        };
        refuse(&rt, rt.alloc(), &job, text)?;
    }
    Ok(())
}
