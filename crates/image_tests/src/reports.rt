// Whole reports: those of two workloads, and one with the text of each answer.
use image_view::Usage;
use plain_files::Placed;
use report::text;
use std::alloc::Global;
use std::test::Fail;
use vol_base::{Answer, Block, CutBy, Key, MergeCounts, PlainReply, ServeCounts, number_block};
use workload::parse;

const DONE: Option<Answer> = Some(Answer::Plain(PlainReply::Done));

// The report of the workload of a text, where the answers and the history are of that workload.
fn report_of(
    alloc: Global,
    workload_text: &str,
    answers: &[Option<Answer>],
    history: &[Placed],
    usage: Option<&Usage>,
) -> Result<Vec<u8>, Fail> {
    let workload = match parse(alloc, workload_text.as_bytes()) {
        Ok(workload) => workload,
        Err(_) => return Err("no workload".into()),
    };
    let lines = workload.lines.as_slice().len();
    if answers.len() != lines || !answers.iter().all(|answer| answer.is_some()) {
        return Err("not one answer for each line".into());
    }
    if !history.iter().all(|entry| (entry.line as usize) < lines) {
        return Err("a history of other lines".into());
    }
    Ok(text(alloc, &workload, answers, history, usage)?)
}

fn placed(line: u32) -> Placed {
    Placed {
        line,
        reply: PlainReply::Done,
    }
}

#[test]
fn a_run_has_its_report(rt: HostRuntime) -> Result<(), Fail> {
    let report = report_of(
        rt.alloc(),
        "volume 2 4 1 1 4 1\n0 join\n0 create 0\n0 size 0 2\n0 write 0 0 7\n0 read 0 0\n",
        &[
            Some(Answer::Joined(Key(32))),
            DONE,
            DONE,
            DONE,
            Some(Answer::Plain(PlainReply::Holds(number_block(7)))),
        ],
        &[placed(1), placed(2), placed(3), placed(4)],
        Some(&Usage { used: 1, mapped: 1 }),
    )?;
    let want = "2 joined 32\n3 ok\n4 ok\n5 ok\n6 = 7\nhistory 3 4 5 6\nused 1 mapped 1\n";
    assert!(rt; report.as_slice() == want.as_bytes());
    Ok(())
}

#[test]
fn phases_and_no_usage(rt: HostRuntime) -> Result<(), Fail> {
    let report = report_of(
        rt.alloc(),
        "volume 2 4 1 1 4 1\n0 join\n1 join\nbarrier\n0 create 0\nbarrier\n1 read 0 0\nbarrier\n0 close 0\n",
        &[
            Some(Answer::Joined(Key(32))),
            Some(Answer::Joined(Key(49))),
            DONE,
            Some(Answer::Busy(Key(32))),
            Some(Answer::Fine),
        ],
        &[placed(2)],
        None,
    )?;
    let want = "2 joined 32\n3 joined 49\n5 ok\n7 busy 32\n9 ok\nhistory 5\n";
    assert!(rt; report.as_slice() == want.as_bytes());
    let nothing = Usage { used: 0, mapped: 0 };
    let empty = report_of(rt.alloc(), "volume 2 4 1 1 4 1\n", &[], &[], Some(&nothing))?;
    assert!(rt; empty.as_slice() == b"history\nused 0 mapped 0\n".as_slice());
    Ok(())
}

// A workload of so many commands.
fn beats(alloc: Global, count: usize) -> Result<String, Fail> {
    let mut workload_text = String::from_str(alloc, "volume 2 4 1 1 4 1\n")?;
    for _ in 0..count {
        workload_text.push_str("0 beat\n")?;
    }
    Ok(workload_text)
}

#[test]
fn each_plain_reply_has_its_text(rt: HostRuntime) -> Result<(), Fail> {
    let mut other = number_block(7);
    other.0[4095] = 8;
    let answers = [
        DONE,
        Some(Answer::Plain(PlainReply::Holds(Block::zeros()))),
        Some(Answer::Plain(PlainReply::Holds(number_block(u64::MAX)))),
        Some(Answer::Plain(PlainReply::Holds(other))),
        Some(Answer::Plain(PlainReply::NoFile)),
        Some(Answer::Plain(PlainReply::Exists)),
        Some(Answer::Plain(PlainReply::Beyond(2))),
        Some(Answer::Plain(PlainReply::TooLong)),
    ];
    let workload_text = beats(rt.alloc(), answers.len())?;
    let report = report_of(rt.alloc(), workload_text.as_str(), &answers, &[], None)?;
    let want =
        "2 ok\n3 = 0\n4 = 18446744073709551615\n5 # 3b6266fc997031eb76c0f43435f7089d158f4b7b\n6 nofile\n7 exists\n8 beyond 2\n9 toolong\nhistory\n";
    assert!(rt; report.as_slice() == want.as_bytes());
    Ok(())
}

#[test]
fn each_other_answer_has_its_text(rt: HostRuntime) -> Result<(), Fail> {
    let merged = MergeCounts {
        stale: 1,
        unique: 2,
        linked: 3,
        already: 4,
        differs: 5,
        gone: 6,
        posted: 7,
        full: 8,
        skipped: 9,
    };
    let served = ServeCounts {
        linked: 1,
        already: 2,
        differs: 3,
        gone: 4,
    };
    let answers = [
        Some(Answer::Fine),
        Some(Answer::Joined(Key(32))),
        Some(Answer::Up),
        Some(Answer::Down),
        Some(Answer::Busy(Key(49))),
        Some(Answer::Full),
        Some(Answer::Cut(CutBy::Fenced)),
        Some(Answer::Cut(CutBy::Fault)),
        Some(Answer::Cut(CutBy::Died)),
        Some(Answer::Cut(CutBy::Bad(1034))),
        Some(Answer::Logged(126)),
        Some(Answer::Scanned(0)),
        Some(Answer::Merged(merged)),
        Some(Answer::Served(served)),
        Some(Answer::Collected(10)),
        Some(Answer::Free),
        Some(Answer::Seen(3)),
        Some(Answer::Alive(u32::MAX)),
        Some(Answer::Recovered),
        Some(Answer::Refused),
        Some(Answer::NoKeys),
    ];
    let workload_text = beats(rt.alloc(), answers.len())?;
    let report = report_of(rt.alloc(), workload_text.as_str(), &answers, &[], None)?;
    let want =
        "2 ok\n3 joined 32\n4 up\n5 down\n6 busy 49\n7 full\n8 cut fenced\n9 cut fault\n10 cut died\n11 cut bad 1034\n12 logged 126\n13 scanned 0\n14 merged 1 2 3 4 5 6 7 8 9\n15 served 1 2 3 4\n16 collected 10\n17 free\n18 seen 3\n19 alive 4294967295\n20 recovered\n21 refused\n22 nokeys\nhistory\n";
    assert!(rt; report.as_slice() == want.as_bytes());
    Ok(())
}
