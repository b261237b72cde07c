// Texts and their first causes, and workloads that are written and read again.
use std::alloc::{AllocError, Global};
use vol_base::Command;
use workload::{Line, Lines, ParseNo, Workload, WorkloadNo, parse, print, write_numbers};

// The first faulty line of a text and its cause, or `None` where it was read or memory was refused.
fn fault(alloc: Global, text: &[u8]) -> Option<(u32, WorkloadNo)> {
    match parse(alloc, text) {
        Err(ParseNo::Refused { line, cause }) => Some((line, cause)),
        _ => None,
    }
}

// What is written of the workload that was read, or `None` where the text was refused.
fn written_again(alloc: Global, text: &[u8]) -> Option<Vec<u8>> {
    match parse(alloc, text) {
        Ok(workload) => print(alloc, &workload).ok(),
        Err(_) => None,
    }
}

// A text of a first line and of so many copies of another.
fn repeated(alloc: Global, first: &str, line: &str, count: u32) -> Result<String, AllocError> {
    let mut text = String::from_str(alloc, first)?;
    for _ in 0..count {
        text.push_str(line)?;
    }
    Ok(text)
}

#[test]
fn each_cause_has_its_line(rt: HostRuntime) {
    let cases = [
        ("", 1, WorkloadNo::Volume),
        ("\n", 1, WorkloadNo::Shape),
        ("volume 2 4 1 1 4 1\n0 join\n\n", 3, WorkloadNo::Shape),
        ("volume 2 4 1 1 4\n", 1, WorkloadNo::Count),
        ("volume 02 4 1 1 4 1\n", 1, WorkloadNo::Number),
        ("volume 17 4 1 1 4 1\n", 1, WorkloadNo::Range),
        ("volume 2 4 1 1 4 1 1\n", 1, WorkloadNo::Range),
        ("volume 2 4 1 1 4 1\nbarrier 1\n", 2, WorkloadNo::Count),
        ("volume 2 4 1 1 4 1\n9 volume\n", 2, WorkloadNo::Word),
        ("volume 2 4 1 1 4 1\n9 size x\n", 2, WorkloadNo::Count),
        ("volume 2 4 1 1 4 1\n9 size 4 x\n", 2, WorkloadNo::Number),
        ("volume 2 4 1 1 4 1\n0 create 4\n", 2, WorkloadNo::Range),
        ("volume 2 4 1 1 4 1\n0 look 2\n", 2, WorkloadNo::Range),
        ("volume 2 4 1 1 4 1\n1 look 1\n", 2, WorkloadNo::Own),
    ];
    for (text, line, cause) in cases {
        assert_eq!(rt; fault(rt.alloc(), text.as_bytes()), Some((line, cause)));
    }
}

#[test]
fn texts_end_at_their_limits(rt: HostRuntime) {
    let long = repeated(rt.alloc(), "", "a", 1_048_577);
    assert!(rt; long.is_ok());
    assert_eq!(rt;
        fault(rt.alloc(), long.unwrap().as_bytes()),
        Some((0, WorkloadNo::Long))
    );
    let most = repeated(
        rt.alloc(),
        "volume 1 1 1 1 1 1\nbarrier\n",
        "0 join\n",
        16_384,
    );
    assert!(rt; most.is_ok());
    let mut commands = most.unwrap();
    match parse(rt.alloc(), commands.as_bytes()) {
        Ok(workload) => {
            assert_eq!(rt; workload.lines.as_slice().len(), 16_384);
            assert_eq!(rt; workload.phases, 2);
        }
        Err(_) => assert!(rt; false),
    }
    assert!(rt; commands.push_str("0 beat\n").is_ok());
    assert_eq!(rt;
        fault(rt.alloc(), commands.as_bytes()),
        Some((16_387, WorkloadNo::Many))
    );
}

#[test]
fn what_is_read_is_written_again(rt: HostRuntime) {
    let texts = [
        "volume 2 4 1 1 4 1\n0 join\n1 join\nbarrier\n0 create 0\n0 size 0 1\n0 write 0 0 7\nbarrier\n1 read 0 0\nbarrier\n0 close 0\nbarrier\n1 read 0 0\n",
        "volume 2 4 1 1 4 1 3\nbarrier\nbarrier\n",
        "volume 16 64 64 16 64 16 16\n15 leave\n0 punch 63 4294967295\n0 remove 1\n0 log\n0 scan 5 0\nbarrier\nbarrier\n1 merge\n1 serve\n1 collect 15\n1 beat\n1 look 0\n1 recover 2\n1 die 4294967295\n0 scribble 18446744073709551615 18446744073709551615 4294967295\nbarrier\n",
    ];
    for text in texts {
        match written_again(rt.alloc(), text.as_bytes()) {
            Some(written) => assert!(rt; written.as_slice() == text.as_bytes()),
            None => assert!(rt; false),
        }
    }
    match written_again(rt.alloc(), b"volume 2 4 1 1 4 1\n0 join") {
        Some(written) => {
            assert!(rt; written.as_slice() == b"volume 2 4 1 1 4 1\n0 join\n".as_slice());
        }
        None => assert!(rt; false),
    }
}

#[test]
fn lines_have_their_numbers_and_phases(rt: HostRuntime) {
    let text =
        "volume 2 4 1 1 4 1\n0 join\nbarrier\nbarrier\n1 write 3 9 18446744073709551615\nbarrier";
    match parse(rt.alloc(), text.as_bytes()) {
        Ok(workload) => {
            let Workload {
                geometry,
                lines,
                phases,
            } = workload;
            assert_eq!(rt; geometry.hosts, 2);
            assert_eq!(rt; geometry.shards, 4);
            assert_eq!(rt; geometry.tables, 1);
            assert_eq!(rt; phases, 4);
            let lines = Lines::from_vec(lines.into_vec());
            let first = Line {
                at: 2,
                phase: 0,
                host: 0,
                command: Command::Join,
            };
            let second = Line {
                at: 5,
                phase: 2,
                host: 1,
                command: Command::Write(3, 9, u64::MAX),
            };
            assert!(rt; lines.as_slice() == [first, second].as_slice());
        }
        Err(_) => assert!(rt; false),
    }
}

#[test]
fn numbers_stand_behind_a_text(rt: HostRuntime) {
    let word = String::from_str(rt.alloc(), "beyond");
    assert!(rt; word.is_ok());
    let mut text = word.unwrap();
    assert!(rt; write_numbers(&mut text, &[0, u64::MAX]).is_ok());
    assert!(rt; text.as_str() == "beyond 0 18446744073709551615");
}
