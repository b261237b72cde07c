// What the texts begin and end with, and what their workloads are counted to be.
use gen_load::gen_text;
use std::alloc::Global;
use std::collections::BTreeSet;
use std::test::Fail;
use vol_base::Command;
use workload::{Line, parse};

// How many commands a workload has, how many places they write and how many contents, and how many
// contents host 0 alone writes.
fn counts(alloc: Global, lines: &[Line]) -> Result<(usize, usize, usize, usize), Fail> {
    let mut places = BTreeSet::new(alloc);
    let mut contents = BTreeSet::new(alloc);
    let mut first = BTreeSet::new(alloc);
    for line in lines {
        if let Command::Write(file, index, number) = line.command {
            places.insert((file, index))?;
            contents.insert(number)?;
            if line.host == 0 {
                first.insert(number)?;
            }
        }
    }
    Ok((lines.len(), places.len(), contents.len(), first.len()))
}

#[test]
fn texts_and_their_counts(rt: HostRuntime) -> Result<(), Fail> {
    let starts = "volume 4 16 4 4 8 4\n0 join\n0 create 0\n0 size 0 ";
    let ends =
        "barrier\n0 merge\n1 merge\n2 merge\n3 merge\nbarrier\n0 serve\n1 serve\n2 serve\n3 serve\n";
    let rows = [
        (1, "3\n", "3 write 7 2 37\n3 read 3 0\n", (88, 40, 23, 10)),
        (10, "30\n", "3 read 3 27\n3 log\n", (488, 400, 101, 100)),
        (40, "120\n", "3 read 3 117\n3 log\n", (1820, 1600, 101, 101)),
    ];
    for (rounds, blocks, last, want) in rows {
        let text = gen_text(rt.alloc(), rounds)?;
        let rest = text
            .as_slice()
            .strip_prefix(starts.as_bytes())
            .ok_or("start")?;
        assert!(rt; rest.starts_with(blocks.as_bytes()), "at {rounds}");
        let rest = text.as_slice().strip_suffix(ends.as_bytes()).ok_or("end")?;
        assert!(rt; rest.ends_with(last.as_bytes()), "at {rounds}");
        match parse(rt.alloc(), text.as_slice()) {
            Ok(workload) => {
                assert_eq!(rt;
                    counts(rt.alloc(), workload.lines.as_slice())?,
                    want,
                    "at {rounds}"
                );
                assert_eq!(rt; workload.phases, rounds + 3);
            }
            Err(_) => assert!(rt; false, "at {rounds}"),
        }
    }
    Ok(())
}
