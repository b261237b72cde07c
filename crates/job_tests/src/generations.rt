// The generated workload of one round, and the words that ask for one.
use crate::cases::{Job, expect};
use jobs::Status;
use shared_disk::{Device, MemDisk};
use std::test::Fail;

const ONE_ROUND: &str = "\
volume 4 16 4 4 8 4
0 join
0 create 0
0 size 0 3
0 create 4
0 size 4 3
0 create 8
0 size 8 3
0 create 12
0 size 12 3
1 join
1 create 1
1 size 1 3
1 create 5
1 size 5 3
1 create 9
1 size 9 3
1 create 13
1 size 13 3
2 join
2 create 2
2 size 2 3
2 create 6
2 size 6 3
2 create 10
2 size 10 3
2 create 14
2 size 14 3
3 join
3 create 3
3 size 3 3
3 create 7
3 size 7 3
3 create 11
3 size 11 3
3 create 15
3 size 15 3
barrier
0 write 0 0 1
0 write 4 0 2
0 write 8 0 3
0 write 12 0 4
0 write 0 1 5
0 write 4 1 6
0 write 8 1 7
0 write 12 1 8
0 write 0 2 9
0 write 4 2 10
0 read 0 0
1 write 1 0 1
1 write 5 0 3
1 write 9 0 5
1 write 13 0 7
1 write 1 1 9
1 write 5 1 11
1 write 9 1 13
1 write 13 1 15
1 write 1 2 17
1 write 5 2 19
1 read 1 0
2 write 2 0 1
2 write 6 0 4
2 write 10 0 7
2 write 14 0 10
2 write 2 1 13
2 write 6 1 16
2 write 10 1 19
2 write 14 1 22
2 write 2 2 25
2 write 6 2 28
2 read 2 0
3 write 3 0 1
3 write 7 0 5
3 write 11 0 9
3 write 15 0 13
3 write 3 1 17
3 write 7 1 21
3 write 11 1 25
3 write 15 1 29
3 write 3 2 33
3 write 7 2 37
3 read 3 0
barrier
0 merge
1 merge
2 merge
3 merge
barrier
0 serve
1 serve
2 serve
3 serve
";

#[test]
fn one_round(rt: HostRuntime) -> Result<(), Fail> {
    let alloc = rt.alloc();
    let job = Job {
        words: &["v", "gen", "1"],
        text: "",
        status: Status::Ok,
        written: ONE_ROUND,
    };
    let disk = MemDisk::new(alloc, 1)?;
    let disk = expect(&rt, alloc, &job, disk, "a round")?;
    assert!(&rt; disk.calls() == 0, "the device is untouched");
    Ok(())
}
