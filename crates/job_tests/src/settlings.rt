// Volumes that are settled.
use crate::cases::{Case, Job, Step, play};
use jobs::Status;
use std::test::Fail;

const SETTLE: &[&str] = &["v", "settle"];

static CASES: [Case; 3] = [
    Case {
        shows: "five live places hold two different blocks; behind the settling two data blocks are used",
        blocks: 1029,
        steps: &[
            Step::Sim(
                "\
volume 1 4 1 1 1 1
0 join -> joined 32
0 create 0 -> ok
0 size 0 2 -> ok
0 write 0 0 5 -> ok
0 create 1 -> ok
0 size 1 2 -> ok
0 write 1 0 5 -> ok
0 write 1 1 6 -> ok
0 create 2 -> ok
0 size 2 1 -> ok
0 write 2 0 6 -> ok
0 create 3 -> ok
0 size 3 1 -> ok
0 write 3 0 5 -> ok
0 scribble 16 5 0 -> ok

history 3 4 5 6 7 8 9 10 11 12 13 14 15
used 5 mapped 5
",
            ),
            Step::Job(Job {
                words: SETTLE,
                text: "",
                status: Status::Ok,
                written: "settled 5 2\nused 2 mapped 5\n",
            }),
            Step::Valid("used 2 mapped 5\n"),
            Step::Sim(
                "\
volume 1 4 1 1 1 1
0 join -> joined 176
0 read 0 0 -> = 5
0 read 0 1 -> = 0
0 read 1 0 -> = 5
0 read 1 1 -> = 6
0 read 2 0 -> = 6
0 read 3 0 -> = 5
0 read 3 1 -> beyond 1

history 3 4 5 6 7 8 9
used 2 mapped 5
",
            ),
        ],
    },
    Case {
        shows: "a volume on which a host died as it recovered another one",
        blocks: 1035,
        steps: &[
            Step::Sim(
                "\
volume 3 4 1 1 1 1
0 join -> joined 32
1 join -> joined 49
2 join -> joined 66
barrier
0 create 0 -> ok
0 size 0 1 -> ok
0 close 0 -> ok
0 die 6 -> ok
0 write 0 0 7 -> cut died
barrier
1 look 0 -> seen 1
1 look 0 -> seen 2
1 look 0 -> seen 3
1 die 5 -> ok
1 recover 0 -> cut died

history 6 7 10
used 1 mapped 1
",
            ),
            Step::Job(Job {
                words: SETTLE,
                text: "",
                status: Status::Ok,
                written: "settled 1 1\nused 1 mapped 1\n",
            }),
            Step::Valid("used 1 mapped 1\n"),
        ],
    },
    Case {
        shows: "a blank device is no volume that can be settled",
        blocks: 1029,
        steps: &[Step::Job(Job {
            words: SETTLE,
            text: "",
            status: Status::Volume,
            written: "volume block 0: blank\n",
        })],
    },
];

#[test]
fn settlings(rt: HostRuntime) -> Result<(), Fail> {
    play(&rt, rt.alloc(), &CASES)
}
