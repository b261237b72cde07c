// Workloads of one host on a blank device.
use crate::cases::{Case, Step, play};
use std::test::Fail;

static CASES: [Case; 8] = [
    Case {
        shows: "a block that was written is read",
        blocks: 1035,
        steps: &[
            Step::Sim(
                "\
volume 2 4 1 1 4 1
0 join -> joined 32
0 create 0 -> ok
0 size 0 2 -> ok
0 write 0 0 7 -> ok
0 read 0 0 -> = 7

history 3 4 5 6
used 1 mapped 1
",
            ),
            Step::Valid("used 1 mapped 1\n"),
        ],
    },
    Case {
        shows: "a hole reads as zeros and has no data block",
        blocks: 1035,
        steps: &[Step::Sim(
            "\
volume 2 4 1 1 4 1
0 join -> joined 32
0 create 0 -> ok
0 size 0 2 -> ok
0 write 0 0 7 -> ok
0 read 0 0 -> = 7
0 read 0 1 -> = 0

history 3 4 5 6 7
used 1 mapped 1
",
        )],
    },
    Case {
        shows: "a volume line alone makes an empty volume",
        blocks: 1035,
        steps: &[
            Step::Sim(
                "\
volume 2 4 1 1 4 1

history
used 0 mapped 0
",
            ),
            Step::Valid("used 0 mapped 0\n"),
        ],
    },
    Case {
        shows: "an index and a length past the end are told",
        blocks: 1035,
        steps: &[Step::Sim(
            "\
volume 2 4 1 1 4 1
0 join -> joined 32
0 create 0 -> ok
0 size 0 2 -> ok
0 write 0 0 7 -> ok
0 read 0 0 -> = 7
0 read 0 2 -> beyond 2
0 size 0 1008 -> ok
0 size 0 1009 -> toolong

history 3 4 5 6 7 8 9
used 1 mapped 1
",
        )],
    },
    Case {
        shows: "what a file has past its end is still used",
        blocks: 1020,
        steps: &[
            Step::Sim(
                "\
volume 1 1 1 1 1 1
0 join -> joined 32
0 create 0 -> ok
0 size 0 3 -> ok
0 write 0 1 4 -> ok
0 write 0 2 4 -> ok
0 size 0 1 -> ok

history 3 4 5 6 7
used 2 mapped 2
",
            ),
            Step::Valid("used 2 mapped 2\n"),
        ],
    },
    Case {
        shows: "a file that grows again shows zeros there, and uses nothing",
        blocks: 1020,
        steps: &[
            Step::Sim(
                "\
volume 1 1 1 1 1 1
0 join -> joined 32
0 create 0 -> ok
0 size 0 3 -> ok
0 write 0 1 4 -> ok
0 write 0 2 4 -> ok
0 size 0 1 -> ok
0 size 0 3 -> ok
0 read 0 1 -> = 0
0 read 0 2 -> = 0

history 3 4 5 6 7 8 9 10
used 0 mapped 0
",
            ),
            Step::Valid("used 0 mapped 0\n"),
        ],
    },
    Case {
        shows: "a host joins once, and makes a file once, and a slot that nobody has is free",
        blocks: 1032,
        steps: &[Step::Sim(
            "\
volume 2 4 1 1 1 1
0 read 0 0 -> down
0 join -> joined 32
0 join -> up
0 read 0 0 -> nofile
0 create 0 -> ok
0 create 0 -> exists
0 look 1 -> free
0 recover 1 -> alive 0
0 remove 0 -> ok
0 leave -> ok
0 read 0 0 -> down

history 5 6 7 10
used 0 mapped 0
",
        )],
    },
    Case {
        shows: "a file of two table blocks is written past the first",
        blocks: 2031,
        steps: &[
            Step::Sim(
                "\
volume 1 1 2 1 1 1 2
0 join -> joined 32
0 create 0 -> ok
0 size 0 2016 -> ok
0 write 0 1008 7 -> ok
0 read 0 1008 -> = 7
0 size 0 2017 -> toolong

history 3 4 5 6 7
used 1 mapped 1
",
            ),
            Step::Valid("used 1 mapped 1\n"),
        ],
    },
];

#[test]
fn one_host_runs(rt: HostRuntime) -> Result<(), Fail> {
    play(&rt, rt.alloc(), &CASES)
}
