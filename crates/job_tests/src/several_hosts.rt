// Workloads of several hosts on a blank device.
use crate::cases::{Case, Job, Step, play};
use jobs::Status;
use std::test::Fail;

static CASES: [Case; 11] = [
    Case {
        shows: "a file that another host writes is busy until it is closed",
        blocks: 1035,
        steps: &[Step::Sim(
            "\
volume 2 4 1 1 4 1
0 join -> joined 32
1 join -> joined 49
barrier
0 create 0 -> ok
0 size 0 1 -> ok
0 write 0 0 7 -> ok
barrier
1 read 0 0 -> busy 32
barrier
0 close 0 -> ok
barrier
1 read 0 0 -> = 7

history 5 6 7 13
used 1 mapped 1
",
        )],
    },
    Case {
        shows: "of two hosts that want the one group the second finds it busy",
        blocks: 1026,
        steps: &[
            Step::Sim(
                "\
volume 2 2 1 1 1 1
0 join -> joined 32
1 join -> joined 49
0 create 0 -> ok
0 size 0 1 -> ok
1 create 1 -> ok
1 size 1 1 -> ok
barrier
0 write 0 0 1 -> ok
1 write 1 0 2 -> busy 32
barrier
1 write 1 0 2 -> ok

history 4 6 5 7 9 12
used 2 mapped 2
",
            ),
            Step::Valid("used 2 mapped 2\n"),
        ],
    },
    Case {
        shows: "the rounds of a phase begin at host 0, also where the phase before ended in a round",
        blocks: 1026,
        steps: &[Step::Sim(
            "\
volume 2 2 1 1 1 1
0 join -> joined 32
1 join -> joined 49
barrier
0 beat -> ok
barrier
0 create 0 -> ok
1 create 0 -> busy 32

history 7
used 0 mapped 0
",
        )],
    },
    Case {
        shows: "the words of a schedule let host 1 come first; those of an idle host and of none do nothing, and the last line feed may be missing",
        blocks: 1026,
        steps: &[Step::Job(Job {
            words: &["v", "sim", "1", "15", "1", "1", "0", "0", "1", "0", "1"],
            text: "\
volume 2 2 1 1 1 1
0 join
1 join
barrier
0 beat
barrier
0 create 0
1 create 0",
            status: Status::Ok,
            written: "\
2 joined 48
3 joined 33
5 ok
7 busy 33
8 ok
history 8
used 0 mapped 0
",
        })],
    },
    Case {
        shows: "a host that is seen twice is not recovered, and a beat begins the looks anew",
        blocks: 1032,
        steps: &[Step::Sim(
            "\
volume 2 4 1 1 1 1
0 join -> joined 32
1 join -> joined 49
barrier
1 look 0 -> seen 1
1 look 0 -> seen 2
1 recover 0 -> alive 2
barrier
0 beat -> ok
barrier
1 look 0 -> seen 1

history
used 0 mapped 0
",
        )],
    },
    Case {
        shows: "a slow host that was recovered is fenced, is down, and joins again",
        blocks: 1032,
        steps: &[Step::Sim(
            "\
volume 2 4 1 1 1 1
0 join -> joined 32
1 join -> joined 49
barrier
0 create 0 -> ok
barrier
1 look 0 -> seen 1
1 look 0 -> seen 2
1 look 0 -> seen 3
1 recover 0 -> recovered
barrier
0 read 0 0 -> cut fenced
0 read 0 0 -> down
0 join -> joined 64
0 read 0 0 -> beyond 0

history 5 15
used 0 mapped 0
",
        )],
    },
    Case {
        shows: "a fenced host does not answer from a table that it has kept",
        blocks: 1032,
        steps: &[Step::Sim(
            "\
volume 2 4 1 1 1 1
0 join -> joined 32
1 join -> joined 49
barrier
0 create 0 -> ok
0 size 0 1 -> ok
barrier
1 look 0 -> seen 1
1 look 0 -> seen 2
1 look 0 -> seen 3
1 recover 0 -> recovered
1 write 0 0 9 -> ok
barrier
0 read 0 0 -> cut fenced

history 5 6 12
used 1 mapped 1
",
        )],
    },
    Case {
        shows: "two hosts read a file, and one writes it once the other has closed it",
        blocks: 1035,
        steps: &[Step::Sim(
            "\
volume 3 4 1 1 1 1
0 join -> joined 32
1 join -> joined 49
2 join -> joined 66
barrier
0 create 0 -> ok
0 size 0 1 -> ok
0 write 0 0 7 -> ok
0 close 0 -> ok
barrier
1 read 0 0 -> = 7
barrier
2 read 0 0 -> = 7
2 write 0 0 8 -> busy 49
barrier
1 close 0 -> ok
barrier
2 write 0 0 8 -> ok
2 read 0 0 -> = 8

history 6 7 8 11 13 18 19
used 1 mapped 1
",
        )],
    },
    Case {
        shows: "a dead reader is in the way of a writer until it is recovered",
        blocks: 1035,
        steps: &[
            Step::Sim(
                "\
volume 3 4 1 1 1 1
0 join -> joined 32
1 join -> joined 49
2 join -> joined 66
barrier
0 create 0 -> ok
0 size 0 1 -> ok
0 write 0 0 7 -> ok
0 close 0 -> ok
barrier
1 read 0 0 -> = 7
barrier
2 read 0 0 -> = 7
2 write 0 0 8 -> busy 49
barrier
1 die 0 -> ok
barrier
2 write 0 0 8 -> busy 49
2 look 1 -> seen 1
2 look 1 -> seen 2
2 look 1 -> seen 3
2 recover 1 -> recovered
2 write 0 0 8 -> ok

history 6 7 8 11 13 23
used 1 mapped 1
",
            ),
            Step::Valid("used 1 mapped 1\n"),
        ],
    },
    Case {
        shows: "a host dies between its record and its tables, and the one that recovers it reads on (examples/two_hosts)",
        blocks: 1035,
        steps: &[
            Step::Sim(
                "\
volume 2 4 1 1 4 1
0 join -> joined 32
1 join -> joined 49
barrier
0 create 0 -> ok
0 size 0 2 -> ok
0 write 0 0 7 -> ok
0 die 4 -> ok
0 write 0 1 8 -> cut died
barrier
1 read 0 0 -> busy 32
1 look 0 -> seen 1
1 look 0 -> seen 2
1 look 0 -> seen 3
1 recover 0 -> recovered
1 read 0 0 -> = 7
1 read 0 1 -> = 8
barrier
0 read 0 1 -> down
0 join -> joined 64
0 read 0 1 -> = 8

history 5 6 7 9 16 17 21
used 2 mapped 2
",
            ),
            Step::Valid("used 2 mapped 2\n"),
        ],
    },
    Case {
        shows: "a write that the device cut behind its record stands when its host has joined again",
        blocks: 1032,
        steps: &[
            // The opening makes 20 calls, the join 2, the making of the file 5 and its growing 3; of the write the lock of the group, its
            // table, the data block and the record are made, and the first table fails.
            Step::Fail(35),
            Step::Sim(
                "\
volume 2 4 1 1 1 1
0 join -> joined 32
0 create 0 -> ok
0 size 0 1 -> ok
0 write 0 0 7 -> cut fault
0 join -> joined 48
0 read 0 0 -> = 7

history 3 4 5 7
used 1 mapped 1
",
            ),
            Step::Valid("used 1 mapped 1\n"),
        ],
    },
];

#[test]
fn several_hosts_run(rt: HostRuntime) -> Result<(), Fail> {
    play(&rt, rt.alloc(), &CASES)
}
