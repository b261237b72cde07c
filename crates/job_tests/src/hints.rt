// Hints that are written, logged and scanned for, over blocks of hints with any content.
use crate::cases::{Case, Step, play};
use crate::devices::Edit;
use std::test::Fail;

// Of `volume 2 4 1 1 1 2` the logs of host 0 stand in the blocks 17 and 18, those of host 1 in 19 and 20, the shard in 21, and the requests in 22
// to 25.
static CASES: [Case; 4] = [
    Case {
        shows: "logs of 0xFF read as none; a host that leaves has no hint pending, and one that was logged is pending no more",
        blocks: 1034,
        steps: &[
            Step::Sim("volume 2 4 1 1 1 2\n\nhistory\nused 0 mapped 0\n"),
            Step::Edit(Edit::Fill(17, 25, 255)),
            Step::Sim(
                "\
volume 2 4 1 1 1 2
0 join -> joined 64
0 create 0 -> ok
0 size 0 3 -> ok
0 write 0 0 5 -> ok
0 write 0 2 6 -> ok
0 scan 0 0 -> scanned 2
0 log -> logged 4
0 log -> logged 0
0 scan 0 1 -> scanned 1
0 leave -> ok
0 join -> joined 80
0 log -> logged 0
0 scan 0 2 -> scanned 1
0 log -> logged 1
0 scan 0 0 -> scanned 2
0 log -> logged 0

history 3 4 5 6
used 2 mapped 2
",
            ),
            // What was logged stands in both logs, with its number of entries; the other blocks of hints are as they were.
            Step::Holds(&[
                (17, 0, 0x4445_4445),
                (17, 4, 0x4c4f_4753),
                (17, 8, 4),
                (18, 8, 1),
                (19, 8, 0xffff_ffff),
                (21, 8, 0xffff_ffff),
                (25, 8, 0xffff_ffff),
            ]),
            Step::Valid("used 2 mapped 2\n"),
        ],
    },
    Case {
        shows: "a log of more entries than a block has reads as none, and one of a single entry is full",
        blocks: 1034,
        steps: &[
            Step::Sim("volume 2 4 1 1 1 2\n\nhistory\nused 0 mapped 0\n"),
            Step::Edit(Edit::Put(&[
                (17, 0, 0x4445_4445),
                (17, 4, 0x4c4f_4753),
                (17, 8, 1),
                (18, 0, 0x4445_4445),
                (18, 4, 0x4c4f_4753),
                (18, 8, 127),
            ])),
            Step::Sim(
                "\
volume 2 4 1 1 1 2
0 join -> joined 64
0 create 0 -> ok
0 size 0 1 -> ok
0 write 0 0 9 -> ok
0 log -> logged 1
0 scribble 17 5 1 -> ok
0 scribble 21 5 1 -> ok
0 scribble 25 5 1 -> ok
0 scribble 16 5 1 -> refused
0 scribble 26 5 1 -> refused
0 scan 1 0 -> scanned 0

history 3 4 5
used 1 mapped 1
",
            ),
            Step::Holds(&[(18, 8, 1), (17, 8, 1), (21, 8, 1), (25, 8, 1)]),
            Step::Valid("used 1 mapped 1\n"),
        ],
    },
    Case {
        shows: "a host that writes a block of hints, among recoveries",
        blocks: 2046,
        steps: &[
            Step::Sim(
                "\
volume 3 3 2 1 2 2
1 join -> joined 49
0 join -> joined 32
2 join -> joined 66
2 die 3 -> ok
barrier
0 join -> up
0 look 2 -> seen 1
1 write 0 4 2 -> nofile
2 join -> up
1 look 0 -> seen 1
barrier
2 write 0 1 3 -> busy 49
0 look 2 -> seen 2
0 look 2 -> seen 3
2 recover 1 -> alive 0
0 look 2 -> seen 4
0 recover 2 -> recovered
barrier
0 join -> up
1 look 0 -> seen 2
0 beat -> ok
1 look 0 -> seen 1
2 join -> up
1 look 0 -> seen 2
1 recover 0 -> alive 2

history 9
used 0 mapped 0
",
            ),
            Step::Sim(
                "\
volume 3 3 2 1 2 2
1 join -> joined 129
0 join -> joined 112
0 read 2 5 -> nofile
barrier
1 close 2 -> ok
1 scribble 24 1 2016 -> ok
0 join -> up
2 join -> joined 146
0 write 2 5 3 -> nofile
2 look 0 -> seen 1
2 look 0 -> seen 2
2 look 0 -> seen 3
2 recover 0 -> recovered

history 4 10
used 0 mapped 0
",
            ),
        ],
    },
    Case {
        shows: "a host that dies between two blocks of hints",
        blocks: 1037,
        steps: &[
            Step::Sim(
                "\
volume 1 4 1 2 1 3 2
0 join -> joined 32
0 scribble 21 3 1 -> ok
0 create 0 -> ok
0 beat -> ok
0 size 0 4 -> ok
0 create 0 -> exists
0 size 0 0 -> ok
0 join -> up
0 die 2 -> ok
0 join -> up
0 size 3 2016 -> cut died
0 scribble 21 18446744073709551615 1 -> down
0 size 0 1007 -> down
0 join -> joined 48
0 create 1 -> ok
0 size 1 4 -> ok
0 create 1 -> exists
0 create 3 -> ok
0 size 3 4 -> ok
0 remove 0 -> ok

history 4 6 7 8 12 16 17 18 19 20 21
used 0 mapped 0
",
            ),
            Step::Valid("used 0 mapped 0\n"),
        ],
    },
];

#[test]
fn hints(rt: HostRuntime) -> Result<(), Fail> {
    play(&rt, rt.alloc(), &CASES)
}
