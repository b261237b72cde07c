// Hints that are merged, and what comes of them.
use crate::cases::{Case, Step, play};
use crate::devices::Edit;
use std::test::Fail;

// Two equal blocks of a file come to be one, whatever stood in the blocks of hints before.
const EQUAL_BLOCKS: &str = "\
volume 2 4 1 1 1 2
0 join -> joined 64
0 create 0 -> ok
0 size 0 3 -> ok
0 write 0 0 5 -> ok
0 write 0 1 5 -> ok
0 merge -> merged 0 0 0 0 0 0 0 0 0
0 log -> logged 2
0 merge -> merged 0 1 1 0 0 0 0 0 0
0 scan 0 0 -> scanned 2
0 log -> logged 2
0 merge -> merged 0 0 0 2 0 0 0 0 0
0 serve -> served 0 0 0 0
0 read 0 1 -> = 5

history 3 4 5 6 14
used 1 mapped 3
";

// Of `volume 2 4 1 1 1 2` the logs of host 0 stand in the blocks 17 and 18, those of host 1 in 19 and 20, the shard in 21, and the requests in 22
// to 25.
static CASES: [Case; 5] = [
    Case {
        shows: "a merge posts a request to a file that its host does not hold, and a serve links its block",
        blocks: 1034,
        steps: &[
            Step::Sim(
                "\
volume 2 4 1 1 1 2
0 join -> joined 32
1 join -> joined 49
barrier
0 create 0 -> ok
0 size 0 1 -> ok
0 write 0 0 5 -> ok
0 log -> logged 1
0 merge -> merged 0 1 0 0 0 0 0 0 0
0 create 1 -> ok
0 size 1 1 -> ok
0 write 1 0 5 -> ok
0 log -> logged 1
0 merge -> merged 0 0 1 0 0 0 0 0 0
barrier
1 create 2 -> ok
1 size 2 1 -> ok
1 write 2 0 5 -> ok
1 log -> logged 1
1 close 2 -> ok
1 merge -> merged 0 0 0 0 0 0 1 0 0
barrier
0 size 2 1 -> ok
0 serve -> served 1 0 0 0
0 read 2 0 -> = 5

history 5 6 7 10 11 12 16 17 18 23 25
used 1 mapped 4
",
            ),
            Step::Holds(&[(24, 0, 0x4445_4445), (24, 4, 0x5245_5153), (24, 8, 0)]),
            Step::Valid("used 1 mapped 4\n"),
        ],
    },
    Case {
        shows: "blocks of hints of 0xFF read as none",
        blocks: 1034,
        steps: &[
            Step::Sim("volume 2 4 1 1 1 2\n\nhistory\nused 0 mapped 0\n"),
            Step::Edit(Edit::Fill(17, 25, 255)),
            Step::Sim(EQUAL_BLOCKS),
            Step::Holds(&[
                (17, 0, 0x4445_4445),
                (17, 4, 0x4c4f_4753),
                (17, 8, 0),
                (21, 0, 0x4445_4445),
                (21, 4, 0x494e_4458),
                (21, 8, 1),
                (18, 8, 0xffff_ffff),
            ]),
            Step::Valid("used 1 mapped 3\n"),
        ],
    },
    // Behind the header of each stand random numbers; one log, the shard and one block of requests have the right magic and a count in range, and
    // entries that are all out of range.
    Case {
        shows: "blocks of hints of random bytes read as none",
        blocks: 1034,
        steps: &[
            Step::Sim("volume 2 4 1 1 1 2\n\nhistory\nused 0 mapped 0\n"),
            Step::Edit(Edit::Entries(17, 0x1f2e_3d4c, 0x002f_1b03)),
            Step::Edit(Edit::Entries(18, 0x0a1b_2c3d, 0x0031_4159)),
            Step::Edit(Edit::Entries(19, 0x2718_2818, 0x0027_1828)),
            Step::Edit(Edit::Entries(20, 0x4d2c_6dfc, 0x001f_83d9)),
            Step::Edit(Edit::Entries(21, 0x3c6e_f372, 0x002b_3e6c)),
            Step::Edit(Edit::Entries(22, 0x5be0_cd19, 0x0021_7e25)),
            Step::Edit(Edit::Entries(23, 0x1071_28fe, 0x0037_9b5d)),
            Step::Edit(Edit::Entries(24, 0x428a_2f98, 0x0013_7449)),
            Step::Edit(Edit::Entries(25, 0x3956_c25b, 0x0023_a5a7)),
            Step::Edit(Edit::Put(&[
                (17, 0, 0x9ab7_10e4),
                (18, 0, 0x4445_4445),
                (18, 4, 0x4c4f_4753),
                (18, 8, 3),
                (21, 0, 0x4445_4445),
                (21, 4, 0x494e_4458),
                (21, 8, 126),
                (22, 0, 0x4445_4445),
                (22, 4, 0x5245_5153),
                (22, 8, 77),
                (25, 4, 0x77c1_d20b),
            ])),
            Step::Sim(EQUAL_BLOCKS),
            Step::Holds(&[
                (17, 0, 0x4445_4445),
                (17, 4, 0x4c4f_4753),
                (17, 8, 0),
                (21, 0, 0x4445_4445),
                (21, 4, 0x494e_4458),
                (21, 8, 1),
                (18, 8, 3),
            ]),
            Step::Valid("used 1 mapped 3\n"),
        ],
    },
    Case {
        shows: "entries of blocks that changed, are gone, or are shared already, and hints that were scribbled",
        blocks: 1024,
        steps: &[
            Step::Sim(
                "\
volume 1 2 1 1 2 1
0 join -> joined 32
0 create 1 -> ok
0 size 1 4 -> ok
0 scan 0 3 -> scanned 0
0 scan 0 4 -> scanned 0
0 remove 1 -> ok
0 write 1 2 2 -> nofile
0 scan 0 1 -> scanned 0
0 scribble 12 0 0 -> ok
0 size 1 3 -> nofile
0 merge -> merged 0 0 0 0 0 0 0 0 0
0 create 1 -> ok
0 size 1 5 -> ok
0 write 0 1010 2 -> nofile
0 write 0 2 256 -> nofile
0 log -> logged 0
0 merge -> merged 0 0 0 0 0 0 0 0 0
0 scan 0 1 -> scanned 0
0 write 0 1007 2 -> nofile
0 create 0 -> ok
0 size 0 6 -> ok
0 write 0 1 256 -> ok
0 write 0 1 2 -> ok
0 log -> logged 2
0 merge -> merged 1 1 0 0 0 0 0 0 0
0 scan 0 2 -> scanned 0
0 merge -> merged 0 0 0 0 0 0 0 0 0
0 punch 0 1 -> ok
0 scan 0 3 -> scanned 0
0 log -> logged 0
0 merge -> merged 0 0 0 0 0 0 0 0 0
0 log -> logged 0
0 scan 0 2 -> scanned 0
0 log -> logged 0
0 read 0 1007 -> beyond 6
0 write 0 4 3 -> ok
0 collect 0 -> collected 0
0 write 0 1007 18446744073709551615 -> beyond 6
0 write 0 3 2 -> ok
0 create 0 -> exists
0 size 0 5 -> ok
0 write 0 0 3 -> ok
0 write 0 0 3 -> ok
0 log -> logged 4
0 merge -> merged 0 1 1 1 0 1 0 0 0
0 scan 1 0 -> scanned 0
0 write 1 3 18446744073709551615 -> ok
0 join -> up
0 close 1 -> ok
0 scan 1 5 -> scanned 0
0 scan 1 5 -> scanned 0
0 collect 0 -> collected 0
0 merge -> merged 0 0 0 0 0 0 0 0 0
0 collect 0 -> collected 0
0 collect 0 -> collected 0
0 write 1 3 2 -> ok
0 collect 0 -> collected 0
0 create 0 -> exists
0 serve -> served 0 0 0 0
0 create 0 -> exists
0 size 0 5 -> ok
0 write 0 1 256 -> ok
0 write 0 0 18446744073709551615 -> ok
0 write 0 1 1 -> ok
0 log -> logged 5
0 merge -> merged 2 2 1 0 0 0 0 0 0
0 scan 0 2 -> scanned 2
0 merge -> merged 0 0 0 0 0 0 0 0 0
0 size 1 1 -> ok
0 create 0 -> exists
0 size 0 5 -> ok
0 scribble 13 18446744073709551615 0 -> ok
0 log -> logged 2
0 serve -> served 0 0 0 0
0 log -> logged 0
0 write 0 1 2 -> ok
0 punch 1 5 -> beyond 1
0 scan 1 3 -> scanned 0
0 scan 0 1007 -> scanned 0
0 scan 0 0 -> scanned 4
0 log -> logged 0
0 serve -> served 0 0 0 0
0 punch 0 4 -> ok
0 close 0 -> ok
0 scan 1 4 -> scanned 0
0 scan 0 5 -> scanned 0
0 log -> logged 0
0 serve -> served 0 0 0 0
0 size 0 5 -> ok
0 scan 0 2 -> scanned 1
0 create 0 -> exists
0 size 0 6 -> ok
0 close 1 -> ok
0 log -> logged 0
0 merge -> merged 1 0 0 1 0 0 0 0 0
0 scan 0 0 -> scanned 3
0 collect 0 -> collected 1
0 collect 0 -> collected 0
0 log -> logged 9
0 scan 0 3 -> scanned 1
0 collect 0 -> collected 0
0 serve -> served 0 0 0 0
0 punch 1 127 -> beyond 1
0 scribble 18446744073709551615 1 1 -> refused
0 scan 1 1 -> scanned 0
0 collect 0 -> collected 0
0 merge -> merged 1 0 1 5 1 0 0 0 1
0 size 1 5 -> ok
0 serve -> served 0 0 0 0
0 log -> logged 1
0 write 0 3 2 -> ok
0 create 1 -> exists
0 size 1 3 -> ok
0 write 1 0 1 -> ok
0 write 1 0 3 -> ok
0 write 1 0 1 -> ok
0 log -> logged 0
0 merge -> merged 0 0 1 0 0 0 0 0 0

history 3 4 7 8 11 13 14 15 16 20 21 22 23 24 29 36 37 39 40 41 42 43 44 48 57 59 61 62 63 64 65 70 71 72 77 78 84 90 92 93 104 109 112 113 114 115 116 117
used 3 mapped 5
",
            ),
            Step::Sim(
                "\
volume 1 2 1 1 2 1
0 join -> joined 80
0 close 0 -> ok
0 write 0 1 2 -> ok
0 log -> logged 1
0 die 25 -> ok
0 size 1 2 -> ok
0 size 0 5 -> ok
0 join -> up
0 log -> logged 0

history 4 7 8
used 4 mapped 5
",
            ),
        ],
    },
    Case {
        shows: "a host dies behind a merge, of which the other ones lose nothing",
        blocks: 1036,
        steps: &[
            Step::Sim(
                "\
volume 3 4 1 1 2 1
0 join -> joined 32
1 join -> joined 49
2 join -> joined 66
barrier
0 create 0 -> ok
0 size 0 5 -> ok
0 write 0 0 3 -> ok
0 write 0 1 4 -> busy 49
0 size 0 2 -> ok
0 create 1 -> ok
0 size 1 4 -> ok
0 write 1 2 6 -> busy 49
1 create 2 -> ok
1 size 2 3 -> ok
1 write 2 1 8 -> busy 32
1 size 2 1 -> ok
0 write 0 0 6 -> ok
0 write 1 0 6 -> ok
0 log -> logged 3
0 merge -> merged 1 1 1 0 0 0 0 0 0
0 write 1 1 6 -> ok
0 log -> logged 1
0 merge -> merged 0 0 1 0 0 0 0 0 0
1 size 2 3 -> ok
1 write 2 0 6 -> ok
1 write 2 2 8 -> ok
1 log -> logged 2
barrier
0 die 13 -> ok
0 scan 1 1 -> scanned 1
0 log -> logged 1
0 merge -> merged 0 0 0 1 0 0 0 0 0
barrier
2 look 0 -> seen 1
2 look 0 -> seen 2
2 look 0 -> seen 3
2 recover 0 -> recovered
barrier
2 read 0 0 -> = 6
2 read 0 1 -> = 0
2 read 0 2 -> beyond 2
2 read 1 0 -> = 6
2 read 1 1 -> = 6
2 read 1 2 -> = 0
2 read 2 0 -> busy 49
2 read 2 1 -> busy 49
2 read 2 2 -> busy 49
2 close 0 -> ok
2 close 1 -> ok
2 close 2 -> ok

history 6 14 7 15 17 8 25 10 26 11 12 27 18 19 22 40 41 42 43 44 45
used 3 mapped 6
",
            ),
            Step::Valid("used 3 mapped 6\n"),
        ],
    },
];

#[test]
fn merges(rt: HostRuntime) -> Result<(), Fail> {
    play(&rt, rt.alloc(), &CASES)
}
