// Volumes that an earlier run has left: its hosts are live, hold locks and have records.
use crate::cases::{Case, EMPTY, FIRST_REPORT, Step, play};
use crate::devices::{Edit, Number};
use jobs::Status;
use std::test::Fail;

// Host 0 is live under the key 32, in block 1. It holds file 0, by block 5, and its record, in block 3, makes that file.
const STANDING: &[Number] = &[
    (1, 8, 1),
    (1, 20, 32),
    (3, 8, 1),
    (3, 20, 32),
    (3, 76, 1),
    (5, 8, 1),
    (5, 20, 32),
];

static CASES: [Case; 6] = [
    Case {
        shows: "the same host joins over its older key, and a file that is there is not made again",
        blocks: 1035,
        steps: &[
            Step::First(Status::Ok, FIRST_REPORT),
            Step::Sim(
                "\
volume 2 4 1 1 4 1
0 join -> joined 80
0 create 0 -> exists
0 size 0 2 -> ok
0 write 0 0 7 -> ok
0 read 0 0 -> = 7

history 3 4 5 6
used 1 mapped 1
",
            ),
        ],
    },
    Case {
        shows: "a record that stands makes its file, which another host finds once it has recovered the first",
        blocks: 1032,
        steps: &[
            Step::Sim(EMPTY),
            Step::Edit(Edit::Put(STANDING)),
            Step::Valid("used 0 mapped 0\n"),
            Step::Holds(&[(11, 12, 0)]),
            Step::Sim(
                "\
volume 2 4 1 1 1 1
1 join -> joined 97
1 read 0 0 -> busy 32
1 look 0 -> seen 1
1 look 0 -> seen 2
1 look 0 -> seen 3
1 recover 0 -> recovered
1 read 0 0 -> beyond 0

history 8
used 0 mapped 0
",
            ),
            Step::Holds(&[(11, 12, 1)]),
        ],
    },
    Case {
        shows: "the host of a record that stands finds its file when it joins again",
        blocks: 1032,
        steps: &[
            Step::Sim(EMPTY),
            Step::Edit(Edit::Put(STANDING)),
            Step::Sim(
                "\
volume 2 4 1 1 1 1
0 join -> joined 64
0 read 0 0 -> beyond 0

history 3
used 0 mapped 0
",
            ),
        ],
    },
    Case {
        shows: "a host whose recoverer died joins once its slot is free",
        blocks: 1035,
        steps: &[
            Step::Sim(
                "\
volume 3 4 1 1 1 1
0 join -> joined 32
1 join -> joined 49
2 join -> joined 66
barrier
0 create 0 -> ok
0 size 0 1 -> ok
0 close 0 -> ok
0 die 6 -> ok
0 write 0 0 7 -> cut died
barrier
1 look 0 -> seen 1
1 look 0 -> seen 2
1 look 0 -> seen 3
1 die 5 -> ok
1 recover 0 -> cut died

history 6 7 10
used 1 mapped 1
",
            ),
            Step::Sim(
                "\
volume 3 4 1 1 1 1
0 join -> busy 49
barrier
1 join -> joined 129
1 look 0 -> seen 1
1 look 0 -> seen 2
1 look 0 -> seen 3
1 recover 0 -> recovered
barrier
0 join -> joined 144
0 read 0 0 -> = 7

history 11
used 1 mapped 1
",
            ),
            Step::Valid("used 1 mapped 1\n"),
        ],
    },
    Case {
        shows: "a write through a mark takes a block of its own, and the slot keeps the old one",
        blocks: 1035,
        steps: &[
            Step::Sim("volume 2 4 1 1 4 1\n\nhistory\nused 0 mapped 0\n"),
            // File 0 has one block, which it shares with slot 0 of the arena.
            Step::Edit(Edit::Put(&[(11, 12, 2), (11, 64, 0x8000_0001), (15, 64, 2), (16, 64, 1)])),
            Step::Sim(
                "\
volume 2 4 1 1 4 1
0 join -> joined 64
0 read 0 0 -> = 0
0 write 0 0 9 -> ok
0 read 0 0 -> = 9

history 3 4 5
used 2 mapped 2
",
            ),
            Step::Holds(&[
                (11, 64, 2),
                (15, 64, 1),
                (15, 68, 1),
                (16, 64, 1),
                (27, 4, 0),
                (28, 4, 9),
            ]),
            Step::Valid("used 2 mapped 2\n"),
        ],
    },
    Case {
        shows: "what stands in logs, index and requests is in the way of no file",
        blocks: 1032,
        steps: &[
            Step::Sim(EMPTY),
            Step::Edit(Edit::Fill(17, 23, 255)),
            Step::Edit(Edit::Count(0)),
            Step::Sim(
                "\
volume 2 4 1 1 1 1
0 join -> joined 32
0 create 0 -> ok
0 size 0 1 -> ok
0 write 0 0 5 -> ok
0 create 1 -> ok
0 size 1 1 -> ok
0 write 1 0 5 -> ok

history 3 4 5 6 7 8
used 2 mapped 2
",
            ),
            Step::Holds(&[(17, 0, 0xffff_ffff), (23, 4092, 0xffff_ffff)]),
        ],
    },
];

#[test]
fn volumes_of_earlier_runs(rt: HostRuntime) -> Result<(), Fail> {
    play(&rt, rt.alloc(), &CASES)
}
