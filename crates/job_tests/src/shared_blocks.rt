// Blocks that a merge finds equal, what the index has of them, and how they part again.
use crate::cases::{Case, Step, play};
use crate::devices::Edit;
use std::test::Fail;

// Two equal blocks become one, which the arena holds.
const PROMOTED: &str = "\
volume 2 4 1 1 1 1
0 join -> joined 32
0 create 0 -> ok
0 size 0 1 -> ok
0 write 0 0 5 -> ok
0 create 1 -> ok
0 size 1 1 -> ok
0 write 1 0 5 -> ok
0 log -> logged 2
0 merge -> merged 0 1 1 0 0 0 0 0 0
0 read 0 0 -> = 5
0 read 1 0 -> = 5

history 3 4 5 6 7 8 11 12
used 1 mapped 3
";

// Of `volume 2 4 1 1 1 1` the group's table stands in block 15, the logs in 17 and 18, the shard in 19, and the requests in 20 to 23; with four shards they
// stand in 19 to 22.
static CASES: [Case; 8] = [
    Case {
        shows: "two equal blocks become one",
        blocks: 1032,
        steps: &[Step::Sim(PROMOTED), Step::Valid("used 1 mapped 3\n")],
    },
    Case {
        shows: "a write through the mark of a shared block takes another one",
        blocks: 1032,
        steps: &[
            Step::Sim(
                "\
volume 2 4 1 1 1 1
0 join -> joined 32
0 create 0 -> ok
0 size 0 1 -> ok
0 write 0 0 5 -> ok
0 create 1 -> ok
0 size 1 1 -> ok
0 write 1 0 5 -> ok
0 log -> logged 2
0 merge -> merged 0 1 1 0 0 0 0 0 0
0 read 0 0 -> = 5
0 read 1 0 -> = 5
0 write 0 0 6 -> ok
0 read 1 0 -> = 5

history 3 4 5 6 7 8 11 12 13 14
used 2 mapped 3
",
            ),
            Step::Holds(&[(15, 68, 2)]),
        ],
    },
    Case {
        shows: "a slot that nothing shares is collected, and its block taken again",
        blocks: 1032,
        steps: &[Step::Sim(
            "\
volume 2 4 1 1 1 1
0 join -> joined 32
0 create 0 -> ok
0 size 0 1 -> ok
0 write 0 0 5 -> ok
0 create 1 -> ok
0 size 1 1 -> ok
0 write 1 0 5 -> ok
0 log -> logged 2
0 merge -> merged 0 1 1 0 0 0 0 0 0
0 read 0 0 -> = 5
0 read 1 0 -> = 5
0 write 0 0 6 -> ok
0 read 1 0 -> = 5
0 write 1 0 8 -> ok
0 collect 0 -> collected 1
0 size 0 2 -> ok
0 write 0 1 9 -> ok

history 3 4 5 6 7 8 11 12 13 14 15 17 18
used 3 mapped 3
",
        )],
    },
    Case {
        shows: "an entry of a block that was written anew is stale",
        blocks: 1032,
        steps: &[Step::Sim(
            "\
volume 2 4 1 1 1 1
0 join -> joined 32
0 create 0 -> ok
0 size 0 1 -> ok
0 write 0 0 5 -> ok
0 log -> logged 1
0 write 0 0 6 -> ok
0 merge -> merged 1 0 0 0 0 0 0 0 0

history 3 4 5 7
used 1 mapped 1
",
        )],
    },
    Case {
        shows: "an entry of the shard with a digest that is not its block's links nothing",
        blocks: 1032,
        steps: &[Step::Sim(
            "\
volume 2 4 1 1 1 1
0 join -> joined 32
0 create 0 -> ok
0 size 0 3 -> ok
0 write 0 0 6 -> ok
0 write 0 1 6 -> ok
0 log -> logged 2
0 merge -> merged 0 1 1 0 0 0 0 0 0
0 write 0 2 5 -> ok
0 scribble 19 5 0 -> ok
0 log -> logged 1
0 merge -> merged 0 0 0 0 1 0 0 0 0
0 read 0 2 -> = 5
0 read 0 0 -> = 6

history 3 4 5 6 9 13 14
used 2 mapped 4
",
        )],
    },
    Case {
        shows: "a request for the file's holder",
        blocks: 1032,
        steps: &[Step::Sim(
            "\
volume 2 4 1 1 1 1
0 join -> joined 32
1 join -> joined 49
barrier
0 create 0 -> ok
0 size 0 1 -> ok
0 write 0 0 5 -> ok
0 log -> logged 1
0 merge -> merged 0 1 0 0 0 0 0 0 0
barrier
1 create 1 -> ok
1 size 1 1 -> ok
1 write 1 0 5 -> ok
1 log -> logged 1
1 merge -> merged 0 0 0 0 0 0 1 0 0
barrier
0 serve -> served 1 0 0 0
0 serve -> served 0 0 0 0
0 scan 0 0 -> scanned 1
0 log -> logged 1
0 merge -> merged 0 0 0 1 0 0 0 0 0
0 read 0 0 -> = 5

history 5 6 7 11 12 13 22
used 1 mapped 3
",
        )],
    },
    Case {
        shows: "a shelf of four shards has the entry in its first block, and the others stay as they are",
        blocks: 1035,
        steps: &[
            Step::Sim(
                "\
volume 2 4 1 1 4 1
0 join -> joined 32
0 create 0 -> ok
0 size 0 1 -> ok
0 write 0 0 5 -> ok
0 create 1 -> ok
0 size 1 1 -> ok
0 write 1 0 5 -> ok
0 log -> logged 2
0 merge -> merged 0 1 1 0 0 0 0 0 0
0 read 0 0 -> = 5
0 read 1 0 -> = 5

history 3 4 5 6 7 8 11 12
used 1 mapped 3
",
            ),
            Step::Holds(&[
                (19, 0, 0x4445_4445),
                (19, 4, 0x494e_4458),
                (19, 8, 1),
                (19, 84, 1),
                (19, 88, 0),
                (20, 0, 0),
                (21, 0, 0),
                (22, 0, 0),
            ]),
        ],
    },
    Case {
        shows: "a log block whose count is too great reads as none",
        blocks: 1032,
        steps: &[
            Step::Sim(
                "\
volume 2 4 1 1 1 1
0 join -> joined 32
0 create 0 -> ok
0 size 0 1 -> ok
0 write 0 0 5 -> ok
0 create 1 -> ok
0 size 1 1 -> ok
0 write 1 0 5 -> ok
0 log -> logged 2

history 3 4 5 6 7 8
used 2 mapped 2
",
            ),
            Step::Edit(Edit::Put(&[(17, 8, 127)])),
            Step::Sim(
                "\
volume 2 4 1 1 1 1
0 join -> joined 80
0 merge -> merged 0 0 0 0 0 0 0 0 0

history
used 2 mapped 2
",
            ),
        ],
    },
];

#[test]
fn equal_blocks_are_shared(rt: HostRuntime) -> Result<(), Fail> {
    play(&rt, rt.alloc(), &CASES)
}
