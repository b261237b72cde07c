// Requests that are served.
use crate::cases::{Case, Job, Step, play};
use crate::devices::Edit;
use jobs::Status;
use std::test::Fail;

static CASES: [Case; 2] = [
    // Of `volume 2 4 1 1 1 2` the tables of files stand in the blocks 11 to 14, that of the group in 15 and of the part in 16, and the requests of the
    // files in 22 to 25. The edit is what a merge leaves: slot 0 and index 1 of file 0 share the second data block, and file 0 is asked for
    // four of its indexes, file 1 for one.
    Case {
        shows: "each request of a held file raises one count, a busy lock ends the command, and no table is kept over what was shared",
        blocks: 1034,
        steps: &[
            Step::Sim(
                "\
volume 2 4 1 1 1 2
0 join -> joined 32
0 create 0 -> ok
0 size 0 4 -> ok
0 write 0 0 5 -> ok
0 write 0 1 5 -> ok
0 write 0 2 9 -> ok

history 3 4 5 6 7
used 3 mapped 3
",
            ),
            Step::Edit(Edit::Put(&[
                (11, 68, 0x8000_0002),
                (15, 68, 2),
                (16, 64, 2),
                (22, 0, 0x4445_4445),
                (22, 4, 0x5245_5153),
                (22, 8, 4),
                (22, 116, 1),
                (22, 148, 2),
                (22, 180, 3),
                (23, 0, 0x4445_4445),
                (23, 4, 0x5245_5153),
                (23, 8, 1),
            ])),
            Step::Valid("used 3 mapped 4\n"),
            Step::Sim(
                "\
volume 2 4 1 1 1 2
0 join -> joined 112
1 join -> joined 129
barrier
0 serve -> served 0 0 0 0
0 size 0 4 -> ok
barrier
1 create 1 -> ok
1 size 1 1 -> ok
barrier
0 serve -> busy 129
1 write 1 0 8 -> ok
barrier
0 serve -> served 1 1 1 1
0 serve -> served 0 0 0 0
0 read 0 0 -> = 5
0 write 0 0 7 -> ok
0 read 0 1 -> = 5
0 read 0 0 -> = 7

history 6 8 9 12 16 17 18 19
used 4 mapped 5
",
            ),
            Step::Holds(&[
                (22, 0, 0x4445_4445),
                (22, 4, 0x5245_5153),
                (22, 8, 0),
                (23, 8, 1),
            ]),
            Step::Valid("used 4 mapped 5\n"),
        ],
    },
    // The block 27 has the requests of file 0.
    Case {
        shows: "a request for a place past the file is gone, and its block empty",
        blocks: 3060,
        steps: &[
            Step::Sim(
                "\
volume 1 3 3 1 9 1 3
0 join -> joined 32
0 create 2 -> ok
0 size 2 2 -> ok
0 write 2 1 18446744073709551615 -> ok
0 write 2 0 1 -> ok
0 write 2 0 1 -> ok
0 log -> logged 3
0 close 2 -> ok

history 3 4 5 6 7
used 2 mapped 2
",
            ),
            Step::Job(Job {
                words: &["v", "settle"],
                text: "",
                status: Status::Ok,
                written: "settled 2 2\nused 2 mapped 2\n",
            }),
            Step::Sim(
                "\
volume 1 3 3 1 9 1 3
0 join -> joined 144
0 close 2 -> ok
0 serve -> served 0 0 0 0
0 log -> logged 0
0 scribble 26 2 5000 -> ok
0 log -> logged 0
barrier
0 scribble 3060 18446744073709551615 2016 -> refused
0 scribble 27 1 1009 -> ok
0 write 0 6 1 -> nofile
barrier
0 join -> up
0 write 0 2 2 -> nofile
0 serve -> served 0 0 0 1
0 write 0 4 1 -> nofile
0 create 0 -> ok
0 size 0 1 -> ok
0 join -> up
barrier
0 join -> up
0 write 0 4294967295 18446744073709551615 -> beyond 1
0 close 2 -> ok
0 log -> logged 0
0 read 0 3024 -> beyond 1

history 11 14 16 17 18 22 25
used 2 mapped 2
",
            ),
            Step::Holds(&[(27, 0, 0x4445_4445), (27, 4, 0x5245_5153), (27, 8, 0)]),
            Step::Valid("used 2 mapped 2\n"),
        ],
    },
];

#[test]
fn servings(rt: HostRuntime) -> Result<(), Fail> {
    play(&rt, rt.alloc(), &CASES)
}
