// A part of the arena whose slots all name data blocks that nothing else names.
use crate::cases::{Case, EMPTY, Step, play};
use crate::devices::Edit;
use std::test::Fail;

static CASES: [Case; 1] = [Case {
    shows: "a full part is emptied, and a second collection finds nothing",
    blocks: 1032,
    steps: &[
        Step::Sim(EMPTY),
        // Slot n names the data block n, and each count is 1.
        Step::Edit(Edit::Entries(16, 1, 1)),
        Step::Edit(Edit::Entries(15, 1, 0)),
        Step::Valid("used 1008 mapped 1008\n"),
        Step::Sim(
            "\
volume 2 4 1 1 1 1
0 join -> joined 96
0 collect 0 -> collected 1008
0 collect 0 -> collected 0

history
used 0 mapped 0
",
        ),
        Step::Valid("used 0 mapped 0\n"),
    ],
}];

#[test]
fn full_parts(rt: HostRuntime) -> Result<(), Fail> {
    play(&rt, rt.alloc(), &CASES)
}
