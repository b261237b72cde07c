// Volumes with faults, and volumes that are not those of the workload.
use crate::cases::{Case, EMPTY, FIRST_REPORT, Job, SIM, Step, play};
use crate::devices::{Edit, Number};
use jobs::Status;
use std::test::Fail;

const FIRST: Step = Step::First(Status::Ok, FIRST_REPORT);

// Host 0 is live under the key 32, in block 1, and its record in block 3 makes file 0, which it does not hold.
const UNLOCKED: &[Number] = &[(1, 8, 1), (1, 20, 32), (3, 8, 1), (3, 20, 32), (3, 76, 1)];

static CASES: [Case; 8] = [
    Case {
        shows: "a count that is not the number of its pointers",
        blocks: 1035,
        steps: &[
            FIRST,
            Step::Edit(Edit::Put(&[(15, 64, 2)])),
            Step::Faulty("volume block 15: count 0 found 2 counted 1\n"),
        ],
    },
    Case {
        shows: "a record whose file is not held, in the check and before a run",
        blocks: 1032,
        steps: &[
            Step::Sim(EMPTY),
            Step::Edit(Edit::Put(UNLOCKED)),
            Step::Faulty("volume block 3: journal edit 0\n"),
            Step::Job(Job {
                words: SIM,
                text: "volume 2 4 1 1 1 1\n0 join\n",
                status: Status::Volume,
                written: "volume block 3: journal edit 0\n",
            }),
        ],
    },
    Case {
        shows: "a table that is all zeros",
        blocks: 1035,
        steps: &[
            FIRST,
            Step::Edit(Edit::Fill(11, 11, 0)),
            Step::Faulty("volume block 11: spelling\n"),
        ],
    },
    Case {
        shows: "a device that lost its last block",
        blocks: 1035,
        steps: &[
            FIRST,
            Step::Edit(Edit::Cut(1034)),
            Step::Faulty("volume block 0: size 1035 1034\n"),
            Step::First(Status::Geometry, "geometry 1035 1034\n"),
        ],
    },
    Case {
        shows: "a blank device, which is checked and is too small for a run",
        blocks: 1034,
        steps: &[
            Step::Faulty("volume block 0: blank\n"),
            Step::First(Status::Geometry, "geometry 1035 1034\n"),
        ],
    },
    Case {
        shows: "a superblock that is gone",
        blocks: 1032,
        steps: &[
            Step::Sim(EMPTY),
            Step::Edit(Edit::Fill(0, 0, 0)),
            Step::Faulty("volume block 0: blank\n"),
        ],
    },
    Case {
        shows: "a volume of one shard, where the workload has four",
        blocks: 1032,
        steps: &[
            Step::Sim(EMPTY),
            Step::First(Status::Geometry, "geometry 4 1\n"),
        ],
    },
    Case {
        shows: "a volume of two table blocks a file, where the workload has one",
        blocks: 2031,
        steps: &[
            Step::Sim("volume 1 1 2 1 1 1 2\n\nhistory\nused 0 mapped 0\n"),
            Step::Job(Job {
                words: SIM,
                text: "volume 1 1 2 1 1 1\n",
                status: Status::Geometry,
                written: "geometry 1 2\n",
            }),
        ],
    },
];

#[test]
fn damaged_and_other_volumes(rt: HostRuntime) -> Result<(), Fail> {
    play(&rt, rt.alloc(), &CASES)
}
