// Devices that fail outside a command, and devices that give no more keys.
use crate::cases::{CHECK, Case, EMPTY, Job, Step, play};
use crate::devices::{Edit, LAST};
use jobs::Status;
use std::test::Fail;

const KEYS: &str = "volume keys 576460752303423487\n";

const DISK_FAULT: Job = Job {
    words: CHECK,
    text: "",
    status: Status::DiskFault,
    written: "disk fault\n",
};

static CASES: [Case; 10] = [
    Case {
        shows: "the first call fails",
        blocks: 1035,
        steps: &[
            Step::Fail(1),
            Step::First(Status::DiskFault, "disk fault\n"),
        ],
    },
    Case {
        shows: "the first write of the formatting fails, and the device is formatted by the next run",
        blocks: 1035,
        steps: &[
            Step::Fail(3),
            Step::First(Status::DiskFault, "disk fault\n"),
            Step::First(
                Status::Ok,
                "2 joined 48\n3 ok\n4 ok\n5 ok\n6 = 7\nhistory 3 4 5 6\nused 1 mapped 1\n",
            ),
        ],
    },
    Case {
        shows: "the last call of the commands fails, behind 20 of the opening, and 2, 5, 3 and 8 of other commands",
        blocks: 1035,
        steps: &[
            Step::Fail(39),
            Step::First(
                Status::Ok,
                "2 joined 32\n3 ok\n4 ok\n5 ok\n6 cut fault\nhistory 3 4 5\nused 1 mapped 1\n",
            ),
        ],
    },
    Case {
        shows: "the call behind it fails, which is the first of the survey",
        blocks: 1035,
        steps: &[
            Step::Fail(40),
            Step::First(
                Status::DiskFault,
                "2 joined 32\n3 ok\n4 ok\n5 ok\n6 = 7\nhistory 3 4 5 6\ndisk fault\n",
            ),
        ],
    },
    Case {
        shows: "the first call of a check fails, and the first of its survey, behind a key, 17 blocks and a fence",
        blocks: 1032,
        steps: &[
            Step::Sim(EMPTY),
            Step::Fail(1),
            Step::Job(DISK_FAULT),
            Step::Fail(20),
            Step::Job(DISK_FAULT),
        ],
    },
    Case {
        shows: "a device gives no key for the opening",
        blocks: 1035,
        steps: &[
            Step::Edit(Edit::Count(LAST)),
            Step::First(Status::Volume, KEYS),
        ],
    },
    Case {
        shows: "a device gives no key for a host",
        blocks: 1035,
        steps: &[
            Step::Edit(Edit::Count(LAST - 1)),
            Step::First(
                Status::Volume,
                "2 nokeys\n3 down\n4 down\n5 down\n6 down\nhistory\nvolume keys 576460752303423487\n",
            ),
        ],
    },
    Case {
        shows: "a device gives no key for the survey",
        blocks: 1035,
        steps: &[
            Step::Edit(Edit::Count(LAST - 2)),
            Step::First(
                Status::Volume,
                "2 joined 9223372036854775792\n3 ok\n4 ok\n5 ok\n6 = 7\nhistory 3 4 5 6\nvolume keys 576460752303423487\n",
            ),
        ],
    },
    Case {
        shows: "a device gives no key for a check",
        blocks: 1032,
        steps: &[
            Step::Sim(EMPTY),
            Step::Edit(Edit::Count(LAST)),
            Step::Faulty(KEYS),
        ],
    },
    Case {
        shows: "a device gives no key for the survey of a check",
        blocks: 1032,
        steps: &[
            Step::Sim(EMPTY),
            Step::Edit(Edit::Count(LAST - 1)),
            Step::Faulty(KEYS),
        ],
    },
];

#[test]
fn failing_devices(rt: HostRuntime) -> Result<(), Fail> {
    play(&rt, rt.alloc(), &CASES)
}
