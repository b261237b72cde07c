// What is told of an outcome.
use jobs::{Outcome, VolumeNo, tell};
use std::alloc::Global;
use std::process::Abort;
use std::test::Fail;
use vol_base::Key;
use vol_io::SureSink;
use workload::WorkloadNo;

fn expect_told(
    rt: &impl Abort,
    alloc: Global,
    outcome: Outcome,
    code: u8,
    text: &str,
) -> Result<(), Fail> {
    let mut sink = SureSink::new(alloc, 100)?;
    let status = tell(alloc, &mut sink, outcome);
    assert!(rt; status.code() == code);
    assert!(rt; sink.taken() == text.as_bytes());
    Ok(())
}

#[test]
fn tells(rt: HostRuntime) -> Result<(), Fail> {
    let cause = WorkloadNo::Range;
    let cases = [
        (Outcome::Usage, 1, "usage: dede VOLUME JOB [ARGS]\n"),
        (
            Outcome::Workload { line: 3, cause },
            2,
            "workload line 3: range\n",
        ),
        (
            Outcome::Volume(VolumeNo::Busy(Key(32))),
            3,
            "volume busy 32\n",
        ),
        (
            Outcome::Volume(VolumeNo::Misread(7)),
            3,
            "volume block 7: spelling\n",
        ),
        (Outcome::ReadFault, 5, "read fault\n"),
        (Outcome::Memory, 7, ""),
        (
            Outcome::Geometry { given: 4, found: 1 },
            8,
            "geometry 4 1\n",
        ),
    ];
    for (outcome, code, text) in cases {
        expect_told(&rt, rt.alloc(), outcome, code, text)?;
    }
    Ok(())
}
