// The text of each kind of fault.
use std::test::Fail;
use vol_base::Key;
use volume_faults::{Fault, FaultKind, text};

#[test]
fn each_fault_has_its_line(rt: HostRuntime) -> Result<(), Fail> {
    let kinds = [
        (0, FaultKind::Superblock),
        (0, FaultKind::Size(1035, 1034)),
        (11, FaultKind::Spelling),
        (5, FaultKind::LockKey(Key(35))),
        (3, FaultKind::JournalKey(Key(0))),
        (3, FaultKind::JournalEdit(0)),
        (
            15,
            FaultKind::Count {
                number: 7,
                found: 2,
                counted: 1,
            },
        ),
        (2030, FaultKind::Mark(1008)),
    ];
    let faults = kinds.map(|(place, kind)| Fault { place, kind });
    let want = "volume block 0: superblock
volume block 0: size 1035 1034
volume block 11: spelling
volume block 5: lock key 35
volume block 3: journal key 0
volume block 3: journal edit 0
volume block 15: count 7 found 2 counted 1
volume block 2030: mark 1008
";
    let bytes = text(rt.alloc(), &faults)?;
    assert!(rt; bytes.as_slice() == want.as_bytes());
    Ok(())
}
