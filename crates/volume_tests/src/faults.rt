// Volumes that are built by hand, and what a check lists of them.
use crate::volumes::formatted;
use image_view::Usage;
use shared_disk::MemDisk;
use std::alloc::Global;
use std::process::Abort;
use std::test::Fail;
use vol_base::{Block, Key, NoMemory};
use volume_check::{CheckNo, Fault, FaultKind, check, survey};

// Slots 1 and 2, journals 3 and 4, locks 5 to 10, file tables 11 to 14, the group's table 15, the part's 16.
const SMALL: [u8; 7] = [2, 4, 1, 1, 1, 1, 1];

// The same places, with four shards.
const FOUR_SHARDS: [u8; 7] = [2, 4, 1, 1, 4, 1, 1];

// Slot 1, journal 2, locks 3 to 6, the file's first table 7, groups 8 and 9, and its second table 2030.
const TWO_TABLES: [u8; 7] = [1, 1, 2, 1, 1, 1, 2];

// What a formatted volume becomes: `numbers` are written at a place and byte. Its last `cut` blocks are
// missing, and `counter` is the device's.
#[derive(Clone, Copy)]
struct Volume<'a> {
    geometry: [u8; 7],
    numbers: &'a [(usize, usize, u32)],
    cut: usize,
    counter: u64,
}

fn blocks_of(alloc: Global, volume: &Volume) -> Result<Vec<Block>, NoMemory> {
    let mut blocks = formatted(alloc, volume.geometry, volume.cut)?;
    for &(place, at, number) in volume.numbers {
        put(&mut blocks, place, at, number);
    }
    Ok(blocks)
}

fn put(blocks: &mut [Block], place: usize, at: usize, number: u32) {
    if place < blocks.len() && at < 4093 {
        let [a, b, c, d] = number.to_be_bytes();
        let block = &mut blocks[place];
        block.0[at] = a;
        block.0[at + 1] = b;
        block.0[at + 2] = c;
        block.0[at + 3] = d;
    }
}

fn disk_of(alloc: Global, volume: &Volume) -> Result<MemDisk, NoMemory> {
    MemDisk::of_image(alloc, blocks_of(alloc, volume)?, volume.counter % (1 << 59))
}

fn expect_faults(
    rt: &impl Abort,
    alloc: Global,
    volume: &Volume,
    faults: &[(u64, FaultKind)],
) -> Result<(), Fail> {
    let mut disk = disk_of(alloc, volume)?;
    let found = check(alloc, &mut disk)?;
    assert!(rt; found.len() == faults.len());
    for (fault, &(place, kind)) in found.iter().zip(faults) {
        assert!(rt; *fault == Fault { place, kind });
    }
    Ok(())
}

fn expect_usage(rt: &impl Abort, alloc: Global, volume: &Volume, usage: Usage) -> Result<(), Fail> {
    let mut disk = disk_of(alloc, volume)?;
    let faults = check(alloc, &mut disk)?;
    assert!(rt; faults.is_empty());
    let found = survey(alloc, &mut disk, None);
    assert!(rt; found == Ok(usage));
    Ok(())
}

// A volume of two hosts and four files on a device whose counter is 2.
fn small<'a>(numbers: &'a [(usize, usize, u32)]) -> Volume<'a> {
    Volume {
        geometry: SMALL,
        numbers,
        cut: 0,
        counter: 2,
    }
}

#[test]
fn valid_volumes(rt: HostRuntime) -> Result<(), Fail> {
    let cases: [(Volume, u32, u32); 9] = [
        // File 0 holds block 7 under the lock of host 0.
        (
            Volume {
                geometry: FOUR_SHARDS,
                numbers: &[
                    (1, 8, 1),
                    (1, 20, 32),
                    (5, 8, 1),
                    (5, 20, 32),
                    (11, 12, 3),
                    (11, 64, 1),
                    (15, 64, 1),
                ],
                cut: 0,
                counter: 2,
            },
            1,
            1,
        ),
        // A standing record makes file 0.
        (
            small(&[
                (1, 8, 1),
                (1, 20, 32),
                (5, 8, 1),
                (5, 20, 32),
                (3, 8, 1),
                (3, 20, 32),
                (3, 76, 1),
            ]),
            0,
            0,
        ),
        // Host 1 reads file 0 under a key that has ended.
        (small(&[(5, 8, 2), (5, 76, 33)]), 0, 0),
        // Two hosts read file 0.
        (
            Volume {
                geometry: [3, 4, 1, 1, 1, 1, 1],
                numbers: &[
                    (2, 8, 1),
                    (2, 20, 49),
                    (3, 8, 1),
                    (3, 20, 66),
                    (7, 8, 2),
                    (7, 76, 49),
                    (7, 84, 66),
                    (13, 12, 2),
                    (13, 64, 1),
                    (17, 64, 1),
                ],
                cut: 0,
                counter: 4,
            },
            1,
            1,
        ),
        // The pointer behind the end of file 0 is counted.
        (small(&[(11, 12, 1), (11, 64, 1), (15, 64, 1)]), 1, 1),
        // File 0 was cut to one block, and then made longer again.
        (
            Volume {
                geometry: [1; 7],
                numbers: &[(6, 12, 2), (6, 68, 1), (6, 72, 2), (7, 64, 1), (7, 68, 1)],
                cut: 0,
                counter: 2,
            },
            2,
            2,
        ),
        (
            Volume {
                geometry: [1; 7],
                numbers: &[(6, 12, 4)],
                cut: 0,
                counter: 2,
            },
            0,
            0,
        ),
        // Two files and a slot of the arena name data block 0.
        (
            small(&[
                (11, 12, 2),
                (11, 64, 0x8000_0001),
                (12, 12, 2),
                (12, 64, 0x8000_0001),
                (16, 64, 1),
                (15, 64, 3),
            ]),
            1,
            3,
        ),
        // A pointer in the second table block of file 0.
        (
            Volume {
                geometry: TWO_TABLES,
                numbers: &[(7, 12, 2017), (2030, 64, 1), (8, 64, 1)],
                cut: 0,
                counter: 0,
            },
            1,
            1,
        ),
    ];
    for (volume, used, mapped) in cases {
        expect_usage(&rt, rt.alloc(), &volume, Usage { used, mapped })?;
    }
    Ok(())
}

#[test]
fn faults_by_stage(rt: HostRuntime) -> Result<(), Fail> {
    let cases: [(Volume, &[(u64, FaultKind)]); 17] = [
        // Block 0 is no superblock, or the last block is missing.
        (small(&[(0, 0, 1)]), &[(0, FaultKind::Superblock)]),
        (
            Volume {
                geometry: FOUR_SHARDS,
                numbers: &[],
                cut: 1,
                counter: 2,
            },
            &[(0, FaultKind::Size(1035, 1034))],
        ),
        // A table of zeros, a slot and a reader with keys past the counter, and a part that is read.
        (
            small(&[(11, 0, 0), (11, 4, 0), (11, 8, 0)]),
            &[(11, FaultKind::Spelling)],
        ),
        (
            small(&[(1, 8, 1), (1, 20, 160)]),
            &[(1, FaultKind::Spelling)],
        ),
        (
            small(&[(5, 8, 2), (5, 76, 145)]),
            &[(5, FaultKind::Spelling)],
        ),
        (
            small(&[(9, 8, 2), (9, 76, 33)]),
            &[(9, FaultKind::Spelling)],
        ),
        // A pointer to a data block that the volume has not, behind a bad lock and before a bad table.
        (
            small(&[(6, 8, 3), (12, 64, 1009), (16, 8, 1)]),
            &[
                (6, FaultKind::Spelling),
                (12, FaultKind::Spelling),
                (16, FaultKind::Spelling),
            ],
        ),
        // A lock of a key that no slot shows, and a count that is not asked yet.
        (
            small(&[(6, 8, 1), (6, 20, 32), (15, 64, 2)]),
            &[(6, FaultKind::LockKey(Key(32)))],
        ),
        // A record of file 0 without its lock, with another key, and with the key 0.
        (
            small(&[(1, 8, 1), (1, 20, 32), (3, 8, 1), (3, 20, 32), (3, 76, 1)]),
            &[(3, FaultKind::JournalEdit(0))],
        ),
        (
            small(&[
                (1, 8, 1),
                (1, 20, 32),
                (5, 8, 1),
                (5, 20, 32),
                (3, 8, 1),
                (3, 20, 16),
                (3, 76, 1),
            ]),
            &[
                (3, FaultKind::JournalKey(Key(16))),
                (3, FaultKind::JournalEdit(0)),
            ],
        ),
        (
            small(&[(3, 8, 1), (3, 76, 1)]),
            &[
                (3, FaultKind::JournalKey(Key(0))),
                (3, FaultKind::JournalEdit(0)),
            ],
        ),
        // A record that sets slot 0 of the arena and leaves the count of data block 0.
        (
            small(&[
                (1, 8, 1),
                (1, 20, 32),
                (9, 8, 1),
                (9, 20, 32),
                (3, 8, 1),
                (3, 20, 32),
                (3, 64, 2),
                (3, 76, 1),
            ]),
            &[(3, FaultKind::JournalEdit(0))],
        ),
        // A count that is too high, and remains that are not counted.
        (
            Volume {
                geometry: FOUR_SHARDS,
                numbers: &[(11, 12, 3), (11, 64, 1), (15, 64, 2)],
                cut: 0,
                counter: 2,
            },
            &[(
                15,
                FaultKind::Count {
                    number: 0,
                    found: 2,
                    counted: 1,
                },
            )],
        ),
        (
            small(&[(11, 12, 1), (11, 68, 4)]),
            &[(
                15,
                FaultKind::Count {
                    number: 3,
                    found: 0,
                    counted: 1,
                },
            )],
        ),
        // Two pointers without the mark, before a count that is wrong.
        (
            small(&[
                (11, 12, 3),
                (11, 64, 1),
                (12, 12, 3),
                (12, 68, 1),
                (15, 64, 2),
                (15, 72, 1),
            ]),
            &[
                (11, FaultKind::Mark(0)),
                (12, FaultKind::Mark(1)),
                (
                    15,
                    FaultKind::Count {
                        number: 2,
                        found: 1,
                        counted: 0,
                    },
                ),
            ],
        ),
        // The same in a second table block.
        (
            Volume {
                geometry: TWO_TABLES,
                numbers: &[(7, 12, 2017), (2030, 64, 1), (2030, 68, 1), (8, 64, 2)],
                cut: 0,
                counter: 0,
            },
            &[(2030, FaultKind::Mark(1008)), (2030, FaultKind::Mark(1009))],
        ),
        // A lock of a host that the volume has not.
        (
            small(&[(10, 8, 1), (10, 20, 34)]),
            &[(10, FaultKind::LockKey(Key(34)))],
        ),
    ];
    for (volume, faults) in cases {
        expect_faults(&rt, rt.alloc(), &volume, faults)?;
    }
    Ok(())
}

#[test]
fn refusals(rt: HostRuntime) -> Result<(), Fail> {
    let mut blank = MemDisk::new(rt.alloc(), 4)?;
    let found = check(rt.alloc(), &mut blank);
    assert!(rt; matches!(&found, Err(CheckNo::Blank)));
    let mut none = MemDisk::new(rt.alloc(), 0)?;
    let found = check(rt.alloc(), &mut none)?;
    assert!(rt;
        found.len() == 1
            && found[0]
                == Fault {
                    place: 0,
                    kind: FaultKind::Superblock
                }
    );
    let ended = Volume {
        geometry: SMALL,
        numbers: &[],
        cut: 0,
        counter: (1 << 59) - 1,
    };
    let mut disk = disk_of(rt.alloc(), &ended)?;
    let found = check(rt.alloc(), &mut disk);
    assert!(rt; matches!(&found, Err(CheckNo::NoKeys)));
    Ok(())
}

// A registration, block 0, the sixteen blocks behind it, and the fence.
#[test]
fn each_call_of_the_device_fails(rt: HostRuntime) -> Result<(), Fail> {
    for call in 1..20 {
        let mut disk = disk_of(rt.alloc(), &small(&[]))?;
        disk.fail_at(call)?;
        let found = check(rt.alloc(), &mut disk);
        assert!(rt; matches!(&found, Err(CheckNo::Failed)));
    }
    let mut disk = disk_of(rt.alloc(), &small(&[]))?;
    disk.fail_at(20)?;
    let found = check(rt.alloc(), &mut disk)?;
    assert!(rt; found.is_empty());
    Ok(())
}
