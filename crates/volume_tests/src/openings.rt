// Blank devices, volumes, and devices on which no volume is opened.
use crate::volumes::{formatted, geometry_of};
use shared_disk::{Device, MemDisk};
use std::alloc::Global;
use std::process::Abort;
use std::test::Fail;
use vol_base::{Block, NoMemory};
use volume_faults::{Fault, FaultKind};
use volume_opening::{OpenNo, open};

// Slots 1 and 2, journals 3 and 4, locks 5 to 10, file tables 11 to 14, the group's table 15, the part's
// 16, and 1,035 blocks in all.
const FOUR_SHARDS: [u8; 7] = [2, 4, 1, 1, 4, 1, 1];

// The same places, 1,032 blocks in all.
const ONE_SHARD: [u8; 7] = [2, 4, 1, 1, 1, 1, 1];

// The same places, and the further tables 1035 to 1038.
const TWO_TABLES: [u8; 7] = [2, 4, 1, 1, 4, 1, 2];

const HEAD: [u64; 16] = [1, 2, 3, 4, 5, 6, 7, 8, 9, 10, 11, 12, 13, 14, 15, 16];

// A formatted volume with one block filled with a byte.
fn damaged(alloc: Global, place: usize, byte: u8, cut: usize) -> Result<MemDisk, NoMemory> {
    let mut blocks = formatted(alloc, FOUR_SHARDS, cut)?;
    if place < blocks.len() {
        blocks[place] = Block([byte; 4096]);
    }
    MemDisk::of_image(alloc, blocks, 0)
}

fn expect_opened(
    rt: &impl Abort,
    alloc: Global,
    disk: &mut MemDisk,
    numbers: [u8; 7],
    counter: u64,
) {
    let geometry = geometry_of(numbers);
    assert!(rt; geometry.is_in_range());
    assert!(rt; open(alloc, disk, &geometry) == Ok(()));
    assert!(rt; disk.counter() == counter);
    for place in 0..disk.blocks() {
        assert!(rt;
            disk.block(place).same(&geometry.blank(place)),
            "at {place}"
        );
    }
}

fn expect_refused(
    rt: &impl Abort,
    alloc: Global,
    disk: &mut MemDisk,
    numbers: [u8; 7],
    refusal: OpenNo,
) {
    let geometry = geometry_of(numbers);
    assert!(rt; geometry.is_in_range());
    assert!(rt; open(alloc, disk, &geometry) == Err(refusal));
}

#[test]
fn devices_that_are_opened(rt: HostRuntime) -> Result<(), Fail> {
    let alloc = rt.alloc();
    let further = [1035, 1036, 1037, 1038];
    let cases: [([u8; 7], u64, &[u64]); 3] = [
        (FOUR_SHARDS, 1035, &[]),
        (ONE_SHARD, 1032, &[]),
        (TWO_TABLES, 1039, &further),
    ];
    for (numbers, blocks, further) in cases {
        let mut disk = MemDisk::new(alloc, blocks)?;
        expect_opened(&rt, alloc, &mut disk, numbers, 1);
        let calls = disk.calls();
        assert!(rt; calls == 20 + further.len() as u64);
        let order = HEAD.iter().chain(further).chain(&[0]);
        assert!(rt; disk.writes().iter().map(|write| &write.0).eq(order));
        // A volume is used as it stands.
        expect_opened(&rt, alloc, &mut disk, numbers, 2);
        assert!(rt; disk.calls().saturating_sub(calls) == 19 + further.len() as u64);
        assert!(rt; disk.writes().len() == 17 + further.len());
    }
    // A device whose third call failed is formatted by the next job.
    let mut disk = MemDisk::new(alloc, 1035)?;
    disk.fail_at(3)?;
    expect_refused(&rt, alloc, &mut disk, FOUR_SHARDS, OpenNo::Failed);
    expect_opened(&rt, alloc, &mut disk, FOUR_SHARDS, 2);
    Ok(())
}

#[test]
fn devices_that_are_refused(rt: HostRuntime) -> Result<(), Fail> {
    let alloc = rt.alloc();
    let misfits: [([u8; 7], [u8; 7], usize, (u64, u64)); 13] = [
        ([3, 4, 1, 1, 4, 1, 1], FOUR_SHARDS, 0, (3, 2)),
        ([2, 5, 1, 1, 4, 1, 1], FOUR_SHARDS, 0, (5, 4)),
        ([2, 4, 2, 1, 4, 1, 1], FOUR_SHARDS, 0, (2, 1)),
        ([2, 4, 1, 3, 4, 1, 1], FOUR_SHARDS, 0, (3, 1)),
        (FOUR_SHARDS, ONE_SHARD, 0, (4, 1)),
        ([2, 4, 1, 1, 4, 6, 1], FOUR_SHARDS, 0, (6, 1)),
        ([2, 4, 1, 1, 4, 1, 7], FOUR_SHARDS, 0, (7, 1)),
        (FOUR_SHARDS, TWO_TABLES, 0, (1, 2)),
        // The first number that differs, also on a device that is too short.
        ([2, 3, 1, 1, 9, 1, 1], FOUR_SHARDS, 0, (3, 4)),
        (FOUR_SHARDS, ONE_SHARD, 20, (4, 1)),
        // The blocks: its own volume cut, a blank block 0 that is alone, and no block.
        (FOUR_SHARDS, FOUR_SHARDS, 1, (1035, 1034)),
        (FOUR_SHARDS, FOUR_SHARDS, 1034, (1035, 1)),
        (FOUR_SHARDS, FOUR_SHARDS, 1035, (1035, 0)),
    ];
    for (numbers, found, cut, (given, standing)) in misfits {
        let mut disk = MemDisk::of_image(alloc, formatted(alloc, found, cut)?, 0)?;
        let refusal = OpenNo::Geometry {
            given,
            found: standing,
        };
        expect_refused(&rt, alloc, &mut disk, numbers, refusal);
        assert!(rt; disk.writes().is_empty());
        assert!(rt; disk.counter() == 1);
    }
    // A blank device that is too short, and one whose block 0 is anything.
    let mut disk = MemDisk::new(alloc, 1034)?;
    let short = OpenNo::Geometry {
        given: 1035,
        found: 1034,
    };
    expect_refused(&rt, alloc, &mut disk, FOUR_SHARDS, short);
    assert!(rt; disk.writes().is_empty());
    let short = OpenNo::Geometry {
        given: 1035,
        found: 1034,
    };
    let mut disk = damaged(alloc, 0, 7, 1)?;
    expect_refused(&rt, alloc, &mut disk, FOUR_SHARDS, short);
    // The faults of the first stage that has any.
    for (place, byte, kind) in [(0, 7, FaultKind::Superblock), (11, 0, FaultKind::Spelling)] {
        let mut disk = damaged(alloc, place, byte, 0)?;
        let place = place as u64;
        let faults = vec![in alloc; Fault { place, kind }]?;
        expect_refused(&rt, alloc, &mut disk, FOUR_SHARDS, OpenNo::Faults(faults));
    }
    // No key is left.
    let image = formatted(alloc, FOUR_SHARDS, 0)?;
    let mut disk = MemDisk::of_image(alloc, image, 576460752303423487)?;
    expect_refused(&rt, alloc, &mut disk, FOUR_SHARDS, OpenNo::NoKeys);
    // Each call fails in turn, on a blank device and on a volume.
    for call in 1..21 {
        let mut disk = MemDisk::new(alloc, 1035)?;
        disk.fail_at(call)?;
        expect_refused(&rt, alloc, &mut disk, FOUR_SHARDS, OpenNo::Failed);
        assert!(rt; disk.calls() == call);
    }
    for call in 1..20 {
        let mut disk = MemDisk::of_image(alloc, formatted(alloc, FOUR_SHARDS, 0)?, 0)?;
        disk.fail_at(call)?;
        expect_refused(&rt, alloc, &mut disk, FOUR_SHARDS, OpenNo::Failed);
        assert!(rt; disk.calls() == call);
    }
    Ok(())
}
