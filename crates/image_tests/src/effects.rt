// One volume for each kind of record: its edits made in the tables, and the files before and after them.
use crate::volumes::{formatted, put};
use image_view::{Usage, slow};
use std::alloc::Global;
use std::process::Abort;
use std::test::Fail;
use vol_base::{Block, number_block};

// Slots 1 and 2, journals 3 and 4, locks 5 to 10, file tables 11 to 14, the group's table 15, the part's
// 16, and data blocks from 24 on.
const SMALL: [u8; 7] = [2, 4, 1, 1, 1, 1, 1];

// The pointer to data block 0 with the mark of a shared block.
const SHARED: u32 = 0x8000_0001;

// The numbers of a volume of two hosts and four files, at places and bytes, and data blocks that are filled
// with a number; the edits; and files 0 and 1 before and behind them, each as the numbers of its blocks.
#[derive(Clone, Copy)]
struct Step<'a> {
    numbers: &'a [(usize, usize, u32)],
    data: &'a [(usize, u64)],
    edits: &'a [(usize, usize, u32)],
    written: &'a [(usize, u64)],
    before: [Option<&'a [u64]>; 2],
    after: [Option<&'a [u64]>; 2],
    usage: Usage,
}

fn expect_file(
    rt: &impl Abort,
    alloc: Global,
    image: &[Block],
    file: u8,
    wanted: Option<&[u64]>,
) -> Result<(), Fail> {
    let geometry = slow::geometry(image).ok_or("no volume")?;
    assert!(rt; file < geometry.files);
    let read = slow::file(alloc, image, &geometry, file);
    assert!(rt; read.is_ok());
    match (read.unwrap(), wanted) {
        (Some(found), Some(numbers)) => {
            assert!(rt; found.len() == numbers.len());
            for (block, number) in found.iter().zip(numbers) {
                assert!(rt; block.same(&number_block(*number)));
            }
        }
        (found, numbers) => assert!(rt; found.is_none() && numbers.is_none()),
    }
    Ok(())
}

fn expect_step(rt: &impl Abort, alloc: Global, step: &Step) -> Result<(), Fail> {
    let mut blocks = formatted(alloc, SMALL)?;
    put(&mut blocks, step.numbers, step.data);
    expect_file(rt, alloc, &blocks, 0, step.before[0])?;
    expect_file(rt, alloc, &blocks, 1, step.before[1])?;
    put(&mut blocks, step.edits, step.written);
    expect_file(rt, alloc, &blocks, 0, step.after[0])?;
    expect_file(rt, alloc, &blocks, 1, step.after[1])?;
    let geometry = slow::geometry(blocks.as_slice()).ok_or("no volume")?;
    assert!(rt; slow::usage(blocks.as_slice(), &geometry) == step.usage);
    Ok(())
}

// Heads, writes and punches: the plain call on file 0.
#[test]
fn plain_calls(rt: HostRuntime) -> Result<(), Fail> {
    let one: &[(usize, usize, u32)] = &[(11, 12, 2), (11, 64, 1), (15, 64, 1)];
    let rows = [
        // created
        Step {
            numbers: &[],
            data: &[],
            edits: &[(11, 12, 1)],
            written: &[],
            before: [None, None],
            after: [Some(&[]), None],
            usage: Usage { used: 0, mapped: 0 },
        },
        // removed; its pointer is a remain
        Step {
            numbers: one,
            data: &[(24, 7)],
            edits: &[(11, 12, 0)],
            written: &[],
            before: [Some(&[7]), None],
            after: [None, None],
            usage: Usage { used: 1, mapped: 1 },
        },
        // grown
        Step {
            numbers: one,
            data: &[(24, 7)],
            edits: &[(11, 12, 4)],
            written: &[],
            before: [Some(&[7]), None],
            after: [Some(&[7, 0, 0]), None],
            usage: Usage { used: 1, mapped: 1 },
        },
        // a hole is written
        Step {
            numbers: &[(11, 12, 2)],
            data: &[(24, 7)],
            edits: &[(11, 64, 1), (15, 64, 1)],
            written: &[],
            before: [Some(&[0]), None],
            after: [Some(&[7]), None],
            usage: Usage { used: 1, mapped: 1 },
        },
        // a shared block is left
        Step {
            numbers: &[
                (11, 12, 2),
                (11, 64, SHARED),
                (12, 12, 2),
                (12, 64, SHARED),
                (16, 64, 1),
                (15, 64, 3),
            ],
            data: &[(24, 5), (25, 6)],
            edits: &[(11, 64, 2), (15, 64, 2), (15, 68, 1)],
            written: &[],
            before: [Some(&[5]), Some(&[5])],
            after: [Some(&[6]), Some(&[5])],
            usage: Usage { used: 2, mapped: 3 },
        },
        // a block is written in place
        Step {
            numbers: one,
            data: &[(24, 7)],
            edits: &[],
            written: &[(24, 9)],
            before: [Some(&[7]), None],
            after: [Some(&[9]), None],
            usage: Usage { used: 1, mapped: 1 },
        },
        // punched
        Step {
            numbers: one,
            data: &[(24, 7)],
            edits: &[(11, 64, 0), (15, 64, 0)],
            written: &[],
            before: [Some(&[7]), None],
            after: [Some(&[0]), None],
            usage: Usage { used: 0, mapped: 0 },
        },
    ];
    for row in &rows {
        expect_step(&rt, rt.alloc(), row)?;
    }
    Ok(())
}

// Records by which all files stay, and the head of a clone.
#[test]
fn files_stay(rt: HostRuntime) -> Result<(), Fail> {
    let rows = [
        // two remains of one block are purged, and a free data block is written
        Step {
            numbers: &[
                (11, 12, 2),
                (11, 64, 1),
                (11, 68, SHARED + 1),
                (11, 72, SHARED + 1),
                (15, 64, 1),
                (15, 68, 2),
            ],
            data: &[(24, 7), (25, 8)],
            edits: &[(11, 68, 0), (11, 72, 0), (15, 68, 0)],
            written: &[(26, 9)],
            before: [Some(&[7]), None],
            after: [Some(&[7]), None],
            usage: Usage { used: 1, mapped: 1 },
        },
        // a link to a file's block, which gets the mark
        Step {
            numbers: &[
                (11, 12, 2),
                (11, 64, 1),
                (12, 12, 2),
                (12, 64, 2),
                (15, 64, 1),
                (15, 68, 1),
            ],
            data: &[(24, 5), (25, 5)],
            edits: &[(12, 64, SHARED), (11, 64, SHARED), (15, 64, 2), (15, 68, 0)],
            written: &[],
            before: [Some(&[5]), Some(&[5])],
            after: [Some(&[5]), Some(&[5])],
            usage: Usage { used: 1, mapped: 2 },
        },
        // a promotion
        Step {
            numbers: &[(11, 12, 2), (11, 64, 1), (15, 64, 1)],
            data: &[(24, 5)],
            edits: &[(16, 64, 1), (11, 64, SHARED), (15, 64, 2)],
            written: &[],
            before: [Some(&[5]), None],
            after: [Some(&[5]), None],
            usage: Usage { used: 1, mapped: 2 },
        },
        // a collection
        Step {
            numbers: &[(16, 64, 1), (15, 64, 1)],
            data: &[(24, 5)],
            edits: &[(16, 64, 0), (15, 64, 0)],
            written: &[],
            before: [None, None],
            after: [None, None],
            usage: Usage { used: 0, mapped: 0 },
        },
        // a clone's pointer, and the mark of its source
        Step {
            numbers: &[(11, 12, 2), (11, 64, 1), (15, 64, 1)],
            data: &[(24, 5)],
            edits: &[(11, 64, SHARED), (12, 64, SHARED), (15, 64, 2)],
            written: &[],
            before: [Some(&[5]), None],
            after: [Some(&[5]), None],
            usage: Usage { used: 1, mapped: 2 },
        },
        // its head
        Step {
            numbers: &[(11, 12, 2), (11, 64, SHARED), (12, 64, SHARED), (15, 64, 2)],
            data: &[(24, 5)],
            edits: &[(12, 12, 2)],
            written: &[],
            before: [Some(&[5]), None],
            after: [Some(&[5]), Some(&[5])],
            usage: Usage { used: 1, mapped: 2 },
        },
    ];
    for row in &rows {
        expect_step(&rt, rt.alloc(), row)?;
    }
    Ok(())
}
