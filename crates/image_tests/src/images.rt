// Volumes that are built by hand, and what the definitions say of them.
use crate::volumes::{formatted, put};
use image_view::{Number, Usage, read_pointer, slow, write_pointer};
use std::alloc::Global;
use std::process::Abort;
use std::test::Fail;
use vol_base::{Block, NoMemory, number_block};

// The pointer to data block 0 with the mark of a shared block.
const SHARED: u32 = 0x8000_0001;

// What a formatted volume becomes, and what its file 0 and its usage are then: `numbers` are written at
// a place and byte, data blocks are filled with a number, and `shown` are the blocks of the file that
// are no zeros.
#[derive(Clone, Copy)]
struct Case<'a> {
    geometry: [u8; 7],
    numbers: &'a [(usize, usize, u32)],
    data: &'a [(usize, u64)],
    length: usize,
    shown: &'a [(usize, u64)],
    usage: Usage,
}

fn built(alloc: Global, case: &Case) -> Result<Vec<Block>, NoMemory> {
    let mut blocks = formatted(alloc, case.geometry)?;
    put(&mut blocks, case.numbers, case.data);
    Ok(blocks)
}

fn expect_case(rt: &impl Abort, alloc: Global, case: &Case) -> Result<(), Fail> {
    let blocks = built(alloc, case)?;
    let image = blocks.as_slice();
    let geometry = slow::geometry(image).ok_or("no volume")?;
    assert!(rt; slow::usage(image, &geometry) == case.usage);
    assert!(rt; geometry.files > 0);
    let read = slow::file(alloc, image, &geometry, 0);
    assert!(rt; read.is_ok());
    let file = read.unwrap().ok_or("no file 0")?;
    assert!(rt; file.len() == case.length);
    for &(index, number) in case.shown {
        assert!(rt; index < file.len());
        assert!(rt; file[index].same(&number_block(number)));
    }
    let others = file.iter().filter(|block| block.is_zeros()).count();
    assert!(rt; others <= case.length && case.length - others == case.shown.len());
    Ok(())
}

// A record that stands makes a file that its table does not have.
#[test]
fn a_standing_record_counts(rt: HostRuntime) -> Result<(), Fail> {
    let created = Case {
        geometry: [2, 4, 1, 1, 1, 1, 1],
        numbers: &[
            (1, 8, 1),
            (1, 20, 32),
            (5, 8, 1),
            (5, 20, 32),
            (3, 8, 1),
            (3, 20, 32),
            (3, 76, 1),
        ],
        data: &[],
        length: 0,
        shown: &[],
        usage: Usage { used: 0, mapped: 0 },
    };
    expect_case(&rt, rt.alloc(), &created)?;
    let written = Case {
        geometry: [2, 4, 1, 1, 1, 1, 1],
        numbers: &[
            (11, 12, 2),
            (3, 8, 2),
            (3, 20, 32),
            (3, 64, 1),
            (3, 76, 1),
            (3, 80, 3),
            (3, 92, 1),
        ],
        data: &[(24, 7)],
        length: 1,
        shown: &[(0, 7)],
        usage: Usage { used: 1, mapped: 1 },
    };
    expect_case(&rt, rt.alloc(), &written)
}

// Pointers past the length are counted and not shown.
#[test]
fn remains_are_mapped_and_not_seen(rt: HostRuntime) -> Result<(), Fail> {
    let cut = Case {
        geometry: [1, 1, 1, 1, 1, 1, 1],
        numbers: &[(6, 12, 2), (6, 68, 1), (6, 72, 2), (7, 64, 1), (7, 68, 1)],
        data: &[(12, 4), (13, 4)],
        length: 1,
        shown: &[],
        usage: Usage { used: 2, mapped: 2 },
    };
    expect_case(&rt, rt.alloc(), &cut)?;
    let grown = Case {
        geometry: [1, 1, 1, 1, 1, 1, 1],
        numbers: &[(6, 12, 4)],
        data: &[(12, 4), (13, 4)],
        length: 3,
        shown: &[],
        usage: Usage { used: 0, mapped: 0 },
    };
    expect_case(&rt, rt.alloc(), &grown)
}

// Two files and a slot of the arena name one data block.
#[test]
fn a_shared_block_is_mapped_thrice(rt: HostRuntime) -> Result<(), Fail> {
    let shared = Case {
        geometry: [2, 4, 1, 1, 1, 1, 1],
        numbers: &[
            (11, 12, 2),
            (11, 64, SHARED),
            (12, 12, 2),
            (12, 64, SHARED),
            (16, 64, 1),
            (15, 64, 3),
        ],
        data: &[(24, 5)],
        length: 1,
        shown: &[(0, 5)],
        usage: Usage { used: 1, mapped: 3 },
    };
    expect_case(&rt, rt.alloc(), &shared)?;
    let blocks = built(rt.alloc(), &shared)?;
    let geometry = slow::geometry(blocks.as_slice()).ok_or("no volume")?;
    assert!(rt; slow::uses(blocks.as_slice(), &geometry, 0) == 3);
    Ok(())
}

// The second table block of a file stands behind the data.
#[test]
fn a_pointer_in_a_further_table(rt: HostRuntime) -> Result<(), Fail> {
    let long = Case {
        geometry: [1, 1, 2, 1, 1, 1, 2],
        numbers: &[(7, 12, 2017), (2030, 64, 1), (8, 64, 1)],
        data: &[(14, 7)],
        length: 2016,
        shown: &[(1008, 7)],
        usage: Usage { used: 1, mapped: 1 },
    };
    expect_case(&rt, rt.alloc(), &long)
}

// Two hosts read a file.
#[test]
fn a_read_lock_changes_no_file(rt: HostRuntime) -> Result<(), Fail> {
    let read = Case {
        geometry: [3, 4, 1, 1, 1, 1, 1],
        numbers: &[
            (2, 8, 1),
            (2, 20, 49),
            (3, 8, 1),
            (3, 20, 66),
            (7, 8, 2),
            (7, 76, 49),
            (7, 84, 66),
            (13, 12, 2),
            (13, 64, 1),
            (17, 64, 1),
        ],
        data: &[(27, 7)],
        length: 1,
        shown: &[(0, 7)],
        usage: Usage { used: 1, mapped: 1 },
    };
    expect_case(&rt, rt.alloc(), &read)
}

#[test]
fn pointers_are_numbers(rt: HostRuntime) {
    let rows = [
        (0, Number::Hole),
        (1, Number::At(0, false)),
        (64_512, Number::At(64_511, false)),
        (SHARED, Number::At(0, true)),
    ];
    for (number, pointer) in rows {
        assert!(rt; write_pointer(&pointer) == number);
    }
    assert!(rt; read_pointer(SHARED) == Number::At(0, true));
    assert!(rt; read_pointer(1) == Number::At(0, false));
    assert!(rt; read_pointer(0) == Number::Hole);
}
