// Formatted volumes, block by block, and what is written into them.
use std::alloc::Global;
use vol_base::{Block, NoMemory, number_block};
use vol_layout::Geometry;

// The blank blocks of a volume of the geometry of these numbers, in the order of the volume line.
pub fn formatted(alloc: Global, numbers: [u8; 7]) -> Result<Vec<Block>, NoMemory> {
    let [hosts, files, groups, parts, shards, logs, tables] = numbers;
    let geometry = Geometry {
        hosts,
        files,
        groups,
        parts,
        shards,
        logs,
        tables,
    };
    let mut blocks = Vec::new(alloc);
    if geometry.is_in_range() {
        for place in 0..geometry.total() {
            blocks.push(geometry.blank(place)).map_err(|_| NoMemory)?;
        }
    }
    Ok(blocks)
}

// Writes numbers at places and bytes, and fills blocks with numbers.
pub fn put(blocks: &mut [Block], numbers: &[(usize, usize, u32)], data: &[(usize, u64)]) {
    for &(place, at, number) in numbers {
        if place < blocks.len() && at < 4093 {
            let [a, b, c, d] = number.to_be_bytes();
            let block = &mut blocks[place];
            block.0[at] = a;
            block.0[at + 1] = b;
            block.0[at + 2] = c;
            block.0[at + 3] = d;
        }
    }
    for &(place, number) in data {
        if place < blocks.len() {
            blocks[place] = number_block(number);
        }
    }
}
