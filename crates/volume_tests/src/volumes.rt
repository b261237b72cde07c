// Formatted volumes, block by block.
use std::alloc::Global;
use vol_base::{Block, NoMemory};
use vol_layout::Geometry;

// The geometry of these numbers, in the order of the volume line.
pub fn geometry_of(numbers: [u8; 7]) -> Geometry {
    let [hosts, files, groups, parts, shards, logs, tables] = numbers;
    Geometry {
        hosts,
        files,
        groups,
        parts,
        shards,
        logs,
        tables,
    }
}

// A formatted volume whose last `cut` blocks are missing.
pub fn formatted(alloc: Global, numbers: [u8; 7], cut: usize) -> Result<Vec<Block>, NoMemory> {
    let geometry = geometry_of(numbers);
    let mut blocks = Vec::new(alloc);
    if geometry.is_in_range() {
        for place in 0..geometry.total() {
            blocks.push(geometry.blank(place)).map_err(|_| NoMemory)?;
        }
    }
    for _ in 0..cut {
        blocks.pop();
    }
    Ok(blocks)
}
