// Devices in memory, as a test changes them between two jobs.
use shared_disk::{Device, MemDisk};
use std::alloc::Global;
use std::process::Abort;
use vol_base::{Block, NoMemory};

/// The counter behind which a device gives no key.
pub const LAST: u64 = (1 << 59) - 1;

/// A number of 32 bits in the block at a place, from a byte on.
pub type Number = (usize, usize, u32);

/// A change of a device, on which no key is registered behind it.
pub enum Edit {
    /// These numbers stand there.
    Put(&'static [Number]),
    /// The blocks from one place to another are filled with this byte.
    Fill(usize, usize, u8),
    /// The entries of the table at a place: the first is this, and each is so much more than the one before it.
    Entries(usize, u32, u32),
    /// There are so many blocks.
    Cut(usize),
    /// The counter is this.
    Count(u64),
}

/// The device behind a change.
pub fn edited(alloc: Global, disk: &MemDisk, edit: &Edit) -> Result<MemDisk, NoMemory> {
    let mut blocks = Vec::new(alloc);
    for place in 0..disk.blocks() {
        blocks.push(*disk.block(place)).map_err(|_| NoMemory)?;
    }
    let mut counter = disk.counter();
    match edit {
        Edit::Put(numbers) => put_all(&mut blocks, numbers),
        Edit::Fill(from, to, byte) => fill(&mut blocks, *from, *to, *byte),
        Edit::Entries(place, first, step) => put_entries(&mut blocks, *place, *first, *step),
        Edit::Cut(count) => blocks.truncate(*count),
        Edit::Count(last) => counter = *last,
    }
    MemDisk::of_image(alloc, blocks, counter % (1 << 59))
}

fn put_all(blocks: &mut [Block], numbers: &[Number]) {
    for &(place, at, number) in numbers {
        put(blocks, place, at, number);
    }
}

// Behind its header of 64 bytes a table has 1,008 entries.
fn put_entries(blocks: &mut [Block], place: usize, first: u32, step: u32) {
    let mut number = first;
    for entry in 0..1008usize {
        put(blocks, place, 64 + 4 * entry, number);
        number = number.saturating_add(step);
    }
}

fn put(blocks: &mut [Block], place: usize, at: usize, number: u32) {
    if place < blocks.len() && at < 4093 {
        let [a, b, c, d] = number.to_be_bytes();
        let block = &mut blocks[place];
        block.0[at] = a;
        block.0[at + 1] = b;
        block.0[at + 2] = c;
        block.0[at + 3] = d;
    }
}

fn fill(blocks: &mut [Block], from: usize, to: usize, byte: u8) {
    for place in from..=to {
        if place < blocks.len() {
            blocks[place] = Block([byte; 4096]);
        }
    }
}

/// Expects these numbers on a device.
pub fn holds(rt: &impl Abort, disk: &MemDisk, numbers: &[Number], shows: &str) {
    for &(place, at, number) in numbers {
        assert!(rt;
            number_at(disk, place as u64, at) == number,
            "{shows}: {place} {at}"
        );
    }
}

// A number of a device, and 0 past its end.
fn number_at(disk: &MemDisk, place: u64, at: usize) -> u32 {
    if place >= disk.blocks() {
        return 0;
    }
    match disk.block(place).0.get(at..at.saturating_add(4)) {
        Some([a, b, c, d]) => u32::from_be_bytes([*a, *b, *c, *d]),
        _ => 0,
    }
}
