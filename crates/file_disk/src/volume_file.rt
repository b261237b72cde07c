// The file that holds a volume.
ghost use Rattle.std.specs.Prelude.{◌≡◌, ◌+◌, ◌-◌, ◌*◌, ◌^◌, ◌<◌, length, min, false, IfOk, None, OnErr, OnOk, true};
ghost use Rattle.std.specs.Int.{from_be_bytes, w64};
ghost use Rattle.shared_disk.specs.Calls.{last_counter};

use crate::store::{BLOCKS, Store};
use shared_disk::LAST_COUNTER;
use std::fs::{File, OpenOptions};
use std::io;
use std::io::ErrorKind;
use std::os::unix::fs::FileExt;
use std::rt::Files;
use vol_base::Block;

// The bytes of a block, and of the file's head, which has the counter.
const BLOCK_BYTES: u64 = 4096;

/// The file that holds a volume. Where it could not be opened, each call fails for the reason for
/// which the opening failed.
#[derive(Drop)]
pub struct VolumeFile {
    file: io::Result<File>,
}

impl VolumeFile {
    ghost use Rattle.file_disk.specs.VolumeFile.{is_opened};

    /// Opens the file for reading and writing, or makes it where it is not there, and reads its
    /// counter. A file whose counter cannot be read counts as one that could not be opened; the
    /// counter is then 0.
    pub fn open<R: Files<File = File>>(rt: &R, path: &str) -> (VolumeFile, u64)
        ensures counter { result.1 < 2 ^ 59 }
        ensures closed { is_opened result.0 ≡ false → result.1 ≡ 0 }
    {
        match open_with_counter(rt, path) {
            Ok((file, counter)) => (VolumeFile { file: Ok(file) }, counter),
            Err(reason) => (VolumeFile { file: Err(reason) }, 0),
        }
    }

    fn file(&self) -> io::Result<&File>
        ensures { OnOk result (is_opened self.now ≡ true) }
    {
        match &self.file {
            Ok(file) => Ok(file),
            Err(reason) => Err(*reason),
        }
    }
}

fn open_with_counter<R: Files<File = File>>(rt: &R, path: &str) -> io::Result<(File, u64)>
    ensures { IfOk result (λ opened. opened.1 < 2 ^ 59) }
{
    let file = OpenOptions::new()
        .read(true)
        .write(true)
        .create(true)
        .open(rt, path)?;
    let mut bytes = [0; 8];
    read_padded(&file, 0, &mut bytes)?;
    Ok((file, counter_of(bytes)))
}

// The counter that these bytes spell; one past the last stands for the last.
fn counter_of(bytes: [u8; 8]) -> u64
    ensures { result ≡ min (from_be_bytes w64 bytes) last_counter }
{
    u64::from_be_bytes(bytes).min(LAST_COUNTER)
}

// The byte of the file from which on the block stands.
fn byte_of(place: u64) -> u64
    requires { place < BLOCKS }
    ensures { result ≡ 4096 * (place + 1) }
{
    BLOCK_BYTES * (place + 1)
}

/// Reads the bytes from byte `at` on over those in `into`; past the end of the file these stay.
pub fn read_padded<F: FileExt>(file: &F, at: u64, into: &mut [u8]) -> io::Result<()>
    requires { at + length into.old < 2 ^ 64 }
{
    let mut done = 0;
    'reading: for _ in 0..u64::MAX {
        if done == into.len() {
            return Ok(());
        }
        match file.read_at(&mut into[done..], at + done as u64) {
            Ok(0) => return Ok(()),
            Ok(count) => done += count,
            Err(error) if error.kind() == ErrorKind::Interrupted => {}
            Err(error) => return Err(error),
        }
    }
    Err(ErrorKind::Interrupted.into())
}

impl Store for VolumeFile {
    ghost use Rattle.file_disk.specs.VolumeFile.{is_opened};

    ghost told = { λ _. None };

    ghost kept = { λ _. None };

    ghost is_open = { is_opened };

    fn block(&self, place: u64) -> io::Result<Block> {
        let mut block = Block::zeros();
        read_padded(self.file()?, byte_of(place), &mut block.0)?;
        Ok(block)
    }

    fn set_block(&mut self, place: u64, block: &Block) -> io::Result<()> {
        self.file()?.write_all_at(&block.0, byte_of(place))
    }

    fn set_counter(&mut self, counter: u64) -> io::Result<()> {
        self.file()?.write_all_at(&counter.to_be_bytes(), 0)
    }

    ghost whole_image = { λ _. tt };

    ghost whole_blocks = { λ _. tt };
}
