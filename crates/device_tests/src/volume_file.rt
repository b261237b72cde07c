// What no clause says: what stands in a real file, and that the calls succeed.
use file_disk::{FileDisk, read_padded};
use shared_disk::{Device, DiskNo};
use std::alloc::Global;
use std::io::Read;
use std::os::unix::fs::FileExt;
use std::test::Fail;
use std::{env, fs, io, process};
use vol_base::{Block, Key};

// A block of one byte, again and again.
fn filled(byte: u8) -> Block {
    Block([byte; 4096])
}

// A file that hands out seven bytes at a time at most.
#[derive(Drop)]
struct Piecemeal<'a> {
    bytes: &'a [u8],
}

impl FileExt for Piecemeal<'_> {
    fn read_at(&self, buf: &mut [u8], offset: u64) -> io::Result<usize> {
        let start = self.bytes.len().min(offset as usize);
        let end = self.bytes.len().min(start.saturating_add(7));
        let mut piece = &self.bytes[start..end];
        piece.read(buf)
    }

    fn write_at(&self, _: &[u8], _: u64) -> io::Result<usize> {
        Ok(0)
    }
}

#[test]
fn pieces_are_read_to_the_end_of_the_file(rt: HostRuntime) -> Result<(), Fail> {
    let file = Piecemeal {
        bytes: b"0123456789abcdefghijkl",
    };
    for (at, want) in [
        (0, b"0123456789abcdef"),
        (5, b"56789abcdefghijk"),
        (8, b"89abcdefghijkl.."),
        (21, b"l..............."),
        (30, b"................"),
    ] {
        let mut into = *b"................";
        read_padded(&file, at, &mut into)?;
        assert_eq!(rt; into.as_slice(), want.as_slice(), "at {at}");
    }
    Ok(())
}

// The path of a file for one test, in the folder for such files.
fn path_for(rt: &HostRuntime, test: &str) -> io::Result<String> {
    let alloc = rt.alloc();
    let name = format!(in alloc; "file-disk-{test}-{}", process::id(rt.process()))?;
    let path = env::temp_dir(rt)?.join(alloc, name.as_str())?;
    Ok(String::from_str(alloc, path.as_str())?)
}

#[test]
fn a_volume_outlives_its_device(rt: HostRuntime) -> Result<(), Fail> {
    let path = path_for(&rt, "outlives")?;
    let mut disk = FileDisk::new(&rt, rt.alloc(), path.as_str())?;
    let first = disk.register(3)?;
    assert_eq!(rt; disk.write(first, 66176, &filled(7)), Ok(()));
    let mut again = FileDisk::new(&rt, rt.alloc(), path.as_str())?;
    assert_eq!(rt; again.read(first, 5), Err(DiskNo::Fenced));
    let second = again.register(0)?;
    assert_eq!(rt; (second, again.counter()), (Key(32), 2));
    assert_eq!(rt; again.read(second, 66176), Ok(filled(7)));
    assert_eq!(rt; again.read(second, 5), Ok(filled(0)));
    fs::remove_file(&rt, path.as_str())?;
    Ok(())
}

#[test]
fn blocks_and_counter_stand_where_the_format_says(rt: HostRuntime) -> Result<(), Fail> {
    let path = path_for(&rt, "format")?;
    fs::write(&rt, path.as_str(), [0, 0, 0, 0, 0, 0, 1, 255, 9].as_slice())?;
    let mut disk = FileDisk::new(&rt, rt.alloc(), path.as_str())?;
    assert_eq!(rt; disk.counter(), 511);
    let key = disk.register(1)?;
    assert_eq!(rt; disk.write(key, 1, &filled(6)), Ok(()));

    let now = fs::read(&rt, path.as_str())?;
    fs::remove_file(&rt, path.as_str())?;
    assert_eq!(rt; now.len(), 12288);
    for (at, byte) in now.iter().enumerate() {
        let want = match at {
            6 => 2,
            8 => 9,
            8192.. => 6,
            _ => 0,
        };
        assert_eq!(rt; *byte, want, "byte {at}");
    }
    Ok(())
}

#[test]
fn a_counter_is_clamped_and_padded(rt: HostRuntime) -> Result<(), Fail> {
    let path = path_for(&rt, "counter")?;
    for (head, counter) in [
        ([8, 0, 0, 0, 0, 0, 0, 0].as_slice(), 576460752303423487),
        ([0, 0, 1].as_slice(), 1099511627776),
        ([].as_slice(), 0),
    ] {
        fs::write(&rt, path.as_str(), head)?;
        let disk = FileDisk::new(&rt, rt.alloc(), path.as_str())?;
        assert_eq!(rt; disk.counter(), counter);
    }
    fs::remove_file(&rt, path.as_str())?;
    Ok(())
}

// What the device tells of its last failed call.
fn reason_of(alloc: Global, disk: &FileDisk) -> Result<String, Fail> {
    match disk.reason() {
        Some(reason) => Ok(format!(in alloc; "{reason}")?),
        None => Ok(String::new(alloc)),
    }
}

#[test]
fn without_a_file_no_key_is_registered_and_the_reason_is_told(rt: HostRuntime) -> Result<(), Fail> {
    let folder = env::temp_dir(&rt)?;
    for (path, reason) in [
        (
            "/no-such-folder/volume",
            "No such file or directory (os error 2)",
        ),
        (folder.as_str(), "Is a directory (os error 21)"),
    ] {
        let mut disk = FileDisk::new(&rt, rt.alloc(), path)?;
        assert_eq!(rt; reason_of(rt.alloc(), &disk)?.as_str(), "");
        assert_eq!(rt; disk.register(0), Err(DiskNo::Failed));
        assert_eq!(rt; disk.counter(), 0);
        assert_eq!(rt; reason_of(rt.alloc(), &disk)?.as_str(), reason);
    }
    Ok(())
}
