// The calls of a device in memory that are not those of a device.
use shared_disk::{Device, DiskNo, MemDisk};
use std::test::Fail;
use vol_base::{Block, Key};

// A block of one byte, again and again.
fn filled(byte: u8) -> Block {
    Block([byte; 4096])
}

#[test]
fn a_device_in_memory_tells_its_writes(rt: HostRuntime) -> Result<(), Fail> {
    let image = vec![in rt.alloc(); filled(5)]?;
    let mut disk = MemDisk::of_image(rt.alloc(), image, 576460752303423486)?;
    disk.reserve(2)?;
    disk.fail_at(2)?;
    assert!(rt; disk.spare() >= 2);
    let key = disk.register(15)?;
    assert_eq!(rt; key, Key(9223372036854775807));
    assert_eq!(rt; disk.write(key, 0, &filled(1)), Err(DiskNo::Failed));
    assert_eq!(rt; disk.write(key, 0, &filled(2)), Ok(()));
    assert_eq!(rt; *disk.block(0), filled(2));
    assert_eq!(rt; disk.writes().len(), 1);
    Ok(())
}
