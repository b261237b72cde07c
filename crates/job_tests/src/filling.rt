// A workload that writes each data block of a volume, and then one more.
use crate::cases::{expect_valid, simulate};
use shared_disk::MemDisk;
use std::alloc::{AllocError, Global};
use std::test::Fail;

// The volume has one group, of 1,008 data blocks. File 0 takes each of them, so that file 1 gets none until one is given back. Every line
// but that one is in the history.
fn script(alloc: Global) -> Result<String, AllocError> {
    let mut script = String::from_str(
        alloc,
        "volume 1 2 1 1 1 1\n0 join -> joined 32\n0 create 0 -> ok\n0 size 0 1008 -> ok\n",
    )?;
    for index in 0..1008u32 {
        write!(script, "0 write 0 {index} 1 -> ok\n")?;
    }
    script.push_str("0 create 1 -> ok\n0 size 1 1 -> ok\n0 write 1 0 2 -> full\n")?;
    script.push_str("0 punch 0 0 -> ok\n0 write 1 0 2 -> ok\n\nhistory")?;
    for line in 3..1015u32 {
        write!(script, " {line}")?;
    }
    script.push_str(" 1016 1017\nused 1008 mapped 1008\n")?;
    Ok(script)
}

#[test]
fn a_full_volume(rt: HostRuntime) -> Result<(), Fail> {
    let alloc = rt.alloc();
    let shows = "a full volume";
    let script = script(alloc)?;
    let disk = MemDisk::new(alloc, 1023)?;
    let disk = simulate(&rt, alloc, script.as_str(), disk, shows)?;
    expect_valid(&rt, alloc, "used 1008 mapped 1008\n", disk, shows)?;
    Ok(())
}
