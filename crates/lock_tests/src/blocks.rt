// Blocks that are no slots and no locks, and the device under the locks.
use crate::hosts::{GEOMETRY, Hosts, expect};
use lock_store::StepNo;
use shared_disk::{Device, Tested};
use std::test::Fail;
use vol_base::{Block, Key};

#[test]
fn each_call_is_one_of_the_device(rt: HostRuntime) -> Result<(), Fail> {
    let mut hosts = Hosts::new(rt.alloc(), 0)?;
    expect(&rt, *hosts.geometry(), GEOMETRY);
    let zeros = Block::zeros();
    let ones = Block([1; 4096]);
    let twos = Block([2; 4096]);
    expect(&rt, hosts.read_request(0, 3), None);
    expect(&rt, hosts.register(0), Some(Ok(Key(16))));
    expect(&rt, hosts.read_request(0, 3), Some(Ok(zeros)));
    expect(&rt, hosts.write_request(0, 3, &ones), Some(Ok(())));
    expect(
        &rt,
        hosts.swap_request(0, 3, &zeros, &twos),
        Some(Ok(Tested::Found(ones))),
    );
    expect(
        &rt,
        hosts.swap_request(0, 3, &ones, &twos),
        Some(Ok(Tested::Swapped)),
    );
    expect(&rt, hosts.read_request(0, 3), Some(Ok(twos)));
    expect(&rt, hosts.fence(0, Key(16)), Some(Ok(())));
    expect(&rt, hosts.read_request(0, 3), Some(Err(StepNo::Fenced)));
    expect(&rt, hosts.read_request(0, 3), None);
    let disk = hosts.close();
    expect(&rt, (disk.counter(), disk.calls()), (1, 8));
    Ok(())
}
