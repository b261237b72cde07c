// Shares and promotions, from their first call to their last.
ghost use Rattle.std.specs.Prelude.{◌≡◌, ◌<◌, IsTrue, None};
ghost use Rattle.disk_locks.specs.Calls.{IsShared};
ghost use Rattle.lock_store.specs.Views.{told_of};
ghost use Rattle.plan_parts.specs.Steps.{IsReady};
ghost use Rattle.share_plans.specs.Stands.{HasPlaces, HasSource, IsHost};
ghost use Rattle.vol_layout.specs.Ranges.{HasResource};

use crate::collections::collect;
use crate::holds::Came;
use crate::noting::Call::{self, Found, Read, Swap, Write};
use crate::steps::{FIRST, expect, joined, made};
use crate::transactions::Sought;
use crate::volumes::full;
use crate::worlds::{Asked, GEOMETRY, Worlds};
use disk_locks::Got;
use lock_store::StepNo;
use meta_world::MetaWorld;
use share_plans::{Place, PromotePlan, Promoted, SharePlan, Shared};
use shared_disk::Device;
use std::alloc::Global;
use std::process::Abort;
use std::test::Fail;
use vol_base::{Answer, Block, FileNo, HostNo, NoMemory};
use vol_layout::{Kind, Resource, Table};

/// Shares the block of a file, by at most eighteen steps; `None` where more are left.
#[tactic(auto, using(crate::proofs::WorldLaws::still, share_plans::specs::laws::ShareStays::share_begins))]
pub fn share<D: Device>(
    world: &mut MetaWorld<D>,
    host: HostNo,
    file: FileNo,
    index: u32,
    source: Place,
) -> Result<Option<Shared>, StepNo>
    requires ready { IsReady world.old host }
    requires places { HasPlaces world.old host file source }
    requires untold { told_of world.old.locks ≡ None }
    ensures { told_of world.new.locks ≡ None }
{
    let mut plan = SharePlan::new(host, file, index, source);
    for _step in 0..18 {
        match plan.next(world) {
            Ok(None) => {}
            Ok(Some(answer)) => return Ok(Some(answer)),
            Err(why) => return Err(why),
        }
    }
    Ok(None)
}

/// Promotes the block of a file, by at most thirteen steps; `None` where more are left.
#[tactic(auto, using(crate::proofs::WorldLaws::still, share_plans::specs::laws::PromoteStays::promote_begins))]
pub fn promote<D: Device>(
    world: &mut MetaWorld<D>,
    host: HostNo,
    file: FileNo,
    index: u32,
) -> Result<Option<Promoted>, StepNo>
    requires ready { IsReady world.old host }
    requires places { IsHost world.old host file }
    requires untold { told_of world.old.locks ≡ None }
    ensures { told_of world.new.locks ≡ None }
{
    let mut plan = PromotePlan::new(host, file, index);
    for _step in 0..13 {
        match plan.next(world) {
            Ok(None) => {}
            Ok(Some(answer)) => return Ok(Some(answer)),
            Err(why) => return Err(why),
        }
    }
    Ok(None)
}

#[tactic(auto, using(crate::proofs::WorldLaws::still, crate::proofs::UntoldLaws::stays))]
impl Worlds {
    /// A volume whose files 0 and 1 have one block each, data blocks 0 and 1, of zeros but for these last bytes of their first number. All
    /// 1,008 slots of the arena name data block 0, and it has this count, or none does.
    fn of_two(alloc: Global, bytes: [u8; 2], named: bool) -> Result<Worlds, NoMemory> {
        let mut blocks = Vec::new(alloc);
        for place in 0..GEOMETRY.total() {
            let blank = GEOMETRY.blank(place);
            let block = match GEOMETRY.kind(place) {
                Some(Kind::Table(Table::File(file))) => with(with(blank, 15, 2), 67, file + 1),
                Some(Kind::Table(Table::Group(0))) => with(counted(blank, named), 71, 1),
                Some(Kind::Table(Table::Part(0))) if named => full(blank),
                Some(Kind::Number(0)) => with(blank, 7, bytes[0]),
                Some(Kind::Number(1)) => with(blank, 7, bytes[1]),
                _ => blank,
            };
            blocks.push(block).map_err(|_| NoMemory)?;
        }
        Worlds::over(alloc, blocks)
    }

    // Whether the host holds the file of the source, or the volume has the slot.
    fn has_source(&self, host: HostNo, source: &Place) -> bool
        ensures { IsTrue result → HasSource self.now.world host source.now }
    {
        match source {
            Place::File(file, _) => self.is_writer(host, *file),
            Place::Arena(slot) => *slot < self.world.locks().geometry().arena_slots(),
        }
    }

    // Whether the volume has the lock, which is of a part or of a group.
    fn is_shared(&self, what: Resource) -> bool
        ensures has { IsTrue result → HasResource self.now.world.locks.geometry what }
        ensures shared { IsTrue result → IsShared what }
    {
        match what {
            Resource::File(_) => false,
            Resource::Part(part) => part < self.world.locks().geometry().parts,
            Resource::Group(group) => group < self.world.locks().geometry().groups,
        }
    }

    /// Shares the block of a file that the host holds.
    fn share(
        &mut self,
        host: HostNo,
        file: FileNo,
        index: u32,
        source: Place,
    ) -> Asked<Option<Shared>> {
        if !self.is_ready(host) || !self.is_writer(host, file) || !self.has_source(host, &source) {
            return None;
        }
        Some(share(&mut self.world, host, file, index, source))
    }

    /// Takes the lock of a part or a group.
    fn hold(&mut self, host: HostNo, what: Resource) -> Asked<Got> {
        if !self.is_joined(host) || !self.is_shared(what) {
            return None;
        }
        if self.world.locks().holds(host, what) {
            return None;
        }
        Some(self.world.locks_mut().try_lock(host, what))
    }

    /// Collects the slots of a part of the volume.
    fn collect(&mut self, host: HostNo, part: u8) -> Option<Answer> {
        if !self.is_ready(host) || part >= self.world.locks().geometry().parts {
            return None;
        }
        collect(&mut self.world, host, part, 20)
    }

    /// Promotes the block of a file that the host holds.
    fn promote(&mut self, host: HostNo, file: FileNo, index: u32) -> Asked<Option<Promoted>> {
        if !self.is_ready(host) || !self.is_writer(host, file) {
            return None;
        }
        Some(promote(&mut self.world, host, file, index))
    }
}

// A table whose first number is 1,008 or 1.
fn counted(blank: Block, many: bool) -> Block {
    if many {
        with(with(blank, 66, 3), 67, 240)
    } else {
        with(blank, 67, 1)
    }
}

// A block with another byte.
fn with(block: Block, at: usize, byte: u8) -> Block
    requires { at < 4096 }
{
    let mut other = block;
    other.0[at] = byte;
    other
}

type Answered<T> = Asked<Option<T>>;

fn shared(answer: Shared) -> Answered<Shared> {
    Some(Ok(Some(answer)))
}

fn promoted(answer: Promoted) -> Answered<Promoted> {
    Some(Ok(Some(answer)))
}

// Two hosts, of which the first holds both files.
fn held(rt: &impl Abort, worlds: &mut Worlds) {
    joined(rt, worlds);
    expect(rt, worlds.take_write(0, 0), Some(Ok(Came::Taken)));
    expect(rt, worlds.take_write(0, 1), Some(Ok(Came::Taken)));
}

// Tables of files stand from place 12 on, of groups from 14, and that of the part at 16; journals from 4, data blocks from 23. The locks are
// at 9 of the part, and from 10 on of groups. These are the calls of a promotion, of a link to its slot, and of each other answer behind them.
const PROMOTED: [Call; 35] = [
    Swap(7),
    Swap(8),
    Read(12),
    Swap(9),
    Read(16),
    Swap(10),
    Read(14),
    Write(4),
    Write(16),
    Write(12),
    Write(14),
    Write(4),
    Write(10),
    Write(9),
    Read(12),
    Read(13),
    Read(16),
    Swap(10),
    Read(16),
    Read(23),
    Read(24),
    Read(14),
    Write(4),
    Write(13),
    Write(14),
    Write(4),
    Write(10),
    Read(13),
    Read(16),
    Read(13),
    Read(16),
    Read(13),
    Read(13),
    Swap(10),
    Read(14),
];

// A block is promoted, and another file is linked to its slot, whose own block is free then.
#[test]
fn a_block_is_promoted_and_linked_to(rt: HostRuntime) -> Result<(), Fail> {
    let mut worlds = Worlds::of_two(rt.alloc(), [6, 6], false)?;
    held(&rt, &mut worlds);
    expect(
        &rt,
        worlds.promote(0, 0, 0),
        promoted(Promoted::Promoted(0)),
    );
    expect(&rt, worlds.promote(0, 0, 0), promoted(Promoted::Marked));
    expect(
        &rt,
        worlds.share(0, 1, 0, Place::Arena(0)),
        shared(Shared::Linked),
    );
    expect(
        &rt,
        worlds.share(0, 1, 0, Place::Arena(0)),
        shared(Shared::Already),
    );
    expect(
        &rt,
        worlds.share(0, 1, 0, Place::Arena(1)),
        shared(Shared::NoSource),
    );
    expect(
        &rt,
        worlds.share(0, 1, 1, Place::Arena(0)),
        shared(Shared::Hole),
    );
    expect(&rt, worlds.promote(0, 1, 1), promoted(Promoted::Hole));
    expect(&rt, worlds.search(0), Some(Ok(Sought::Found(1))));
    made(&rt, worlds, &PROMOTED);
    Ok(())
}

// The calls of a link to a file's block without the mark, of each other answer, and of a search behind them.
const LINKED: [Call; 21] = [
    Swap(7),
    Swap(8),
    Read(13),
    Read(12),
    Read(13),
    Read(12),
    Swap(10),
    Read(23),
    Read(24),
    Read(14),
    Write(4),
    Write(13),
    Write(12),
    Write(14),
    Write(4),
    Write(10),
    Read(13),
    Read(12),
    Read(12),
    Swap(10),
    Read(14),
];

// A file's block without the mark gets it, and is shared from then on.
#[test]
fn a_block_is_linked_to_another_file(rt: HostRuntime) -> Result<(), Fail> {
    let mut worlds = Worlds::of_two(rt.alloc(), [6, 6], false)?;
    held(&rt, &mut worlds);
    expect(
        &rt,
        worlds.share(0, 1, 0, Place::File(0, 1)),
        shared(Shared::NoSource),
    );
    expect(
        &rt,
        worlds.share(0, 1, 0, Place::File(0, 0)),
        shared(Shared::Linked),
    );
    expect(
        &rt,
        worlds.share(0, 1, 0, Place::File(0, 0)),
        shared(Shared::Already),
    );
    expect(&rt, worlds.promote(0, 0, 0), promoted(Promoted::Marked));
    expect(&rt, worlds.search(0), Some(Ok(Sought::Found(1))));
    made(&rt, worlds, &LINKED);
    Ok(())
}

// Each slot of the part names data block 0, and file 1 has another block, which differs from it at byte 7. No slot can be emptied.
#[test]
fn a_full_part_and_other_bytes(rt: HostRuntime) -> Result<(), Fail> {
    let mut worlds = Worlds::of_two(rt.alloc(), [1, 2], true)?;
    held(&rt, &mut worlds);
    expect(&rt, worlds.promote(0, 1, 0), promoted(Promoted::PartFull));
    expect(
        &rt,
        worlds.share(0, 1, 0, Place::Arena(5)),
        shared(Shared::Differs(7)),
    );
    expect(&rt, worlds.collect(0, 0), Some(Answer::Collected(0)));
    let calls = [
        Swap(7),
        Swap(8),
        Read(13),
        Swap(9),
        Read(16),
        Write(9),
        Read(13),
        Read(16),
        Swap(10),
        Read(16),
        Read(23),
        Read(24),
        Write(10),
        Swap(9),
        Read(16),
        Swap(10),
        Read(14),
        Write(10),
        Write(9),
    ];
    made(&rt, worlds, &calls);
    Ok(())
}

// The lock of the slot's part is another host's, and no link needs it. That of the group is needed.
#[test]
fn a_link_needs_no_lock_of_the_part(rt: HostRuntime) -> Result<(), Fail> {
    let mut worlds = Worlds::of_two(rt.alloc(), [6, 6], false)?;
    joined(&rt, &mut worlds);
    expect(&rt, worlds.take_write(0, 0), Some(Ok(Came::Taken)));
    expect(&rt, worlds.take_write(1, 1), Some(Ok(Came::Taken)));
    expect(
        &rt,
        worlds.promote(0, 0, 0),
        promoted(Promoted::Promoted(0)),
    );
    expect(&rt, worlds.hold(0, Resource::Part(0)), Some(Ok(Got::Got)));
    expect(
        &rt,
        worlds.promote(1, 1, 0),
        promoted(Promoted::Busy(FIRST)),
    );
    expect(
        &rt,
        worlds.share(1, 1, 0, Place::Arena(0)),
        shared(Shared::Linked),
    );
    expect(&rt, worlds.hold(0, Resource::Group(0)), Some(Ok(Got::Got)));
    expect(
        &rt,
        worlds.share(1, 1, 0, Place::Arena(0)),
        shared(Shared::Already),
    );
    Ok(())
}

#[test]
fn a_link_waits_for_no_group(rt: HostRuntime) -> Result<(), Fail> {
    let mut worlds = Worlds::of_two(rt.alloc(), [6, 6], true)?;
    joined(&rt, &mut worlds);
    expect(&rt, worlds.take_write(1, 1), Some(Ok(Came::Taken)));
    expect(&rt, worlds.hold(0, Resource::Group(0)), Some(Ok(Got::Got)));
    expect(
        &rt,
        worlds.share(1, 1, 0, Place::Arena(0)),
        shared(Shared::Busy(FIRST)),
    );
    made(
        &rt,
        worlds,
        &[Swap(8), Swap(10), Read(13), Read(16), Found(10)],
    );
    Ok(())
}
