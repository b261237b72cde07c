// The steps of a promotion, one device call each.
ghost use Rattle.std.specs.Prelude.{◌≡◌, ◌<◌, ◌≢◌, ◌+◌, ◌*◌, ◌∷◌, ℕ, [], IfErr, IfOk, IfSome, IsNone, None, Some, length, true};
ghost use Rattle.call_effects.specs.Promotions.{promoted};
ghost use Rattle.host_facts.specs.Others.{Others};
ghost use Rattle.image_view.specs.Pointers.{IsNumber};
ghost use Rattle.image_view.specs.declared.pointer.Number.{Number};
ghost use Rattle.plan_parts.specs.Cuts.{IsCut};
ghost use Rattle.plan_parts.specs.Searches.{HasNoZero, IsLowestZero};
ghost use Rattle.share_plans.specs.Promotions.{At, Went, behind_part, behind_spot, closed_by, ended_by, own_part};
ghost use Rattle.share_plans.specs.declared.promotion.Doing.{Doing};
ghost use Rattle.vol_layout.specs.Ranges.{IsGeometry, per_table};

use crate::closing::{Closing, rested};
use crate::linking::{add, kept, mark};
use crate::promotion::{Doing, Promoted, Promotion, Reached};
use crate::sight::{Spot, shown};
use journal_block::Record;
use lock_store::StepNo;
use meta_world::MetaWorld;
use plan_parts::{Applying, Kept, Kepts, Taken, commit, fetch};
use shared_disk::Device;
use vol_base::{DataNo, HostNo, Key, Packed, SlotNo};
use vol_layout::{Edit, Field, Geometry, PER_TABLE, Resource, Table};

/// A table of the file is read.
pub fn reads<D: Device>(
    core: &mut Promotion,
    world: &mut MetaWorld<D>,
    which: Table,
) -> Result<Reached, StepNo>
    requires stands { At world.old core.old (Doing.Reads which) }
    ensures went { IfOk result (Went world.old world.new core.old core.new (Doing.Reads which)) }
    ensures cut { IfErr result (IsCut core.old.host world.old world.new) }
    ensures others { Others core.old.host world.old world.new }
{
    let _geometry = world.locks().geometry();
    let came = fetch(world, core.host, which);
    let geometry = world.locks().geometry();
    match came {
        Ok(kept) => {
            core.tables.push(kept);
            Ok(behind_spot(shown(geometry, &core.tables, core.file, core.index)))
        }
        Err(why) => Err(why),
    }
}

// What comes next.
fn behind_spot(spot: Spot) -> Reached
    ensures { result ≡ behind_spot spot }
{
    match spot {
        Spot::Needs(which) => Reached::More(Doing::Reads(which)),
        Spot::Nothing => Reached::Answered(Promoted::Hole),
        Spot::Shows(block, shared) => {
            if shared {
                Reached::Answered(Promoted::Marked)
            } else {
                Reached::More(Doing::LocksPart(block))
            }
        }
    }
}

/// The host's own part is locked.
pub fn locks_part<D: Device>(
    core: &mut Promotion,
    world: &mut MetaWorld<D>,
    block: DataNo,
) -> Result<Reached, StepNo>
    requires stands { At world.old core.old (Doing.LocksPart block) }
    ensures went { IfOk result (Went world.old world.new core.old core.new (Doing.LocksPart block)) }
    ensures cut { IfErr result (IsCut core.old.host world.old world.new) }
    ensures others { Others core.old.host world.old world.new }
{
    let part = own_part(world.locks().geometry(), core.host);
    let came = core.taken.take(world, core.host, Resource::Part(part));
    let _geometry = world.locks().geometry();
    match came {
        Ok(busy) => match busy {
            None => Ok(Reached::More(Doing::ReadsPart(block))),
            Some(key) => Ok(ends(&core.taken, Promoted::Busy(key))),
        },
        Err(why) => Err(why),
    }
}

// The part from which a host takes slots.
fn own_part(geometry: &Geometry, host: HostNo) -> u8
    requires { IsGeometry geometry.now }
    ensures part { result ≡ own_part geometry.now host }
    ensures below { result < geometry.now.parts }
{
    host % geometry.parts
}

/// Its table is read.
pub fn reads_part<D: Device>(
    core: &Promotion,
    world: &mut MetaWorld<D>,
    block: DataNo,
) -> Result<Reached, StepNo>
    requires stands { At world.old core.now (Doing.ReadsPart block) }
    ensures went { IfOk result (Went world.old world.new core.now core.now (Doing.ReadsPart block)) }
    ensures cut { IfErr result (IsCut core.now.host world.old world.new) }
    ensures others { Others core.now.host world.old world.new }
{
    let part = own_part(world.locks().geometry(), core.host);
    let came = fetch(world, core.host, Table::Part(part));
    let _geometry = world.locks().geometry();
    match came {
        Ok(kept) => {
            let empty = first_empty(&kept.table);
            Ok(behind_part(&core.taken, block, part, kept, empty))
        }
        Err(why) => Err(why),
    }
}

#[tactic(auto, unfolding(vol_layout::specs::Ranges::per_table))]
fn behind_part(taken: &Taken, block: DataNo, part: u8, kept: Kept, empty: Option<u32>) -> Reached
    requires small { part < 16 }
    requires below { IfSome empty (λ entry. entry < per_table) }
    ensures { result ≡ behind_part taken.now block part kept empty }
{
    match empty {
        Some(entry) => {
            let slot = PER_TABLE * u32::from(part) + entry;
            Reached::More(Doing::LocksGroup(block, slot, kept))
        }
        None => ends(taken, Promoted::PartFull),
    }
}

// The lowest empty slot of a part.
#[tactic(auto, unfolding(vol_layout::specs::Ranges::per_table))]
fn first_empty(table: &Packed<4>) -> Option<u32>
    requires { length table.now.entries ≡ per_table }
    ensures some { IfSome result (IsLowestZero table.now) }
    ensures none { IsNone result → HasNoZero table.now }
{
    for entry in 0..PER_TABLE {
        if table.number(entry) == 0 {
            return Some(entry);
        }
    }
    None
}

/// The group of the data block is locked.
pub fn locks_group<D: Device>(
    core: &mut Promotion,
    world: &mut MetaWorld<D>,
    block: DataNo,
    slot: SlotNo,
    part: Kept,
) -> Result<Reached, StepNo>
    requires stands { At world.old core.old (Doing.LocksGroup block slot part) }
    ensures went { IfOk result (Went world.old world.new core.old core.new (Doing.LocksGroup block slot part)) }
    ensures cut { IfErr result (IsCut core.old.host world.old world.new) }
    ensures others { Others core.old.host world.old world.new }
{
    let what = world.locks().geometry().resource_of(&Field::Count(block));
    let came = core.taken.take(world, core.host, what);
    let _geometry = world.locks().geometry();
    match came {
        Ok(busy) => match busy {
            None => Ok(Reached::More(Doing::ReadsGroup(block, slot, part))),
            Some(key) => Ok(ends(&core.taken, Promoted::Busy(key))),
        },
        Err(why) => Err(why),
    }
}

/// Its table is read.
pub fn reads_group<D: Device>(
    core: &Promotion,
    world: &mut MetaWorld<D>,
    block: DataNo,
    slot: SlotNo,
    part: Kept,
) -> Result<Reached, StepNo>
    requires stands { At world.old core.now (Doing.ReadsGroup block slot part) }
    ensures went { IfOk result (Went world.old world.new core.now core.now (Doing.ReadsGroup block slot part)) }
    ensures cut { IfErr result (IsCut core.now.host world.old world.new) }
    ensures others { Others core.now.host world.old world.new }
{
    let which = world.locks().geometry().table_of(&Field::Count(block));
    let came = fetch(world, core.host, which);
    let _geometry = world.locks().geometry();
    match came {
        Ok(group) => Ok(Reached::More(Doing::Commits(block, slot, part, group))),
        Err(why) => Err(why),
    }
}

/// The record of the promotion is written.
pub fn commits<D: Device>(
    core: &Promotion,
    world: &mut MetaWorld<D>,
    block: DataNo,
    slot: SlotNo,
    part: Kept,
    group: Kept,
) -> Result<Reached, StepNo>
    requires stands { At world.old core.now (Doing.Commits block slot part group) }
    ensures went { IfOk result (Went world.old world.new core.now core.now (Doing.Commits block slot part group)) }
    ensures cut { IfErr result (IsCut core.now.host world.old world.new) }
    ensures others { Others core.now.host world.old world.new }
{
    let geometry = world.locks().geometry();
    let key = world.locks().key_of(core.host).unwrap();
    let entry = entry_of(core, key, block, slot);
    let which = geometry.table_of(&Field::Pointer(core.file, core.index));
    let pointers = kept(&core.tables, which);
    let left = Kepts::new(Some(part), Some(pointers), Some(group), None);
    let came = commit(world, core.host, &entry, &left);
    let _geometry = world.locks().geometry();
    match came {
        Ok(()) => {
            let applying = Applying { entry, left };
            Ok(Reached::More(Doing::Closes(Closing::Applies(applying), Promoted::Promoted(slot))))
        }
        Err(why) => Err(why),
    }
}

// The slot names the data block, the pointer gets the mark, and the count comes to be 2.
fn entry_of(core: &Promotion, key: Key, block: DataNo, slot: SlotNo) -> Record
    requires { IsNumber (Number.At block true) }
    ensures { result ≡ record { key = key.0; edits = promoted slot core.now.file core.now.index block } }
{
    let named = Edit {
        field: Field::Slot(slot),
        number: block + 1,
    };
    let mut entry = Record::new(key, named);
    add(&mut entry, mark(core.file, core.index, block));
    add(
        &mut entry,
        Edit {
            field: Field::Count(block),
            number: 2,
        },
    );
    entry
}

/// One step towards the end of the transaction.
pub fn closes<D: Device>(
    core: &mut Promotion,
    world: &mut MetaWorld<D>,
    closing: Closing,
    answer: Promoted,
) -> Result<Reached, StepNo>
    requires stands { At world.old core.old (Doing.Closes closing answer) }
    ensures went { IfOk result (Went world.old world.new core.old core.new (Doing.Closes closing answer)) }
    ensures cut { IfErr result (IsCut core.old.host world.old world.new) }
    ensures others { Others core.old.host world.old world.new }
{
    let came = closing.next(world, core.host, &mut core.taken);
    match came {
        Ok(next) => Ok(closed(next, answer)),
        Err(why) => Err(why),
    }
}

// What comes behind a step by which the answer is known and no record stands: the locks that were taken are freed first.
fn ends(taken: &Taken, answer: Promoted) -> Reached
    ensures { result ≡ ended_by taken.now answer }
{
    closed(rested(taken), answer)
}

// What comes next, by what is left of the transaction.
fn closed(next: Option<Closing>, answer: Promoted) -> Reached
    ensures { result ≡ closed_by next answer }
{
    match next {
        None => Reached::Answered(answer),
        Some(closing) => Reached::More(Doing::Closes(closing, answer)),
    }
}
