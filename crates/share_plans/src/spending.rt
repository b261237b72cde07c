// The slots of a part whose data blocks nothing else names, and the record by which they are emptied.
ghost use Rattle.std.specs.Prelude.{◌≡◌, ◌<◌, ◌≤◌, ◌++◌, ◌∷◌, ℕ, IfSome, [], length, false, if◌then◌else◌, nat_lt};
ghost use Rattle.call_effects.specs.Collections.{freed};
ghost use Rattle.share_plans.specs.Spents.{emptying_of, freed_in, frees, gathered, is_spent, names_group, names_in, named_groups, slot_added, slots_record};
ghost use Rattle.vol_layout.specs.declared.field.Field.{Field};
ghost use Rattle.vol_layout.specs.Edits.{touches};
ghost use Rattle.vol_layout.specs.Ranges.{per_table};

use crate::collection::Emptying;
use crate::groups::Groups;
use crate::linking::add;
use journal_block::Record;
use table_blocks::number;
use vol_base::{DataNo, Key, Packed, SlotNo};
use vol_layout::{Edit, Field, PER_TABLE};

/// The groups of which a slot of the part names a data block, ascending.
pub fn named_groups(part: &Packed<4>, groups: u8) -> Groups
    requires long { length part.now.entries ≡ per_table }
    requires few { groups ≤ 64 }
    ensures { result ≡ named_groups part.now groups }
{
    let mut named = Groups::new();
    for group in (0..groups).rev() {
        if names_group(part, group) {
            named.put_first(group);
        }
    }
    named
}

// Whether a slot of the part names a data block of the group.
#[tactic(auto, unfolding(vol_layout::specs::Ranges::per_table))]
fn names_group(part: &Packed<4>, group: u8) -> bool
    requires long { length part.now.entries ≡ per_table }
    ensures { result ≡ names_group part.now group per_table }
{
    let mut found = false;
    for entry in 0..PER_TABLE {
        if names(part.number(entry), group) {
            found = true;
        }
    }
    found
}

// Whether the number of a slot names a data block of the group.
#[tactic(auto, unfolding(vol_layout::specs::Ranges::per_table))]
fn names(number: u32, group: u8) -> bool
    ensures { result ≡ names_in number group }
{
    number != 0 && (number - 1) / PER_TABLE == u32::from(group)
}

/// The record by which the first slots of the part are emptied that name data blocks of the group whose count is 1: four at most. None where
/// there is no such slot.
pub fn emptying(
    key: Key,
    part_no: u8,
    part: &Packed<4>,
    group_no: u8,
    group: &Packed<4>,
) -> Option<Emptying>
    requires part { part_no < 16 }
    requires group { group_no < 64 }
    requires long { length part.now.entries ≡ per_table }
    requires long_too { length group.now.entries ≡ per_table }
    ensures { result ≡ emptying_of key.0 part_no part.now group_no group.now }
{
    match spent_slots(key, part_no, part, group_no, group) {
        None => None,
        Some(slots) => Some(with_counts(slots, part, group_no)),
    }
}

// The edits by which these slots are emptied.
#[tactic(auto, unfolding(vol_layout::specs::Ranges::per_table))]
fn spent_slots(
    key: Key,
    part_no: u8,
    part: &Packed<4>,
    group_no: u8,
    group: &Packed<4>,
) -> Option<Record>
    requires part { part_no < 16 }
    requires long { length part.now.entries ≡ per_table }
    requires long_too { length group.now.entries ≡ per_table }
    ensures { result ≡ slots_record key.0 (gathered part_no part.now group_no group.now per_table) }
{
    let mut slots = None;
    for at in 0..PER_TABLE {
        if is_spent(part.number(at), group_no, group) {
            slots = with_slot(slots, key, PER_TABLE * u32::from(part_no) + at);
        }
    }
    slots
}

// Whether a slot with this number names a data block of the group whose count is 1.
#[tactic(auto, unfolding(vol_layout::specs::Ranges::per_table))]
fn is_spent(number: u32, group_no: u8, group: &Packed<4>) -> bool
    requires long { length group.now.entries ≡ per_table }
    ensures { result ≡ is_spent number group_no group.now }
{
    names(number, group_no) && group.number((number - 1) % PER_TABLE) == 1
}

// Adds the edit of a slot, where there are less than four.
fn with_slot(slots: Option<Record>, key: Key, slot: SlotNo) -> Option<Record>
    requires other { IfSome slots (λ entry. touches entry.edits (Field.Slot slot) ≡ false) }
    ensures { result ≡ slot_added slots key.0 slot }
{
    let emptied = Edit {
        field: Field::Slot(slot),
        number: 0,
    };
    match slots {
        None => Some(Record::new(key, emptied)),
        Some(entry) => Some(with_less_than_four(entry, emptied)),
    }
}

// Adds an edit, where there are less than four.
fn with_less_than_four(entry: Record, edit: Edit) -> Record
    requires other { touches entry.edits edit.field ≡ false }
    ensures { result ≡ (if nat_lt (length entry.edits) 4 then record entry { edits = entry.edits ++ edit ∷ [] } else entry) }
{
    let mut whole = entry;
    if whole.count() < 4 {
        add(&mut whole, edit);
    }
    whole
}

// Adds the edits of the counts that become 0.
fn with_counts(slots: Record, part: &Packed<4>, group_no: u8) -> Emptying
    requires group { group_no < 64 }
    requires long { length part.now.entries ≡ per_table }
    requires few { length slots.edits ≤ 4 }
    requires other { (d : ℕ) → touches slots.edits (Field.Count d) ≡ false }
    ensures entry { result.entry ≡ record slots { edits = slots.edits ++ freed (freed_in part.now group_no slots.edits) } }
    ensures slots { result.slots ≡ length slots.edits }
{
    let mut entry = copy(&slots);
    add_counts(&mut entry, &slots, part, group_no);
    Emptying {
        entry,
        slots: slots.count(),
    }
}

fn copy(entry: &Record) -> Record
    ensures { result ≡ entry.now }
{
    entry.clone().unwrap()
}

// Adds the counts of the group's data blocks that these slots name, ascending.
#[tactic(auto, unfolding(vol_layout::specs::Ranges::per_table))]
fn add_counts(entry: &mut Record, slots: &Record, part: &Packed<4>, group_no: u8)
    requires group { group_no < 64 }
    requires same { entry.old ≡ slots.now }
    requires long { length part.now.entries ≡ per_table }
    requires few { length slots.now.edits ≤ 4 }
    requires other { (d : ℕ) → touches slots.now.edits (Field.Count d) ≡ false }
    ensures { entry.new ≡ record slots.now { edits = slots.now.edits ++ freed (freed_in part.now group_no slots.now.edits) } }
{
    for at in 0..PER_TABLE {
        let block = PER_TABLE * u32::from(group_no) + at;
        if frees(slots, part, block) {
            let freed = Edit {
                field: Field::Count(block),
                number: 0,
            };
            add(entry, freed);
        }
    }
}

// Whether one of the slots names the data block.
fn frees(slots: &Record, part: &Packed<4>, block: DataNo) -> bool
    requires small { block < 65536 }
    requires long { length part.now.entries ≡ per_table }
    ensures { result ≡ frees part.now slots.now.edits block }
{
    let mut found = false;
    for k in (0..slots.count()).rev() {
        if number(part, &slots.get(k).field) == block + 1 {
            found = true;
        }
    }
    found
}
