// The records that stand in journals, and what the third stage asks of them.
ghost use Rattle.std.specs.Prelude.{◌≡◌, ◌+◌, ◌<◌, ◌↔◌, ℕ, true, IsTrue, OnOk};
ghost use Rattle.vol_layout.specs.Edits.{touches};
ghost use Rattle.vol_layout.specs.Fields.{HasField};
ghost use Rattle.journal_block.specs.JournalRecord.{entry_edits, entry_key};
ghost use Rattle.image_view.specs.Held.{CountsEdit, HoldsField};
ghost use Rattle.image_view.specs.HostKeys.{journal_key_at};
ghost use Rattle.image_view.specs.Numbers.{journal};
ghost use Rattle.volume_check.specs.Metadatas.{Passes};
ghost use Rattle.volume_check.specs.Records.{IsRecordOf};
ghost use Rattle.volume_check.specs.SitesAt.{AddsAt};

use crate::adding::add_where;
use crate::fields::are_same;
use crate::keys::{is_held_by, shows};
use crate::metadata::Metadata;
use journal_block::{Record, read_journal};
use vol_base::{HostNo, NoMemory};
use vol_layout::{Edit, Field, Kind};
use volume_faults::{Fault, FaultKind};

/// The record that stands in a host's journal, if one does.
pub fn record_of(metadata: &Metadata, host: HostNo) -> Option<Record>
    requires passed { Passes 2 metadata.now }
    requires host { host < metadata.now.geometry.hosts }
    ensures key { entry_key result ≡ journal_key_at metadata.now.geometry metadata.now.image host }
    ensures edits { entry_edits result ≡ journal metadata.now.geometry metadata.now.image host }
{
    let journal = metadata.block(Kind::Journal(host));
    read_journal(journal, &metadata.geometry()).flatten()
}

/// Adds the faults of the record that stands in a host's journal: of its key, and then of its edits.
pub fn add_of_journal(
    metadata: &Metadata,
    host: HostNo,
    faults: &mut Vec<Fault>,
) -> Result<(), NoMemory>
    requires passed { Passes 2 metadata.now }
    requires host { host < metadata.now.geometry.hosts }
    ensures { OnOk result (AddsAt 3 metadata.now (Kind.Journal host) faults.old.items faults.new.items) }
{
    match record_of(metadata, host) {
        None => Ok(()),
        Some(entry) => add_of_record(metadata, host, &entry, faults),
    }
}

fn add_of_record(
    metadata: &Metadata,
    host: HostNo,
    entry: &Record,
    faults: &mut Vec<Fault>,
) -> Result<(), NoMemory>
    requires passed { Passes 2 metadata.now }
    requires entry { IsRecordOf metadata.now host entry.now }
    ensures { OnOk result (AddsAt 3 metadata.now (Kind.Journal host) faults.old.items faults.new.items) }
{
    let place = metadata.geometry().place(Kind::Journal(host));
    let key = entry.key();
    let shown = shows(metadata, host, key);
    let kind = FaultKind::JournalKey(key);
    add_where(!shown, Fault { place, kind }, faults)?;
    for index in 0..entry.count() {
        let right = is_borne_out(metadata, entry, &entry.get(index));
        let kind = FaultKind::JournalEdit(index);
        add_where(!right, Fault { place, kind }, faults)?;
    }
    Ok(())
}

// Whether the record's key holds the edit's resource, and the record edits the counts that go with it.
fn is_borne_out(metadata: &Metadata, entry: &Record, edit: &Edit) -> bool
    requires { HasField metadata.now.geometry edit.now.field }
    ensures { IsTrue result ↔ HoldsField metadata.now.geometry metadata.now.image entry.now.key edit.now.field × CountsEdit metadata.now.geometry metadata.now.image entry.now.edits edit.now }
{
    let resource = metadata.geometry().resource_of(&edit.field);
    is_held_by(metadata, resource, entry.key()) && has_counts(metadata, entry, edit)
}

// Whether the record edits the counts of the data numbers that a slot names before and after the edit.
fn has_counts(metadata: &Metadata, entry: &Record, edit: &Edit) -> bool
    requires { HasField metadata.now.geometry edit.now.field }
    ensures { IsTrue result ↔ CountsEdit metadata.now.geometry metadata.now.image entry.now.edits edit.now }
{
    match edit.field {
        Field::Slot(_) => {
            counts(entry, metadata.number(&edit.field)) && counts(entry, edit.number)
        }
        _ => true,
    }
}

// Whether the record edits the count of the data number that a slot's number names, if it names one.
fn counts(entry: &Record, number: u32) -> bool
    ensures { IsTrue result ↔ ((d : ℕ) → number ≡ d + 1 → touches entry.now.edits (Field.Count d) ≡ true) }
{
    number == 0 || touches(entry, &Field::Count(number - 1))
}

// Whether the record edits the field.
fn touches(entry: &Record, field: &Field) -> bool
    ensures { result ≡ touches entry.now.edits field.now }
{
    for index in 0..entry.count() {
        if are_same(&entry.get(index).field, field) {
            return true;
        }
    }
    false
}
