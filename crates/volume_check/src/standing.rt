// The edits of all standing records, and the logical numbers that they leave.
ghost use Rattle.std.specs.Prelude.{◌≡◌, ◌++◌, IfOk, OnOk};
ghost use Rattle.vol_layout.specs.Fields.{HasField, IsInRange};
ghost use Rattle.journal_block.specs.JournalRecord.{entry_edits};
ghost use Rattle.image_view.specs.Found.{found};
ghost use Rattle.image_view.specs.Numbers.{logical};
ghost use Rattle.volume_check.specs.Counts.{AreStanding};
ghost use Rattle.volume_check.specs.Metadatas.{Passes};

use crate::fields::are_same;
use crate::metadata::Metadata;
use crate::records::record_of;
use journal_block::Record;
use std::alloc::Global;
use vol_base::NoMemory;
use vol_layout::{Edit, Field};

/// The edits of all standing records, by host: at most 128.
pub fn standing(alloc: Global, metadata: &Metadata) -> Result<Vec<Edit>, NoMemory>
    requires { Passes 2 metadata.now }
    ensures { IfOk result (λ edits. AreStanding metadata.now edits.items) }
{
    let mut edits = Vec::new(alloc);
    for host in 0..metadata.geometry().hosts {
        push_edits(record_of(metadata, host), &mut edits)?;
    }
    Ok(edits)
}

fn push_edits(entry: Option<Record>, edits: &mut Vec<Edit>) -> Result<(), NoMemory>
    ensures { OnOk result (edits.new.items ≡ edits.old.items ++ entry_edits entry) }
{
    match entry {
        None => Ok(()),
        Some(entry) => push_record(&entry, edits),
    }
}

fn push_record(entry: &Record, edits: &mut Vec<Edit>) -> Result<(), NoMemory>
    ensures { OnOk result (edits.new.items ≡ edits.old.items ++ entry.now.edits) }
{
    for index in 0..entry.count() {
        edits.push(entry.get(index)).map_err(|_| NoMemory)?;
    }
    Ok(())
}

/// The number that counts for a field: that of the standing edit of the field, or that in its table.
pub fn logical(metadata: &Metadata, standing: &[Edit], what: &Field) -> u32
    requires passed { Passes 2 metadata.now }
    requires standing { AreStanding metadata.now standing.now }
    requires what { HasField metadata.now.geometry what.now }
    ensures number { result ≡ logical metadata.now.geometry metadata.now.image what.now }
    ensures range { IsInRange metadata.now.geometry what.now result }
{
    match number_in(standing, what) {
        Some(number) => number,
        None => metadata.number(what),
    }
}

// The number that the first edit of the field gives it.
fn number_in(edits: &[Edit], what: &Field) -> Option<u32>
    ensures { result ≡ found edits.now what.now }
{
    for edit in edits {
        if are_same(&edit.field, what) {
            return Some(edit.number);
        }
    }
    None
}
