// A journal block, which holds a record or none.
ghost use Rattle.std.specs.Prelude.{◌≡◌, ◌≤◌, ◌+◌, ◌*◌, ◌^◌, ◌<◌, ◌++◌, ℕ, List, [], All, IfNone, IfSome, codes, length};
ghost use Rattle.std.specs.List.{flat_map};
ghost use Rattle.vol_base.specs.Bytes.{bytes_of, zeros};
ghost use Rattle.vol_layout.specs.Edits.{IsEdit};
ghost use Rattle.vol_layout.specs.Journal.{SpellsJournal, edit_bytes, journal_bytes};
ghost use Rattle.vol_layout.specs.Ranges.{IsGeometry};
ghost use Rattle.vol_layout.specs.declared.field.Edit.{Edit};
ghost use Rattle.vol_layout.specs.declared.geometry.Geometry.{Geometry};
ghost use Rattle.journal_block.specs.JournalRecord.{entry_edits, entry_key, entry_of};

use crate::edit::{edit_in, push_edit};
use crate::record::Record;
use vol_base::{Block, Draft, Key};
use vol_layout::{Edit, Geometry};

const MAGIC: [u8; 8] = *b"DEDEJRNL";

/// What a journal block spells: no record, or a record whose fields the volume has, with numbers that
/// may stand there. It is `None` exactly where the block is not the one spelling of such.
pub fn read_journal(block: &Block, geometry: &Geometry) -> Option<Option<Record>>
    requires { IsGeometry geometry.now }
    ensures spelled { IfSome result (λ entry. SpellsJournal geometry.now block.now.0 (entry_key entry) (entry_edits entry)) }
    ensures only { (key : ℕ) (es : List Edit) → SpellsJournal geometry.now block.now.0 key es → result ≡ Some (entry_of key es) }
    ensures none { IfNone result ((key : ℕ) (es : List Edit) → SpellsJournal geometry.now block.now.0 key es → ⊥) }
{
    let entry = candidate(block, geometry)?;
    if write_journal(entry.as_ref()).same(block) {
        Some(entry)
    } else {
        None
    }
}

/// The block of a record, or of none. Where the record is in range of a geometry, this block alone reads
/// as it there.
pub fn write_journal(entry: Option<&Record>) -> Block
    ensures empty { IfNone entry.entry (result.0 ≡ journal_bytes 0 []) }
    ensures bytes { IfSome entry.entry (λ r. result.0 ≡ journal_bytes r.now.key r.now.edits) }
    ensures reads_empty { IfNone entry.entry ((g : Geometry) → SpellsJournal g result.0 0 []) }
    ensures reads { IfSome entry.entry (λ r. (g : Geometry) → All (IsEdit g) r.now.edits → SpellsJournal g result.0 r.now.key r.now.edits) }
{
    match entry {
        None => written(0, &[]).finish(),
        Some(record) => written(record.key().0, record.edits()).finish(),
    }
}

// What the places of a journal's numbers hold: the record that the block spells, if any.
fn candidate(block: &Block, geometry: &Geometry) -> Option<Option<Record>>
    requires { IsGeometry geometry.now }
    ensures range { IfSome result (λ entry. All (IsEdit geometry.now) (entry_edits entry)) }
    ensures spelled { (key : ℕ) (es : List Edit) → SpellsJournal geometry.now block.now.0 key es → result ≡ Some (entry_of key es) }
{
    let count = block.u32_at(8);
    if count == 0 {
        return Some(None);
    }
    if count > 8 {
        return None;
    }
    let first = edit_in(block, 64, geometry)?;
    let mut record = Record::new(Key(block.u64_at(16)), first);
    for k in 1..count {
        let edit = edit_in(block, 64 + 16 * k as usize, geometry)?;
        record.add(edit)?;
    }
    Some(Some(record))
}

// All of a journal block that is not zeros at its end.
fn written(key: u64, edits: &[Edit]) -> Draft
    requires { length edits.now ≤ 8 }
    ensures bytes { result ≡ codes "DEDEJRNL" ++ bytes_of 4 (length edits.now) ++ zeros 4 ++ bytes_of 8 key ++ zeros 40 ++ flat_map edit_bytes edits.now }
    ensures long { length result ≡ 64 + 16 * length edits.now }
    ensures width { key < 2 ^ 64 }
{
    let mut draft = Draft::new();
    draft.push_bytes(&MAGIC);
    draft.push_u32(edits.len() as u32);
    draft.skip_to(16);
    draft.push_u64(key);
    draft.skip_to(64);
    for edit in edits {
        push_edit(&mut draft, edit);
    }
    draft
}
