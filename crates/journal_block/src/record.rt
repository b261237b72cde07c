// A list of edits under one key.
ghost use Rattle.std.specs.Prelude.{◌≡◌, ◌<◌, ◌≤◌, ◌↔◌, ◌⊎◌, [], ◌∷◌, ◌++◌, IfNone, IsNone, IsTrue, OnSome, length, slice_get};
ghost use Rattle.vol_layout.specs.Edits.{touches};
ghost use Rattle.journal_block.specs.JournalRecord.{IsJournalRecord};

use std::marker::Model;
use vol_base::Key;
use vol_layout::{Edit, Field};

/// The most edits of a record.
const MOST: u32 = 8;

/// What a host is about to do: the key under which it does it, and one to eight edits in order, no two
/// of one field.
#[derive(Clone, Debug, Drop)]
pub struct Record {
    key: Key,
    edits: [Edit; 8],
    count: u32,
}

impl Model for Record {
    ghost use Rattle.std.specs.Prelude.{◌≡◌, ◌≤◌, length, take};
    ghost use Rattle.vol_layout.specs.Edits.{AreApart};
    ghost use Rattle.journal_block.specs.JournalRecord.{JournalRecord};

    ghost Value = { JournalRecord };

    ghost view = { λ r. record { key = r.key.0; edits = take r.count r.edits } };

    ghost invariant = { λ r. (1 ≤ r.count) × (r.count ≤ 8) × (length r.edits ≡ 8) × AreApart (take r.count r.edits) };
}

impl Record {
    /// A record of one edit.
    pub fn new(key: Key, first: Edit) -> Record
        ensures { result ≡ record { key = key.0; edits = first ∷ [] } }
    {
        Record {
            key,
            edits: [first; 8],
            count: 1,
        }
    }

    /// Adds an edit behind the last one. It is `None` exactly where eight edits stand or one of them is
    /// of that field, and then nothing changed.
    pub fn add(&mut self, edit: Edit) -> Option<()>
        ensures none { IsNone result ↔ (length self.old.edits ≡ 8) ⊎ IsTrue (touches self.old.edits edit.field) }
        ensures added { OnSome result (self.new ≡ record self.old { edits = self.old.edits ++ edit ∷ [] }) }
        ensures same { IfNone result (self.new ≡ self.old) }
    {
        if self.count == MOST || self.touches(edit.field) {
            return None;
        }
        self.edits[self.count as usize] = edit;
        self.count += 1;
        Some(())
    }

    /// The key under which the edits are made.
    pub fn key(&self) -> Key
        ensures { result.0 ≡ self.now.key }
    {
        self.key
    }

    /// The number of edits.
    pub fn count(&self) -> u32
        ensures value { result ≡ length self.now.edits }
        ensures well_formed { IsJournalRecord self.now }
    {
        self.count
    }

    /// Edit `k`.
    pub fn get(&self, k: u32) -> Edit
        requires { k < length self.now.edits }
        ensures { slice_get self.now.edits k ≡ Some result }
    {
        self.edits[k as usize]
    }

    /// The edits in order.
    pub(crate) fn edits(&self) -> &[Edit]
        ensures edits { result.now ≡ self.now.edits }
        ensures well_formed { IsJournalRecord self.now }
    {
        &self.edits[..self.count as usize]
    }

    // Whether an edit is of the field.
    fn touches(&self, field: Field) -> bool
        ensures { result ≡ touches self.now.edits field }
    {
        for edit in self.edits() {
            if are_same(&edit.field, &field) {
                return true;
            }
        }
        false
    }
}

fn are_same(one: &Field, other: &Field) -> bool
    ensures { IsTrue result ↔ (one.now ≡ other.now) }
{
    one == other
}
