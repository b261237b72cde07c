// The calls of the world on tables, records and what dead hosts left.
ghost use Rattle.std.specs.Prelude.{◌≡◌, IfSome, IsTrue, Some, true};
ghost use Rattle.disk_locks.specs.Keys.{owner};
ghost use Rattle.lock_store.specs.Memories.{holds};
ghost use Rattle.lock_store.specs.Views.{host_at};
ghost use Rattle.vol_layout.specs.Ranges.{HasTable};
ghost use Rattle.image_view.specs.Pointers.{named};
ghost use Rattle.table_blocks.specs.Tables.{IsPackingOf};

use crate::hosts::{Asked, Hosts};
use journal_block::Record;
use table_blocks::{block_of, number, table_in};
use vol_base::{DataNo, FileNo, HostNo, Packed, SlotNo};
use vol_layout::{Edit, Field, Resource, Table};
use world_callers::{punch, replay};

#[tactic(auto, using(crate::proofs::WorldLaws::still, crate::proofs::UntoldLaws::sure))]
impl Hosts {
    // Whether the host holds the resource of the table, which the volume has.
    fn holds_table(&self, host: HostNo, which: Table) -> bool
        ensures table { IsTrue result → HasTable self.now.world.locks.geometry which }
        ensures held { IsTrue result → holds (host_at self.now.world.locks host) (owner which) ≡ true }
    {
        self.has_table(which) && self.holds(host, owner_of(which))
    }

    // The packing, where the volume's table may spell it.
    fn fit(&self, which: Table, table: &Packed<4>) -> Option<Packed<4>>
        requires { HasTable self.now.world.locks.geometry which }
        ensures { IfSome result (λ fit. IsPackingOf self.now.world.locks.geometry which fit) }
    {
        table_in(self.world.locks().geometry(), which, block_of(table))
    }

    pub fn read_table(&mut self, host: HostNo, which: Table) -> Asked<Packed<4>> {
        if !self.is_joined(host) || !self.holds_table(host, which) {
            return None;
        }
        Some(self.world.read_table(host, which))
    }

    /// The number of a field, as it stands in its table.
    pub fn number(&mut self, host: HostNo, field: Field) -> Asked<u32> {
        if !self.is_joined(host) || !self.has_field(field) {
            return None;
        }
        let which = self.world.locks().geometry().table_of(&field);
        if !self.holds_table(host, which) {
            return None;
        }
        match self.world.read_table(host, which) {
            Ok(table) => Some(Ok(number(&table, &field))),
            Err(cause) => Some(Err(cause)),
        }
    }

    pub fn peek_slot(&mut self, host: HostNo, slot: SlotNo) -> Asked<u32> {
        if !self.has_key(host) || !self.has_field(Field::Slot(slot)) {
            return None;
        }
        Some(self.world.peek_slot(host, slot))
    }

    /// Commits a record of two edits.
    pub fn commit(&mut self, host: HostNo, first: Edit, second: Edit) -> Asked<()> {
        let geometry = self.world.locks().geometry();
        if !self.is_joined(host) || !geometry.is_edit(&first) || !geometry.is_edit(&second) {
            return None;
        }
        let key = self.world.locks().key_of(host)?;
        let mut entry = Record::new(key, first);
        entry.add(second)?;
        Some(self.world.commit(host, &entry))
    }

    /// Commits a record of one edit.
    pub fn commit_one(&mut self, host: HostNo, edit: Edit) -> Asked<()> {
        if !self.is_joined(host) || !self.world.locks().geometry().is_edit(&edit) {
            return None;
        }
        let key = self.world.locks().key_of(host)?;
        Some(self.world.commit(host, &Record::new(key, edit)))
    }

    pub fn advance(&mut self, host: HostNo, which: Table, kept: &Packed<4>) -> Asked<()> {
        if !self.is_joined(host) || !self.holds_table(host, which) {
            return None;
        }
        let fit = self.fit(which, kept)?;
        Some(self.world.advance(host, which, &fit))
    }

    pub fn finish(&mut self, host: HostNo) -> Asked<()> {
        if !self.is_joined(host) {
            return None;
        }
        Some(self.world.finish(host))
    }

    pub fn replay_journal(&mut self, host: HostNo, dead: HostNo) -> Asked<Option<Record>> {
        if !self.claims(host, dead) {
            return None;
        }
        Some(self.world.replay_journal(host, dead))
    }

    /// Makes the edits of a dead host's record in the table of edit `k`.
    pub fn replay(&mut self, host: HostNo, dead: HostNo, entry: &Record, k: u32) -> Asked<()> {
        if !self.claims(host, dead) || entry.count() <= k {
            return None;
        }
        let field = entry.get(k).field;
        if !self.has_field(field) {
            return None;
        }
        let which = self.world.locks().geometry().table_of(&field);
        Some(replay(&mut self.world, host, dead, which, entry))
    }

    pub fn replay_clear(&mut self, host: HostNo, dead: HostNo) -> Asked<()> {
        if !self.claims(host, dead) {
            return None;
        }
        Some(self.world.replay_clear(host, dead))
    }

    /// Makes a hole of the file's pointer to the data block, which has no mark.
    pub fn punch(
        &mut self,
        host: HostNo,
        file: FileNo,
        index: u32,
        block: DataNo,
        pointers: &Packed<4>,
        counts: &Packed<4>,
    ) -> Asked<()> {
        let pointer = Field::Pointer(file, index);
        let count = Field::Count(block);
        if !self.is_joined(host) || !self.has_field(pointer) || !self.has_field(count) {
            return None;
        }
        let geometry = self.world.locks().geometry();
        let pointer_table = geometry.table_of(&pointer);
        let count_table = geometry.table_of(&count);
        if !self.holds_table(host, pointer_table) || !self.holds_table(host, count_table) {
            return None;
        }
        let pointers = self.fit(pointer_table, pointers)?;
        let counts = self.fit(count_table, counts)?;
        if !names(number(&pointers, &pointer), block) {
            return None;
        }
        Some(punch(
            &mut self.world,
            host,
            file,
            index,
            block,
            &pointers,
            &counts,
        ))
    }
}

// Whether the pointer is the data block's number without the mark.
fn names(pointer: u32, block: DataNo) -> bool
    ensures { IsTrue result → named pointer ≡ Some block }
{
    pointer < 1 << 31 && pointer.checked_sub(1) == Some(block)
}

fn owner_of(which: Table) -> Resource
    ensures { result ≡ owner which }
{
    match which {
        Table::File(file) | Table::More(file, _) => Resource::File(file),
        Table::Group(group) => Resource::Group(group),
        Table::Part(part) => Resource::Part(part),
    }
}
