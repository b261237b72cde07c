// Table blocks of resources that a host may read, and its record's edits in them.
ghost use Rattle.std.specs.Prelude.{◌≡◌, ◌≢◌, ◌+◌, ◌/◌, ◌<◌, ℕ, [], IfOk, IfSome, IsNone, OnOk, None, length, true};
ghost use Rattle.disk_locks.specs.Calls.{IsSound};
ghost use Rattle.disk_locks.specs.Keys.{owner};
ghost use Rattle.disk_locks.specs.Others as locks';
ghost use Rattle.disk_locks.specs.Sure.{Sure};
ghost use Rattle.host_facts.specs.Calls.{PeeksSlot, ReadsTable};
ghost use Rattle.host_facts.specs.Facts.Fact.{RecordIs, SlotIs, TableIs};
ghost use Rattle.host_facts.specs.Knows.{Knows};
ghost use Rattle.host_facts.specs.Looks.{Looks};
ghost use Rattle.host_facts.specs.Others.{Others};
ghost use Rattle.host_facts.specs.Views.{record_at};
ghost use Rattle.host_facts.specs.Wrote.{FilesStay, HasValidImage, Wrote};
ghost use Rattle.image_view.specs.Numbers.{field};
ghost use Rattle.lock_store.specs.Calls.{WritesBlock};
ghost use Rattle.lock_store.specs.Memories.{holds, may_read};
ghost use Rattle.lock_store.specs.Views.{host_at, key_at};
ghost use Rattle.table_blocks.specs.Made.{made};
ghost use Rattle.table_blocks.specs.Tables.{IsPackingOf};
ghost use Rattle.vol_base.specs.Bytes.{IsBlock};
ghost use Rattle.vol_base.specs.Packing.{packed_bytes};
ghost use Rattle.vol_layout.specs.Fields.{HasField, IsInRange};
ghost use Rattle.vol_layout.specs.Ranges.{HasTable, per_table};

use crate::world::MetaWorld;
use journal_block::Record;
use lock_store::StepNo;
use shared_disk::Device;
use table_blocks::{make, number, table_in};
use vol_base::{Block, HostNo, Packed, SlotNo};
use vol_layout::{Field, Kind, Resource, Table};

impl<D: Device> MetaWorld<D> {
    /// Reads a table block of a resource that the host holds or reads.
    pub fn read_table(&mut self, host: HostNo, which: Table) -> Result<Packed<4>, StepNo>
        requires host { host < self.old.locks.geometry.hosts }
        requires table { HasTable self.old.locks.geometry which }
        requires may { may_read (host_at self.old.locks host) (owner which) ≡ true }
        ensures did { ReadsTable self.old.locks host which result self.new.locks }
        ensures others { Others host self.old self.new }
        ensures looked { OnOk result (Looks host self.old self.new) }
        ensures table { IfOk result (λ table. Knows self.new host (TableIs which table)) }
        ensures sound { IsSound result self.old.locks }
        ensures standing { self.new.standing ≡ self.old.standing }
    {
        self.known(host);
        self.fetch(host, which)
    }

    /// The number of a slot of the arena, as it stands in its part's table; the part's lock is not needed. Where it names a data block
    /// of a group that the host holds, it stays, and so does the block.
    pub fn peek_slot(&mut self, host: HostNo, slot: SlotNo) -> Result<u32, StepNo>
        requires host { host < self.old.locks.geometry.hosts }
        requires key { key_at self.old.locks host ≢ 0 }
        requires slot { HasField self.old.locks.geometry (Field.Slot slot) }
        ensures did { PeeksSlot self.old.locks host slot result self.new.locks }
        ensures others { Others host self.old self.new }
        ensures looked { OnOk result (Looks host self.old self.new) }
        ensures range { IfOk result (IsInRange self.old.locks.geometry (Field.Slot slot)) }
        ensures number { IfOk result (λ number. Sure self.new.locks host (λ image. field self.new.locks.geometry image (Field.Slot slot) ≡ number)) }
        ensures known { IfOk result (λ number. (d : ℕ) → number ≡ d + 1 → holds (host_at self.old.locks host) (Resource.Group (d / per_table)) ≡ true → Knows self.new host (SlotIs slot d)) }
        ensures sound { IsSound result self.old.locks }
        ensures standing { self.new.standing ≡ self.old.standing }
    {
        self.known(host);
        self.peek(host, slot)
    }

    /// Writes a table with all edits of the host's standing record in it. `kept` is the table as it stands; its resource is held.
    pub fn advance(&mut self, host: HostNo, which: Table, kept: &Packed<4>) -> Result<(), StepNo>
        requires host { host < self.old.locks.geometry.hosts }
        requires table { HasTable self.old.locks.geometry which }
        requires held { holds (host_at self.old.locks host) (owner which) ≡ true }
        requires packing { IsPackingOf self.old.locks.geometry which kept.now }
        requires known { Knows self.old host (TableIs which kept.now) }
        requires record_is { Knows self.old host (RecordIs (record_at self.old host)) }
        ensures did { WritesBlock self.old.locks host (Kind.Table which) (packed_bytes 4 (made which (record_at self.old host) kept.now)) (host_at self.old.locks host) result self.new.locks }
        ensures others { Others host self.old self.new }
        ensures valid { HasValidImage self.new }
        ensures wrote { OnOk result (Wrote host (Kind.Table which) (packed_bytes 4 (made which (record_at self.old host) kept.now)) [] None self.old self.new) }
        ensures table { OnOk result (Knows self.new host (TableIs which (made which (record_at self.old host) kept.now))) }
        ensures files { FilesStay self.old self.new }
        ensures standing { self.new.standing ≡ self.old.standing }
    {
        self.known(host);
        let block = self.edited(host, which, kept);
        let done = self.put(host, Kind::Table(which), &block);
        self.known(host);
        done
    }

    // The block of a table with the edits of the host's record made in it.
    fn edited(&self, host: HostNo, which: Table, kept: &Packed<4>) -> Block
        requires host { host < self.now.locks.geometry.hosts }
        requires key { key_at self.now.locks host ≢ 0 }
        requires long { length kept.now.entries ≡ per_table }
        ensures bytes { result.0 ≡ packed_bytes 4 (made which (record_at self.now host) kept.now) }
        ensures block { IsBlock result.0 }
    {
        let mut table = copy(kept);
        if let Some(entry) = self.record(host) {
            make(entry, which, &mut table);
        }
        table.into_block()
    }

    // The record of the host in memory, where it is one under the host's key.
    fn record(&self, host: HostNo) -> Option<&Record>
        requires host { host < self.now.locks.geometry.hosts }
        requires key { key_at self.now.locks host ≢ 0 }
        ensures some { IfSome result (λ entry. entry.now.edits ≡ record_at self.now host) }
        ensures none { IsNone result → record_at self.now host ≡ [] }
    {
        self.known(host);
        let key = self.locks.key_of(host).unwrap();
        match &self.standing[host as usize] {
            Some(entry) => {
                if entry.key().0 == key.0 {
                    Some(entry)
                } else {
                    None
                }
            }
            None => None,
        }
    }

    // Reads the number of a slot.
    fn peek(&mut self, host: HostNo, slot: SlotNo) -> Result<u32, StepNo>
        requires host { host < self.old.locks.geometry.hosts }
        requires key { key_at self.old.locks host ≢ 0 }
        requires slot { HasField self.old.locks.geometry (Field.Slot slot) }
        ensures did { PeeksSlot self.old.locks host slot result self.new.locks }
        ensures others { locks'.Others host self.old.locks self.new.locks }
        ensures sound { IsSound result self.old.locks }
        ensures standing { self.new.standing ≡ self.old.standing }
    {
        let field = Field::Slot(slot);
        let which = self.locks.geometry().table_of(&field);
        match self.fetch(host, which) {
            Ok(table) => Ok(number(&table, &field)),
            Err(cause) => Err(cause),
        }
    }

    // Reads a table block.
    pub(crate) fn fetch(&mut self, host: HostNo, which: Table) -> Result<Packed<4>, StepNo>
        requires host { host < self.old.locks.geometry.hosts }
        requires key { key_at self.old.locks host ≢ 0 }
        requires table { HasTable self.old.locks.geometry which }
        ensures did { ReadsTable self.old.locks host which result self.new.locks }
        ensures others { locks'.Others host self.old.locks self.new.locks }
        ensures sound { IsSound result self.old.locks }
        ensures standing { self.new.standing ≡ self.old.standing }
    {
        self.known(host);
        let kind = Kind::Table(which);
        let block = self.get(host, kind)?;
        match table_in(self.locks.geometry(), which, block) {
            Some(table) => Ok(table),
            None => Err(self.bad(host, kind)),
        }
    }
}

fn copy(table: &Packed<4>) -> Packed<4>
    ensures { result ≡ table.now }
{
    table.clone().unwrap()
}
