// A dead host's record, made again by the host that claimed its slot.
ghost use Rattle.std.specs.Prelude.{◌≡◌, ◌≢◌, ◌<◌, ℕ, [], IfOk, OnOk, None};
ghost use Rattle.disk_locks.specs.Calls.{IsSound};
ghost use Rattle.disk_locks.specs.Others as locks';
ghost use Rattle.disk_locks.specs.Sure.{Sure};
ghost use Rattle.host_facts.specs.Calls.{ReadsJournal, ReadsTable};
ghost use Rattle.host_facts.specs.Facts.{Claims};
ghost use Rattle.host_facts.specs.Facts.Fact.{DeadRecord};
ghost use Rattle.host_facts.specs.Knows.{Knows};
ghost use Rattle.host_facts.specs.Looks.{Looks};
ghost use Rattle.host_facts.specs.Others.{Others};
ghost use Rattle.host_facts.specs.Records.{IsApplied};
ghost use Rattle.host_facts.specs.Replays.{IsReplay, KnowsDead};
ghost use Rattle.host_facts.specs.Wrote.{FilesStay, HasValidImage, Wrote};
ghost use Rattle.journal_block.specs.JournalRecord.{entry_edits};
ghost use Rattle.lock_store.specs.Calls.{WritesBlock};
ghost use Rattle.lock_store.specs.Views.{host_at, key_at};
ghost use Rattle.vol_base.specs.Packing.{packed_bytes};
ghost use Rattle.vol_layout.specs.Journal.{journal_bytes};
ghost use Rattle.vol_layout.specs.Ranges.{HasTable};

use crate::world::MetaWorld;
use journal_block::{Record, read_journal, write_journal};
use lock_store::StepNo;
use shared_disk::Device;
use table_blocks::block_of;
use vol_base::{HostNo, Packed};
use vol_layout::{Kind, Table};

impl<D: Device> MetaWorld<D> {
    /// Reads the journal of a host whose slot is claimed; `None` exactly where it is empty.
    pub fn replay_journal(&mut self, host: HostNo, dead: HostNo) -> Result<Option<Record>, StepNo>
        requires host { host < self.old.locks.geometry.hosts }
        requires claims { Claims self.old.locks.geometry (host_at self.old.locks host) dead }
        ensures did { ReadsJournal self.old.locks host dead result self.new.locks }
        ensures others { Others host self.old self.new }
        ensures looked { OnOk result (Looks host self.old self.new) }
        ensures entry { IfOk result (λ entry. Knows self.new host (DeadRecord dead (entry_edits entry))) }
        ensures sound { IsSound result self.old.locks }
        ensures standing { self.new.standing ≡ self.old.standing }
    {
        self.known(host);
        self.journal_of(host, dead)
    }

    /// Reads a table block that a dead host's record edits.
    pub fn replay_read(&mut self, host: HostNo, which: Table) -> Result<Packed<4>, StepNo>
        requires host { host < self.old.locks.geometry.hosts }
        requires claims { (dead : ℕ) × Claims self.old.locks.geometry (host_at self.old.locks host) dead }
        requires table { HasTable self.old.locks.geometry which }
        ensures did { ReadsTable self.old.locks host which result self.new.locks }
        ensures others { Others host self.old self.new }
        ensures looked { OnOk result (Looks host self.old self.new) }
        ensures table { IfOk result (λ table. KnowsDead self.old self.new host which table) }
        ensures sound { IsSound result self.old.locks }
        ensures standing { self.new.standing ≡ self.old.standing }
    {
        self.known(host);
        self.fetch(host, which)
    }

    /// Writes a table block as it is handed in: the table as it stands, with all edits of the dead host's record made in it.
    pub fn replay_write(
        &mut self,
        host: HostNo,
        dead: HostNo,
        which: Table,
        kept: &Packed<4>,
    ) -> Result<(), StepNo>
        requires host { host < self.old.locks.geometry.hosts }
        requires claims { Claims self.old.locks.geometry (host_at self.old.locks host) dead }
        requires table { HasTable self.old.locks.geometry which }
        requires replay { IsReplay self.old host dead which kept.now }
        ensures did { WritesBlock self.old.locks host (Kind.Table which) (packed_bytes 4 kept.now) (host_at self.old.locks host) result self.new.locks }
        ensures others { Others host self.old self.new }
        ensures valid { HasValidImage self.new }
        ensures wrote { OnOk result (Wrote host (Kind.Table which) (packed_bytes 4 kept.now) [] None self.old self.new) }
        ensures table { OnOk result (KnowsDead self.old self.new host which kept.now) }
        ensures files { FilesStay self.old self.new }
        ensures standing { self.new.standing ≡ self.old.standing }
    {
        self.known(host);
        let done = self.put(host, Kind::Table(which), &block_of(kept));
        self.known(host);
        done
    }

    /// Writes the dead host's journal empty, once every edit of its record is written.
    pub fn replay_clear(&mut self, host: HostNo, dead: HostNo) -> Result<(), StepNo>
        requires host { host < self.old.locks.geometry.hosts }
        requires claims { Claims self.old.locks.geometry (host_at self.old.locks host) dead }
        requires applied { Sure self.old.locks host (IsApplied self.old.locks.geometry dead) }
        ensures did { WritesBlock self.old.locks host (Kind.Journal dead) (journal_bytes 0 []) (host_at self.old.locks host) result self.new.locks }
        ensures others { Others host self.old self.new }
        ensures valid { HasValidImage self.new }
        ensures wrote { OnOk result (Wrote host (Kind.Journal dead) (journal_bytes 0 []) [] None self.old self.new) }
        ensures empty { OnOk result (Knows self.new host (DeadRecord dead [])) }
        ensures files { FilesStay self.old self.new }
        ensures standing { self.new.standing ≡ self.old.standing }
    {
        self.known(host);
        let done = self.put(host, Kind::Journal(dead), &write_journal(None));
        self.known(host);
        done
    }

    // Reads the journal of a host.
    fn journal_of(&mut self, host: HostNo, of: HostNo) -> Result<Option<Record>, StepNo>
        requires host { host < self.old.locks.geometry.hosts }
        requires key { key_at self.old.locks host ≢ 0 }
        requires of { of < self.old.locks.geometry.hosts }
        ensures did { ReadsJournal self.old.locks host of result self.new.locks }
        ensures others { locks'.Others host self.old.locks self.new.locks }
        ensures sound { IsSound result self.old.locks }
        ensures standing { self.new.standing ≡ self.old.standing }
    {
        self.known(host);
        let kind = Kind::Journal(of);
        let block = self.get(host, kind)?;
        match read_journal(&block, self.locks.geometry()) {
            Some(entry) => Ok(entry),
            None => Err(self.bad(host, kind)),
        }
    }
}
