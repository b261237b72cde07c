// The record of a host: committed to its journal, and taken out again once its edits are written.
ghost use Rattle.std.specs.Prelude.{◌≡◌, ◌≢◌, ◌<◌, ℕ, [], All, OnErr, OnOk, None, Some, true};
ghost use Rattle.disk_locks.specs.Others as locks';
ghost use Rattle.disk_locks.specs.Sure.{Sure};
ghost use Rattle.host_facts.specs.Facts.Fact.{RecordIs};
ghost use Rattle.host_facts.specs.Knows.{Knows};
ghost use Rattle.host_facts.specs.Others.{Others};
ghost use Rattle.host_facts.specs.Records.{IsApplied};
ghost use Rattle.host_facts.specs.Views.{standing_at};
ghost use Rattle.host_facts.specs.Wrote.{FilesStay, HasValidImage, Wrote};
ghost use Rattle.image_view.specs.Records.{IsRecord};
ghost use Rattle.lock_store.specs.Calls.{WritesBlock};
ghost use Rattle.lock_store.specs.Views.{host_at, key_at};
ghost use Rattle.meta_world.specs.MayPut.{MayPut};
ghost use Rattle.vol_layout.specs.Edits.{IsEdit};
ghost use Rattle.vol_layout.specs.Journal.{journal_bytes};

use crate::world::MetaWorld;
use journal_block::{Record, write_journal};
use lock_store::StepNo;
use shared_disk::Device;
use vol_base::{Block, HostNo};
use vol_layout::Kind;

impl<D: Device> MetaWorld<D> {
    /// Writes a record into the host's empty journal: from then on its edits count. Each is in range and of a resource that the host
    /// holds, and counts and marks are right with all of them made.
    pub fn commit(&mut self, host: HostNo, entry: &Record) -> Result<(), StepNo>
        requires host { host < self.old.locks.geometry.hosts }
        requires key { entry.now.key ≡ key_at self.old.locks host }
        requires edits { All (IsEdit self.old.locks.geometry) entry.now.edits }
        requires empty { Knows self.old host (RecordIs []) }
        requires may { Sure self.old.locks host (λ image. IsRecord self.old.locks.geometry image entry.now.key entry.now.edits) }
        ensures did { WritesBlock self.old.locks host (Kind.Journal host) (journal_bytes entry.now.key entry.now.edits) (host_at self.old.locks host) result self.new.locks }
        ensures others { Others host self.old self.new }
        ensures valid { HasValidImage self.new }
        ensures wrote { OnOk result (Wrote host (Kind.Journal host) (journal_bytes entry.now.key entry.now.edits) entry.now.edits None self.old self.new) }
        ensures stands { OnOk result (Knows self.new host (RecordIs entry.now.edits)) }
        ensures standing { OnOk result (standing_at self.new host ≡ Some entry.now) }
        ensures files { OnErr result (FilesStay self.old self.new) }
        ensures same { OnErr result (self.new.standing ≡ self.old.standing) }
    {
        self.known(host);
        // A record has an edit: its journal is not empty.
        let _count = entry.count();
        let done = self.enter(host, &write_journal(Some(entry)), Some(copy(entry)));
        self.known(host);
        done
    }

    /// Writes the journal of a joined host empty, once every edit of its record is written.
    pub fn finish(&mut self, host: HostNo) -> Result<(), StepNo>
        requires host { host < self.old.locks.geometry.hosts }
        requires joined { (host_at self.old.locks host).joined ≡ true }
        requires applied { Sure self.old.locks host (IsApplied self.old.locks.geometry host) }
        ensures did { WritesBlock self.old.locks host (Kind.Journal host) (journal_bytes 0 []) (host_at self.old.locks host) result self.new.locks }
        ensures others { Others host self.old self.new }
        ensures valid { HasValidImage self.new }
        ensures wrote { OnOk result (Wrote host (Kind.Journal host) (journal_bytes 0 []) [] None self.old self.new) }
        ensures empty { OnOk result (Knows self.new host (RecordIs [])) }
        ensures standing { OnOk result (standing_at self.new host ≡ None) }
        ensures files { FilesStay self.old self.new }
        ensures same { OnErr result (self.new.standing ≡ self.old.standing) }
    {
        self.known(host);
        let done = self.enter(host, &write_journal(None), None);
        self.known(host);
        done
    }

    // Writes the host's journal, and keeps in memory what then stands there.
    fn enter(&mut self, host: HostNo, block: &Block, entry: Option<Record>) -> Result<(), StepNo>
        requires host { host < self.old.locks.geometry.hosts }
        requires key { key_at self.old.locks host ≢ 0 }
        requires may { MayPut self.old.locks host (Kind.Journal host) block.now.0 }
        ensures did { WritesBlock self.old.locks host (Kind.Journal host) block.now.0 (host_at self.old.locks host) result self.new.locks }
        ensures others { locks'.Others host self.old.locks self.new.locks }
        ensures apart { (x : ℕ) → x ≢ host → standing_at self.new x ≡ standing_at self.old x }
        ensures standing { OnOk result (standing_at self.new host ≡ entry) }
        ensures same { OnErr result (self.new.standing ≡ self.old.standing) }
    {
        self.known(host);
        let done = self.put(host, Kind::Journal(host), block);
        if done.is_ok() {
            self.standing[host as usize] = entry;
        }
        done
    }
}

fn copy(entry: &Record) -> Record
    ensures { result ≡ entry.now }
{
    entry.clone().unwrap()
}
