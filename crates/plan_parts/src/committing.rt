// The commit of a transaction's record.
ghost use Rattle.std.specs.Prelude.{◌≡◌, ◌<◌, All, IfErr, OnOk, [], map};
ghost use Rattle.host_facts.specs.Facts.Fact.{RecordIs};
ghost use Rattle.host_facts.specs.Knows.{Knows};
ghost use Rattle.host_facts.specs.Others.{Others};
ghost use Rattle.image_view.specs.Records.{IsRecord};
ghost use Rattle.disk_locks.specs.Sure.{Sure};
ghost use Rattle.lock_store.specs.Views.{key_at};
ghost use Rattle.plan_parts.specs.Commits.{Committed};
ghost use Rattle.plan_parts.specs.Cuts.{IsCut};
ghost use Rattle.plan_parts.specs.KeptTables.{AreKept};
ghost use Rattle.plan_parts.specs.MadeCalls.{CommittedSo};
ghost use Rattle.plan_parts.specs.TableOrder.{tables_of};
ghost use Rattle.plan_parts.specs.declared.kept.Kept.{Kept};
ghost use Rattle.vol_layout.specs.Edits.{IsEdit};

use crate::kepts::Kepts;
use journal_block::Record;
use lock_store::StepNo;
use meta_world::MetaWorld;
use shared_disk::Device;
use vol_base::HostNo;

/// Writes the record into the host's empty journal. The tables of its edits are kept, in the order in which they are then written.
pub fn commit<D: Device>(
    world: &mut MetaWorld<D>,
    host: HostNo,
    entry: &Record,
    left: &Kepts,
) -> Result<(), StepNo>
    requires host { host < world.old.locks.geometry.hosts }
    requires key { entry.now.key ≡ key_at world.old.locks host }
    requires edits { All (IsEdit world.old.locks.geometry) entry.now.edits }
    requires empty { Knows world.old host (RecordIs []) }
    requires may { Sure world.old.locks host (λ image. IsRecord world.old.locks.geometry image entry.now.key entry.now.edits) }
    requires kept { AreKept world.old host left.now }
    requires order { map (λ (k : Kept). k.which) left.now ≡ tables_of entry.now.edits }
    ensures went { OnOk result (Committed host world.old world.new entry.now left.now) }
    ensures so { OnOk result (CommittedSo host world.old world.new entry.now) }
    ensures cut { IfErr result (IsCut host world.old world.new) }
    ensures others { Others host world.old world.new }
{
    let _count = entry.count();
    match world.commit(host, entry) {
        Ok(()) => Ok(()),
        Err(why) => Err(why),
    }
}
