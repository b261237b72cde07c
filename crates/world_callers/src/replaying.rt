// A dead host's edits, made again in one table.
ghost use Rattle.std.specs.Prelude.{◌≡◌, ◌<◌, OnOk, true};
ghost use Rattle.vol_layout.specs.Edits.{touches};
ghost use Rattle.vol_layout.specs.Fields.{HasField, table_of};
ghost use Rattle.vol_layout.specs.Ranges.{HasTable};
ghost use Rattle.vol_layout.specs.declared.field.Field.{Field};
ghost use Rattle.lock_store.specs.Views.{host_at};
ghost use Rattle.host_facts.specs.Facts.{Claims};
ghost use Rattle.host_facts.specs.Facts.Fact.{DeadRecord};
ghost use Rattle.host_facts.specs.Knows.{Knows};
ghost use Rattle.host_facts.specs.Others.{Others};
ghost use Rattle.world_callers.specs.Replays.{HasReplayed};

use journal_block::Record;
use lock_store::StepNo;
use meta_world::MetaWorld;
use shared_disk::Device;
use table_blocks::make;
use vol_base::HostNo;
use vol_layout::Table;

/// Makes the edits of a dead host's record in one of the tables that it edits.
pub fn replay<D: Device>(
    world: &mut MetaWorld<D>,
    host: HostNo,
    dead: HostNo,
    which: Table,
    entry: &Record,
) -> Result<(), StepNo>
    requires host { host < world.old.locks.geometry.hosts }
    requires claims { Claims world.old.locks.geometry (host_at world.old.locks host) dead }
    requires table { HasTable world.old.locks.geometry which }
    requires known { Knows world.old host (DeadRecord dead entry.now.edits) }
    requires edited { (x : Field) × HasField world.old.locks.geometry x × (touches entry.now.edits x ≡ true) × (table_of x ≡ which) }
    ensures others { Others host world.old world.new }
    ensures replayed { OnOk result (HasReplayed world.old world.new host which entry.now.edits) }
{
    let _geometry = world.locks().geometry();
    let mut table = world.replay_read(host, which)?;
    make(entry, which, &mut table);
    world.replay_write(host, dead, which, &table)
}
