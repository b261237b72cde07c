// The end of a transaction: its record goes into the tables, and then its locks are freed.
ghost use Rattle.std.specs.Prelude.{◌<◌, IfErr, IfOk};
ghost use Rattle.file_plans.specs.Keeps.{KeepsWritten};
ghost use Rattle.file_plans.specs.Stands.{At};
ghost use Rattle.file_plans.specs.Went.{IsCutAt, LeavesOthers, Went};
ghost use Rattle.file_plans.specs.Turns.{IsSooner};
ghost use Rattle.file_plans.specs.declared.stage.Stage.{Stage};
ghost use Rattle.host_facts.specs.Others.{Others};
ghost use Rattle.vol_layout.specs.Ranges.{HasTable};

use crate::ending::{made, rests};
use crate::stage::Stage;
use crate::state::Core;
use held_cache::HeldCache;
use lock_store::StepNo;
use meta_world::MetaWorld;
use plan_parts::{Applied, Applying, Kept};
use shared_disk::Device;
use vol_base::{HostNo, Next, Step};
use vol_layout::Table;

/// One step of a record on its way into the tables: a table is written, or, where none is left, the empty journal.
pub fn applies<D: Device>(
    core: &mut Core,
    world: &mut MetaWorld<D>,
    cache: &mut HeldCache,
    applying: Applying,
) -> Result<(Step, Stage), StepNo>
    requires stands { At world.old cache.old core.old (Stage.Applies applying) }
    ensures went { IfOk result (λ r. Went world.old world.new cache.new core.old core.new (Stage.Applies applying) r.0 r.1) }
    ensures sooner { IfOk result (λ r. IsSooner world.old cache.old core.old (Stage.Applies applying) world.new cache.new core.new r.0.next r.1) }
    ensures cut { IfErr result (IsCutAt world.old world.new core.old (Stage.Applies applying)) }
    ensures others { Others core.old.host world.old world.new }
    ensures leaves { LeavesOthers core.old.host cache.old cache.new }
{
    let _geometry = world.locks().geometry();
    let mut left = applying;
    let came = left.next(world, core.host);
    let _geometry = world.locks().geometry();
    match came {
        Ok(Applied::Wrote(kept)) => {
            keep(cache, core.host, &kept);
            Ok((made(None, Next::More), Stage::Applies(left)))
        }
        Ok(Applied::Finished) => Ok(rests(core)),
        Err(why) => Err(why),
    }
}

// A table of a file is kept as it was written; one of a group or part is not.
fn keep(cache: &mut HeldCache, host: HostNo, kept: &Kept)
    requires host { host < cache.old.volume.hosts }
    requires table { HasTable cache.old.volume kept.now.which }
    ensures { KeepsWritten cache.old cache.new host kept.now }
{
    match kept.which {
        Table::File(_) | Table::More(_, _) => cache.keep(host, kept.which, &kept.table),
        Table::Group(_) | Table::Part(_) => {}
    }
}

/// The lock that was taken last is freed.
pub fn frees<D: Device>(
    core: &mut Core,
    world: &mut MetaWorld<D>,
    cache: &HeldCache,
) -> Result<(Step, Stage), StepNo>
    requires stands { At world.old cache.now core.old Stage.Frees }
    ensures went { IfOk result (λ r. Went world.old world.new cache.now core.old core.new Stage.Frees r.0 r.1) }
    ensures sooner { IfOk result (λ r. IsSooner world.old cache.now core.old Stage.Frees world.new cache.now core.new r.0.next r.1) }
    ensures cut { IfErr result (IsCutAt world.old world.new core.old Stage.Frees) }
    ensures others { Others core.old.host world.old world.new }
{
    let _geometry = world.locks().geometry();
    let came = core.taken.free_last(world, core.host);
    let _geometry = world.locks().geometry();
    match came {
        Ok(_freed) => Ok(rests(core)),
        Err(why) => Err(why),
    }
}
