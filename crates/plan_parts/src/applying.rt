// A record that was committed, on its way into the tables.
ghost use Rattle.std.specs.Prelude.{◌≡◌, ◌<◌, ◌∷◌, [], IfErr, IfOk, length};
ghost use Rattle.table_blocks.specs.Made.{made};
ghost use Rattle.vol_layout.specs.Ranges.{per_table};
ghost use Rattle.host_facts.specs.Others.{Others};
ghost use Rattle.plan_parts.specs.Applies.{IsApplying, Went};
ghost use Rattle.plan_parts.specs.Cuts.{IsCut};
ghost use Rattle.plan_parts.specs.MadeCalls.{AppliedSo};

use crate::kept::Kept;
use crate::kepts::Kepts;
use journal_block::Record;
use lock_store::StepNo;
use meta_world::MetaWorld;
use shared_disk::Device;
use table_blocks::make;
use vol_base::HostNo;

/// What one step did: it wrote a table, which then has all edits of the record, or the empty journal, and then none is left.
#[derive(Drop)]
pub enum Applied {
    Wrote(Kept),
    Finished,
}

/// The end of a transaction behind its commit: the record's tables are written, one a step, and then its journal empty.
#[derive(Drop)]
pub struct Applying {
    pub entry: Record,
    pub left: Kepts,
}

impl Applying {
    /// One step.
    pub fn next<D: Device>(
        &mut self,
        world: &mut MetaWorld<D>,
        host: HostNo,
    ) -> Result<Applied, StepNo>
        requires host { host < world.old.locks.geometry.hosts }
        requires stands { IsApplying world.old host self.old.entry.edits self.old.left }
        ensures went { IfOk result (Went host world.old world.new self.old.entry.edits self.old.left self.new.left) }
        ensures so { IfOk result (AppliedSo host world.old world.new) }
        ensures entry { self.new.entry ≡ self.old.entry }
        ensures cut { IfErr result (IsCut host world.old world.new) }
        ensures others { Others host world.old world.new }
    {
        let _geometry = world.locks().geometry();
        match self.left.take() {
            Some(kept) => self.write(world, host, kept),
            None => end(&self.entry, world, host),
        }
    }

    // Writes a table that was taken out.
    fn write<D: Device>(
        &self,
        world: &mut MetaWorld<D>,
        host: HostNo,
        kept: Kept,
    ) -> Result<Applied, StepNo>
        requires host { host < world.old.locks.geometry.hosts }
        requires stands { IsApplying world.old host self.now.entry.edits (kept ∷ self.now.left) }
        ensures went { IfOk result (Went host world.old world.new self.now.entry.edits (kept ∷ self.now.left) self.now.left) }
        ensures so { IfOk result (AppliedSo host world.old world.new) }
        ensures cut { IfErr result (IsCut host world.old world.new) }
        ensures others { Others host world.old world.new }
    {
        let _geometry = world.locks().geometry();
        match world.advance(host, kept.which, &kept.table) {
            Ok(()) => Ok(Applied::Wrote(edited(&self.entry, kept))),
            Err(why) => Err(why),
        }
    }
}

// The table with all edits of the record made in it.
fn edited(entry: &Record, kept: Kept) -> Kept
    requires { length kept.table.entries ≡ per_table }
    ensures { result ≡ record { which = kept.which; table = made kept.which entry.now.edits kept.table } }
{
    let which = kept.which;
    let mut table = kept.table;
    make(entry, which, &mut table);
    Kept { which, table }
}

// Writes the journal empty, once no table is left.
fn end<D: Device>(entry: &Record, world: &mut MetaWorld<D>, host: HostNo) -> Result<Applied, StepNo>
    requires host { host < world.old.locks.geometry.hosts }
    requires stands { IsApplying world.old host entry.now.edits [] }
    ensures went { IfOk result (Went host world.old world.new entry.now.edits [] []) }
    ensures so { IfOk result (AppliedSo host world.old world.new) }
    ensures cut { IfErr result (IsCut host world.old world.new) }
    ensures others { Others host world.old world.new }
{
    let _count = entry.count();
    let _geometry = world.locks().geometry();
    match world.finish(host) {
        Ok(()) => Ok(Applied::Finished),
        Err(why) => Err(why),
    }
}
