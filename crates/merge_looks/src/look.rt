// A look at the place of an entry: the tables of its file are read, and then its data block.
ghost use Rattle.std.specs.Prelude.{◌≡◌, ◌≤◌, ◌<◌, [], IfErr, IfOk};
ghost use Rattle.host_facts.specs.Others.{Others};
ghost use Rattle.merge_looks.specs.Looks.{At, IsSame, Went, came_by, left, stage_by};
ghost use Rattle.plan_parts.specs.Cuts.{IsCut};

use lock_store::StepNo;
use merge_steps::{reads_block, reads_table};
use meta_world::MetaWorld;
use plan_parts::Kept;
use share_plans::{FileTables, Spot, shown};
use shared_disk::Device;
use vol_base::{Block, DataNo, FileNo, HostNo};
use vol_layout::Table;

/// What stands at a place.
#[derive(Drop)]
pub enum Seen {
    Nothing,
    Block(Block),
}

/// What the next step of a look does: a table is read; the data block is read; it is over.
#[derive(Clone, Copy)]
pub enum Looking {
    Reads(Table),
    Shows(DataNo),
    Over,
}

/// The host, the place that is looked at, the tables of its file that were read, and what comes next.
#[derive(Drop)]
pub struct Look {
    pub host: HostNo,
    pub file: FileNo,
    pub index: u32,
    pub tables: FileTables,
    pub stage: Looking,
}

impl Look {
    /// A look at the block of a file at an index. No device call is made.
    pub fn new(host: HostNo, file: FileNo, index: u32) -> Look
        ensures host { result.host ≡ host }
        ensures file { result.file ≡ file }
        ensures index { result.index ≡ index }
        ensures tables { result.tables ≡ [] }
        ensures stage { result.stage ≡ Looking.Reads (Table.File file) }
        ensures few { left result ≤ 3 }
    {
        Look {
            host,
            file,
            index,
            tables: FileTables::new(),
            stage: Looking::Reads(Table::File(file)),
        }
    }

    /// One step: one device call. What stands at the place, once it is known; the look is over then.
    pub fn next<D: Device>(&mut self, world: &mut MetaWorld<D>) -> Result<Option<Seen>, StepNo>
        requires stands { At world.old self.old }
        ensures went { IfOk result (Went world.old world.new self.old self.new) }
        ensures cut { IfErr result (IsCut self.old.host world.old world.new) }
        ensures others { Others self.old.host world.old world.new }
        ensures same { IsSame self.old self.new }
    {
        match self.stage {
            Looking::Reads(which) => self.reads(world, which),
            Looking::Shows(number) => self.shows(world, number),
            Looking::Over => Err(StepNo::NoMemory),
        }
    }

    // A table of the file is read.
    fn reads<D: Device>(
        &mut self,
        world: &mut MetaWorld<D>,
        which: Table,
    ) -> Result<Option<Seen>, StepNo>
        requires stands { At world.old self.old }
        requires stage { self.old.stage ≡ Looking.Reads which }
        ensures went { IfOk result (Went world.old world.new self.old self.new) }
        ensures cut { IfErr result (IsCut self.old.host world.old world.new) }
        ensures others { Others self.old.host world.old world.new }
        ensures same { IsSame self.old self.new }
    {
        let came = reads_table(world, self.host, which);
        let geometry = world.locks().geometry();
        match came {
            Ok(table) => {
                self.tables.push(Kept { which, table });
                let spot = shown(geometry, &self.tables, self.file, self.index);
                Ok(self.comes(spot))
            }
            Err(why) => Err(why),
        }
    }

    // What comes next, by what the tables say.
    fn comes(&mut self, spot: Spot) -> Option<Seen>
        ensures stage { self.new ≡ record self.old { stage = stage_by spot } }
        ensures came { result ≡ came_by spot }
    {
        match spot {
            Spot::Needs(which) => {
                self.stage = Looking::Reads(which);
                None
            }
            Spot::Nothing => {
                self.stage = Looking::Over;
                Some(Seen::Nothing)
            }
            Spot::Shows(number, _) => {
                self.stage = Looking::Shows(number);
                None
            }
        }
    }

    // The data block is read.
    fn shows<D: Device>(
        &mut self,
        world: &mut MetaWorld<D>,
        number: DataNo,
    ) -> Result<Option<Seen>, StepNo>
        requires stands { At world.old self.old }
        requires stage { self.old.stage ≡ Looking.Shows number }
        ensures went { IfOk result (Went world.old world.new self.old self.new) }
        ensures cut { IfErr result (IsCut self.old.host world.old world.new) }
        ensures others { Others self.old.host world.old world.new }
        ensures same { IsSame self.old self.new }
    {
        let _geometry = world.locks().geometry();
        let came = reads_block(world, self.host, number);
        let _geometry = world.locks().geometry();
        match came {
            Ok(block) => {
                self.stage = Looking::Over;
                Ok(Some(Seen::Block(block)))
            }
            Err(why) => Err(why),
        }
    }
}
