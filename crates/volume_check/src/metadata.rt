// The slots, journals, locks and tables of a volume, as they were read.
ghost use Rattle.std.specs.Prelude.{◌≡◌, ◌≤◌, Contains, IfOk, IfSome, length};
ghost use Rattle.vol_base.specs.Faults.{Rose};
ghost use Rattle.vol_layout.specs.Fields.{HasField};
ghost use Rattle.vol_layout.specs.Ranges.{HasKind, IsGeometry};
ghost use Rattle.vol_layout.specs.Regions.{total};
ghost use Rattle.image_view.specs.Images.{block_at};
ghost use Rattle.image_view.specs.Numbers.{field};
ghost use Rattle.volume_faults.specs.laws.AgreeLaws.{Agrees};
ghost use Rattle.volume_faults.specs.Sites.{IsChecked};
ghost use Rattle.volume_check.specs.declared.metadata.ReadNo.TheVariants as reads;

mod runs;

pub use crate::metadata::runs::{front_end, further_start};
use crate::metadata::runs::{block_in, read_run};
use shared_disk::Device;
use std::alloc::{AllocError, Global};
use std::marker::Model;
use vol_base::{Block, Key};
use vol_layout::{Field, Geometry, Kind};

/// Why the blocks were not read.
#[derive(Clone, Copy, Debug, PartialEq, Eq)]
pub enum ReadNo {
    /// A call of the device failed.
    Failed,
    /// There was no memory for the blocks.
    NoMemory,
}

impl From<AllocError> for ReadNo {
    ghost use Rattle.std.specs.Prelude.{◌≡◌};
    ghost use Rattle.volume_check.specs.declared.metadata.ReadNo.TheVariants as reads;

    ghost from_gives = { λ _ cause. cause ≡ reads.NoMemory };

    fn from(_: AllocError) -> ReadNo {
        ReadNo::NoMemory
    }
}

/// What a check keeps of a volume: its slots, journals, locks and tables, and the device's counter. A
/// contract sees an image with these blocks.
#[derive(Drop)]
pub struct Metadata {
    geometry: Geometry,
    counter: u64,
    // the blocks from place 1 to the last part table
    front: Vec<Block>,
    // the further tables, behind the data
    further: Vec<Block>,
}

impl Model for Metadata {
    ghost use Rattle.volume_check.specs.Metadatas.{AreRuns, Metadata, image_of_runs};

    ghost Value = { Metadata };

    ghost view = { λ m. record { geometry = m.geometry; counter = m.counter; image = image_of_runs m.geometry m.front.items m.further.items } };

    ghost invariant = { λ m. AreRuns m.geometry m.front.items m.further.items };
}

impl Metadata {
    /// Reads the blocks of a volume in the order of their places.
    pub fn read<D: Device>(
        alloc: Global,
        disk: &mut D,
        key: Key,
        geometry: &Geometry,
    ) -> Result<Metadata, ReadNo>
        requires geometry { IsGeometry geometry.now }
        requires key { Contains (D.state disk.old).keys key.0 }
        requires long { total geometry.now ≤ (D.state disk.old).blocks }
        ensures geometry { IfOk result (λ m. m.geometry ≡ geometry.now) }
        ensures counter { IfOk result (λ m. m.counter ≡ (D.state disk.old).counter) }
        ensures image { IfOk result (λ m. IfSome (D.state disk.old).told (λ told. Agrees geometry.now told.image m.image)) }
        ensures same { D.state disk.new ≡ D.state disk.old }
        ensures failed { result ≡ Err reads.Failed → Rose (D.faults disk.old) (D.faults disk.new) }
        ensures later { D.faults disk.old ≤ D.faults disk.new }
        ensures room { D.room disk.old ≤ D.room disk.new }
    {
        let counter = disk.counter();
        let front = read_run(alloc, disk, key, 1, front_end(geometry))?;
        let further = read_run(alloc, disk, key, further_start(geometry), geometry.total())?;
        Ok(Metadata {
            geometry: *geometry,
            counter,
            front,
            further,
        })
    }

    /// The geometry of the volume.
    pub fn geometry(&self) -> Geometry
        ensures geometry { result ≡ self.now.geometry }
        ensures range { IsGeometry result }
    {
        self.geometry
    }

    /// The counter of the device when the blocks were read.
    pub fn counter(&self) -> u64
        ensures { result ≡ self.now.counter }
    {
        self.counter
    }

    /// The block of a kind.
    pub fn block(&self, kind: Kind) -> &Block
        requires kind { HasKind self.now.geometry kind }
        requires checked { IsChecked kind }
        ensures bytes { result.now.0 ≡ block_at self.now.geometry self.now.image kind }
        ensures long { length result.now.0 ≡ 4096 }
    {
        let place = self.geometry.place(kind);
        let block = block_in(&self.geometry, &self.front, &self.further, place);
        // Behind a reference a block shows its length only as a slice.
        let _bytes: &[u8] = &block.0;
        block
    }

    /// The number in the field's table.
    pub fn number(&self, what: &Field) -> u32
        requires { HasField self.now.geometry what.now }
        ensures { result ≡ field self.now.geometry self.now.image what.now }
    {
        let table = self.block(Kind::Table(self.geometry.table_of(what)));
        match what.entry() {
            None => table.u32_at(12),
            Some(entry) => table.u32_at(64 + 4 * entry as usize),
        }
    }
}
