// The text of device calls, one line a call: the key, what was done at which block of the volume, and what the blocks say.
ghost use Rattle.vol_layout.specs.Ranges.{IsGeometry};

use crate::shown::{write_content, write_place};
use shared_disk::{DiskNo, Tested};
use std::alloc::{AllocError, Global};
use vol_base::{Block, HostNo, Key};
use vol_layout::Geometry;

/// The calls of a device, of a volume of this geometry.
#[derive(Drop)]
pub struct Trace {
    geometry: Geometry,
    text: String,
    ghost volume: { IsGeometry geometry },
}

impl Trace {
    /// No call.
    pub fn empty(alloc: Global, geometry: &Geometry) -> Trace
        requires { IsGeometry geometry.now }
    {
        Trace {
            geometry: *geometry,
            text: String::new(alloc),
        }
    }

    /// The lines.
    pub fn into_text(self) -> String {
        self.text
    }

    pub fn add_read(&mut self, key: Key, place: u64, read: &Result<Block, DiskNo>) {
        let _ = self.try_read(key, place, read);
    }

    pub fn add_write(&mut self, key: Key, place: u64, block: &Block, done: &Result<(), DiskNo>) {
        let _ = self.try_write(key, place, block, done);
    }

    pub fn add_test_and_set(
        &mut self,
        key: Key,
        place: u64,
        old: &Block,
        new: &Block,
        tested: &Result<Tested, DiskNo>,
    ) {
        let _ = self.try_test_and_set(key, place, old, new, tested);
    }

    pub fn add_register(&mut self, host: HostNo) {
        let _ = writeln!(self.text, "host {host} registers");
    }

    pub fn add_fence(&mut self, key: Key, target: Key) {
        let by = key.0;
        let off = target.0;
        let _ = writeln!(self.text, "{by} fences {off}");
    }

    fn try_read(
        &mut self,
        key: Key,
        place: u64,
        read: &Result<Block, DiskNo>,
    ) -> Result<(), AllocError> {
        self.begin(key, "reads", place)?;
        match read {
            Ok(block) => self.add_content(place, block)?,
            Err(_) => self.text.push_str(" refused")?,
        }
        self.text.push_str("\n")
    }

    fn try_write(
        &mut self,
        key: Key,
        place: u64,
        block: &Block,
        done: &Result<(), DiskNo>,
    ) -> Result<(), AllocError> {
        self.begin(key, "writes", place)?;
        self.add_content(place, block)?;
        if done.is_err() {
            self.text.push_str(", refused")?;
        }
        self.text.push_str("\n")
    }

    fn try_test_and_set(
        &mut self,
        key: Key,
        place: u64,
        old: &Block,
        new: &Block,
        tested: &Result<Tested, DiskNo>,
    ) -> Result<(), AllocError> {
        self.begin(key, "sets", place)?;
        self.add_content(place, old)?;
        self.text.push_str(" to")?;
        self.add_content(place, new)?;
        match tested {
            Ok(Tested::Swapped) => {}
            Ok(Tested::Found(found)) => {
                self.text.push_str(", found")?;
                self.add_content(place, found)?;
            }
            Err(_) => self.text.push_str(", refused")?,
        }
        self.text.push_str("\n")
    }

    // The key, the verb and the place.
    fn begin(&mut self, key: Key, verb: &str, place: u64) -> Result<(), AllocError> {
        let by = key.0;
        write!(self.text, "{by} {verb} ")?;
        write_place(&mut self.text, self.geometry.kind(place))?;
        self.text.push_str(":")
    }

    fn add_content(&mut self, place: u64, block: &Block) -> Result<(), AllocError> {
        write_content(&mut self.text, &self.geometry, place, block)
    }
}
