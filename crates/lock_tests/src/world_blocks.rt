// The calls of the world on data blocks and hint blocks.
ghost use Rattle.std.specs.Prelude.{IfSome};
ghost use Rattle.host_facts.specs.Hints.{IsHintPlace};

use crate::hosts::{Asked, Hosts};
use table_blocks::{block_of, table_in};
use vol_base::{Block, DataNo, FileNo, HostNo, Packed};
use vol_layout::{Field, Kind, PER_TABLE, Resource, Table};
use world_callers::rewrite;

#[tactic(auto, using(crate::proofs::WorldLaws::still, crate::proofs::UntoldLaws::sure))]
impl Hosts {
    pub fn write_fresh(&mut self, host: HostNo, number: DataNo, block: &Block) -> Asked<()> {
        let count = Field::Count(number);
        if !self.has_field(count) {
            return None;
        }
        let group = self.world.locks().geometry().resource_of(&count);
        if !self.holds(host, group) {
            return None;
        }
        Some(self.world.write_fresh(host, number, block))
    }

    /// Writes a block of a held file in place.
    pub fn write_own(
        &mut self,
        host: HostNo,
        file: FileNo,
        index: u32,
        number: DataNo,
        block: &Block,
    ) -> Asked<()> {
        if !self.has_field(Field::Pointer(file, index)) || !self.has_field(Field::Count(number)) {
            return None;
        }
        if !self.holds(host, Resource::File(file)) {
            return None;
        }
        Some(self.world.write_own(host, file, index, number, block))
    }

    /// Reads a block of a held file.
    pub fn read_number(
        &mut self,
        host: HostNo,
        file: FileNo,
        index: u32,
        number: DataNo,
    ) -> Asked<Block> {
        if !self.has_field(Field::Pointer(file, index)) || !self.has_field(Field::Count(number)) {
            return None;
        }
        if !self.is_joined(host) || !self.holds(host, Resource::File(file)) {
            return None;
        }
        Some(self.world.read_number(host, number))
    }

    /// Writes a block of a held file in place, where the table shows it.
    pub fn rewrite(
        &mut self,
        host: HostNo,
        file: FileNo,
        index: u32,
        table: &Packed<4>,
        block: &Block,
    ) -> Asked<bool> {
        if !self.has_field(Field::Pointer(file, index)) || index >= PER_TABLE {
            return None;
        }
        if !self.is_joined(host) || !self.holds(host, Resource::File(file)) {
            return None;
        }
        let which = Table::File(file);
        let fit = table_in(self.world.locks().geometry(), which, block_of(table))?;
        Some(rewrite(&mut self.world, host, file, index, &fit, block))
    }

    // The place of a shard block.
    fn shard(&self, shard: u8) -> Option<u64>
        ensures { IfSome result (IsHintPlace self.now.world.locks.geometry) }
    {
        let geometry = self.world.locks().geometry();
        if shard >= geometry.shards {
            return None;
        }
        Some(geometry.place(Kind::Shard(shard)))
    }

    pub fn read_hint(&mut self, host: HostNo, shard: u8) -> Asked<Block> {
        let place = self.shard(shard)?;
        if !self.has_key(host) {
            return None;
        }
        Some(self.world.read_hint(host, place))
    }

    pub fn write_hint(&mut self, host: HostNo, shard: u8, block: &Block) -> Asked<()> {
        let place = self.shard(shard)?;
        if !self.has_key(host) {
            return None;
        }
        Some(self.world.write_hint(host, place, block))
    }

    pub fn swap_hint(&mut self, host: HostNo, shard: u8, old: &Block, new: &Block) -> Asked<bool> {
        let place = self.shard(shard)?;
        if !self.has_key(host) {
            return None;
        }
        Some(self.world.swap_hint(host, place, old, new))
    }
}
