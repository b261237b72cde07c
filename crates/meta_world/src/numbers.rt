// Data blocks.
ghost use Rattle.std.specs.Prelude.{◌≡◌, ◌≢◌, ◌<◌, [], IfOk, OnErr, OnOk, Some, None, true};
ghost use Rattle.call_effects.specs.Places.{IsPlaced};
ghost use Rattle.disk_locks.specs.Others as locks';
ghost use Rattle.disk_locks.specs.Sure.{BothTold, Sure};
ghost use Rattle.host_facts.specs.Facts.Fact.{BlockIs, FreshIs};
ghost use Rattle.host_facts.specs.Knows.{Knows};
ghost use Rattle.host_facts.specs.Looks.{Looks};
ghost use Rattle.host_facts.specs.Others.{Others};
ghost use Rattle.host_facts.specs.OwnBlocks.{IsOwnBlock, MayName};
ghost use Rattle.host_facts.specs.Wrote.{FilesStay, HasValidImage, Wrote};
ghost use Rattle.image_view.specs.Numbers.{logical};
ghost use Rattle.lock_store.specs.Calls.{ReadsBlock, WritesBlock};
ghost use Rattle.lock_store.specs.Memories.{holds};
ghost use Rattle.lock_store.specs.Views.{host_at, key_at, told_of};
ghost use Rattle.vol_layout.specs.Fields.{HasField, resource_of};
ghost use Rattle.vol_layout.specs.declared.field.Field.{Field};

use crate::world::MetaWorld;
use lock_store::StepNo;
use shared_disk::Device;
use vol_base::{Block, DataNo, FileNo, HostNo, PlainCall, PlainReply};
use vol_layout::{Field, Kind, Resource};

impl<D: Device> MetaWorld<D> {
    /// Reads a data block that a field names which the host may read, or a slot of the arena while the host holds the block's group and
    /// has no record that stands.
    pub fn read_number(&mut self, host: HostNo, number: DataNo) -> Result<Block, StepNo>
        requires host { host < self.old.locks.geometry.hosts }
        requires joined { (host_at self.old.locks host).joined ≡ true }
        requires number { HasField self.old.locks.geometry (Field.Count number) }
        requires named { (x : Field) × MayName self.old host x number }
        ensures did { ReadsBlock self.old.locks host (Kind.Number number) result self.new.locks }
        ensures others { Others host self.old self.new }
        ensures looked { OnOk result (Looks host self.old self.new) }
        ensures block { IfOk result (λ block. (x : Field) → MayName self.old host x number → Knows self.new host (BlockIs x number block.0)) }
        ensures standing { self.new.standing ≡ self.old.standing }
    {
        self.known(host);
        self.get(host, Kind::Number(number))
    }

    /// Writes a free data block of a group that the host holds.
    pub fn write_fresh(&mut self, host: HostNo, number: DataNo, block: &Block) -> Result<(), StepNo>
        requires host { host < self.old.locks.geometry.hosts }
        requires number { HasField self.old.locks.geometry (Field.Count number) }
        requires held { holds (host_at self.old.locks host) (resource_of (Field.Count number)) ≡ true }
        requires free { Sure self.old.locks host (λ image. logical self.old.locks.geometry image (Field.Count number) ≡ 0) }
        ensures did { WritesBlock self.old.locks host (Kind.Number number) block.now.0 (host_at self.old.locks host) result self.new.locks }
        ensures others { Others host self.old self.new }
        ensures valid { HasValidImage self.new }
        ensures wrote { OnOk result (Wrote host (Kind.Number number) block.now.0 [] (Some (number, block.now.0)) self.old self.new) }
        ensures fresh { OnOk result (Knows self.new host (FreshIs number block.now.0)) }
        ensures files { FilesStay self.old self.new }
        ensures standing { self.new.standing ≡ self.old.standing }
    {
        self.known(host);
        let done = self.put(host, Kind::Number(number), block);
        self.known(host);
        done
    }

    /// Writes a data block in place: the file's pointer at `index`, below its length, is `number` without the mark, so nothing else
    /// names it. The file is held.
    pub fn write_own(
        &mut self,
        host: HostNo,
        file: FileNo,
        index: u32,
        number: DataNo,
        block: &Block,
    ) -> Result<(), StepNo>
        requires host { host < self.old.locks.geometry.hosts }
        requires pointer { HasField self.old.locks.geometry (Field.Pointer file index) }
        requires number { HasField self.old.locks.geometry (Field.Count number) }
        requires held { holds (host_at self.old.locks host) (Resource.File file) ≡ true }
        requires own { Sure self.old.locks host (IsOwnBlock self.old.locks.geometry file index number) }
        ensures did { WritesBlock self.old.locks host (Kind.Number number) block.now.0 (host_at self.old.locks host) result self.new.locks }
        ensures others { Others host self.old self.new }
        ensures valid { HasValidImage self.new }
        ensures wrote { OnOk result (Wrote host (Kind.Number number) block.now.0 [] (Some (number, block.now.0)) self.old self.new) }
        ensures shows { OnOk result (Knows self.new host (BlockIs (Field.Pointer file index) number block.now.0)) }
        ensures placed { OnOk result (BothTold (told_of self.old.locks) (told_of self.new.locks) (IsPlaced self.old.locks.geometry (PlainCall.Write file index block.now) PlainReply.Done)) }
        ensures refused { OnErr result (FilesStay self.old self.new) }
        ensures standing { self.new.standing ≡ self.old.standing }
    {
        self.known(host);
        let done = self.put(host, Kind::Number(number), block);
        self.known(host);
        done
    }
}
