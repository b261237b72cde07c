// Hint blocks: logs, shards of the index, and requests.
ghost use Rattle.std.specs.Prelude.{◌≡◌, ◌≢◌, ◌<◌, Ok, OnOk, false, true};
ghost use Rattle.disk_locks.specs.MayWrite.{IsWritable};
ghost use Rattle.disk_locks.specs.Others as locks';
ghost use Rattle.host_facts.specs.Calls.{ReadsPlace, SwapsPlace, WritesPlace};
ghost use Rattle.host_facts.specs.Hints.{IsHint, IsHintPlace, WroteHint};
ghost use Rattle.host_facts.specs.Looks.{Looks};
ghost use Rattle.host_facts.specs.Others.{Others};
ghost use Rattle.host_facts.specs.Wrote.{FilesStay, HasValidImage};
ghost use Rattle.lock_store.specs.Views.{host_at, key_at};
ghost use Rattle.meta_world.specs.MayPut.{MayPut};
ghost use Rattle.vol_layout.specs.Places.{place_of};
ghost use Rattle.vol_layout.specs.Ranges.{HasKind};

use crate::world::MetaWorld;
use lock_store::StepNo;
use shared_disk::{Device, Tested};
use vol_base::{Block, HostNo};
use vol_layout::Kind;

impl<D: Device> MetaWorld<D> {
    /// Reads the hint block at a place.
    pub fn read_hint(&mut self, host: HostNo, place: u64) -> Result<Block, StepNo>
        requires host { host < self.old.locks.geometry.hosts }
        requires key { key_at self.old.locks host ≢ 0 }
        requires place { IsHintPlace self.old.locks.geometry place }
        ensures did { ReadsPlace self.old.locks host place result self.new.locks }
        ensures others { Others host self.old self.new }
        ensures looked { OnOk result (Looks host self.old self.new) }
        ensures standing { self.new.standing ≡ self.old.standing }
    {
        self.known(host);
        let kind = self.hint(place);
        self.get(host, kind)
    }

    /// Writes the hint block at a place.
    pub fn write_hint(&mut self, host: HostNo, place: u64, block: &Block) -> Result<(), StepNo>
        requires host { host < self.old.locks.geometry.hosts }
        requires key { key_at self.old.locks host ≢ 0 }
        requires place { IsHintPlace self.old.locks.geometry place }
        ensures did { WritesPlace self.old.locks host place block.now.0 result self.new.locks }
        ensures others { Others host self.old self.new }
        ensures valid { HasValidImage self.new }
        ensures wrote { OnOk result (WroteHint host place block.now.0 self.old self.new) }
        ensures files { FilesStay self.old self.new }
        ensures standing { self.new.standing ≡ self.old.standing }
    {
        self.known(host);
        let kind = self.hint(place);
        let done = self.put(host, kind, block);
        self.known(host);
        done
    }

    /// Writes the hint block at a place by test-and-set; false exactly where the block there is not `old`, and nothing is written then.
    pub fn swap_hint(
        &mut self,
        host: HostNo,
        place: u64,
        old: &Block,
        new: &Block,
    ) -> Result<bool, StepNo>
        requires host { host < self.old.locks.geometry.hosts }
        requires key { key_at self.old.locks host ≢ 0 }
        requires place { IsHintPlace self.old.locks.geometry place }
        ensures did { SwapsPlace self.old.locks host place old.now.0 new.now.0 result self.new.locks }
        ensures others { Others host self.old self.new }
        ensures valid { HasValidImage self.new }
        ensures swapped { result ≡ Ok true → WroteHint host place new.now.0 self.old self.new }
        ensures kept { result ≡ Ok false → Looks host self.old self.new }
        ensures files { FilesStay self.old self.new }
        ensures standing { self.new.standing ≡ self.old.standing }
    {
        self.known(host);
        let kind = self.hint(place);
        self.swap(host, kind, old, new)
    }

    // The same of a kind.
    fn swap(&mut self, host: HostNo, kind: Kind, old: &Block, new: &Block) -> Result<bool, StepNo>
        requires host { host < self.old.locks.geometry.hosts }
        requires key { key_at self.old.locks host ≢ 0 }
        requires kind { IsWritable self.old.locks.geometry kind }
        requires may { MayPut self.old.locks host kind new.now.0 }
        ensures did { SwapsPlace self.old.locks host (place_of self.old.locks.geometry kind) old.now.0 new.now.0 result self.new.locks }
        ensures others { locks'.Others host self.old.locks self.new.locks }
        ensures valid { HasValidImage self.new }
        ensures standing { self.new.standing ≡ self.old.standing }
    {
        let tested = self.locks.swap_kind(host, kind, old, new);
        self.known(host);
        match tested {
            Ok(Tested::Swapped) => Ok(true),
            Ok(Tested::Found(_)) => Ok(false),
            Err(cause) => Err(cause),
        }
    }

    // The hint block that stands at a place.
    fn hint(&self, place: u64) -> Kind
        requires { IsHintPlace self.now.locks.geometry place }
        ensures hint { IsHint result }
        ensures has { HasKind self.now.locks.geometry result }
        ensures at { place ≡ place_of self.now.locks.geometry result }
    {
        self.locks.geometry().kind(place).unwrap()
    }
}
