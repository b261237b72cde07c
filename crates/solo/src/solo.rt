// One host alone on a volume.
ghost use Rattle.std.specs.Prelude.{◌≡◌, ◌<◌, ◌≤◌, ◌+◌, [], IfErr, IfOk, IfSome, None, OnOk, Some};
ghost use Rattle.call_effects.specs.Changes.{Changes};
ghost use Rattle.call_effects.specs.Places.{IsReplyOf, KeepsFiles};
ghost use Rattle.disk_locks.specs.Sure.{BothTold};
ghost use Rattle.file_plans.specs.Bases.{IsCached};
ghost use Rattle.host_facts.specs.Wrote.{HasValidImage};
ghost use Rattle.image_view.specs.HostKeys.{slot_state_at};
ghost use Rattle.image_view.specs.Valid.{IsValid};
ghost use Rattle.settle.specs.Passes.{GoesOn};
ghost use Rattle.shared_disk.specs.Seen.{seen_by};
ghost use Rattle.solo.specs.Alone.{IsAlone, KeepsNothing};
ghost use Rattle.solo.specs.Shares.{Comes, Halts, HasBoth, IsKeyOf, IsNoKey};
ghost use Rattle.solo.specs.Stops.{HasCause};
ghost use Rattle.solo.specs.Views.{OnBoth, OnImage, calls_of, disk_of, state_of, told, volume};
ghost use Rattle.vol_base.specs.declared.plain.PlainCall.{PlainCall};
ghost use Rattle.vol_layout.specs.Ranges.{IsGeometry};

use crate::leaving::leaves;
use crate::reading::{SOLO, reads};
use crate::refusal::stop;
use crate::sharing::shares;
use held_cache::HeldCache;
use meta_world::MetaWorld;
use settle::LoneNo;
use share_plans::{Place, Shared};
use shared_disk::Device;
use std::marker::Model;
use std::snapshot::Snapshot;
use vol_base::{FileNo, PlainReply};
use vol_layout::Geometry;

/// Host 0, alone on its volume, with every file held. What it is is seen as the world, what stopped it, and its device as it was when the host
/// began: behind a call that was refused,
/// but for `Full`, each later call is refused for the same.
#[derive(Drop)]
pub struct Solo<D: Device> {
    world: MetaWorld<D>,
    cache: HeldCache,
    stopped: Option<LoneNo>,
    start: Snapshot<MetaWorld<D>>,
}

impl<D: Device> Model for Solo<D> {
    ghost use Rattle.solo.specs.Views.{IsInOrder, SoloView};

    ghost Value = { SoloView };

    ghost view = { λ s. record { world = s.world; stopped = s.stopped; began = s.start.value.locks.disk } };

    ghost invariant = { λ s. IsInOrder s.world s.cache s.start.value.locks.disk s.stopped };
}

impl<D: Device> Solo<D> {
    /// The host of a world in which it is joined, ready, and holds every file. No device call is made.
    pub fn of(world: MetaWorld<D>, cache: HeldCache) -> Solo<D>
        requires alone { IsAlone world }
        requires cached { IsCached world cache 0 }
        ensures { result ≡ record { world = world; stopped = None; began = world.locks.disk } }
    {
        let start = Snapshot::of(&world);
        Solo {
            world,
            cache,
            stopped: None,
            start,
        }
    }

    /// The geometry of the volume; and what holds between any two calls: a told image is valid.
    pub fn geometry(&self) -> &Geometry
        ensures geometry { result.now ≡ volume self.now }
        ensures range { IsGeometry result.now }
        ensures valid { HasValidImage self.now.world }
    {
        self.world.locks().geometry()
    }

    /// Reads the block of a file at an index: the plain reply. It makes at most three device calls, and changes nothing on the device.
    pub fn read(&mut self, file: FileNo, index: u32) -> Result<PlainReply, LoneNo>
        requires { file < (volume self.old).files }
        ensures reply { IfOk result (λ reply. OnImage self.old (IsReplyOf (volume self.old) (PlainCall.Read file index) reply)) }
        ensures same { state_of self.new ≡ state_of self.old }
        ensures volume { volume self.new ≡ volume self.old }
        ensures began { self.new.began ≡ self.old.began }
        ensures few { calls_of self.new ≤ calls_of self.old + 3 }
        ensures stopped { IfErr result (λ no. self.new.stopped ≡ Some no) }
        ensures again { IfSome self.old.stopped (λ no. (result ≡ Err no) × (self.new ≡ self.old)) }
        ensures cause { self.old.stopped ≡ None → IfErr result (HasCause (disk_of self.old) (disk_of self.new)) }
        ensures since { IfErr result (HasCause self.new.began (disk_of self.new)) }
    {
        if let Some(no) = self.stopped {
            return Err(no);
        }
        match reads(&mut self.world, &mut self.cache, file, index) {
            Ok(reply) => Ok(reply),
            Err(why) => Err(stop(&mut self.stopped, why)),
        }
    }

    /// Makes a file's block at an index share its place with the source, where both have data blocks of equal bytes: the answer, which is
    /// never `Busy`; a key of another host refuses the call. It makes at most eighteen device calls, and no file changes, whatever is answered.
    pub fn compare_share(
        &mut self,
        file: FileNo,
        index: u32,
        source: Place,
    ) -> Result<Shared, LoneNo>
        requires { HasBoth (volume self.old) file index source }
        ensures came { IfOk result (λ shared. OnBoth self.old self.new (Comes (volume self.old) file index source shared)) }
        ensures named { IfOk result IsNoKey }
        ensures halted { IfErr result (λ no. OnBoth self.old self.new (Halts (volume self.old) file index source)) }
        ensures files { OnBoth self.old self.new KeepsFiles }
        ensures on { GoesOn (state_of self.old).counter (state_of self.new).counter (told self.old) (told self.new) }
        ensures volume { volume self.new ≡ volume self.old }
        ensures began { self.new.began ≡ self.old.began }
        ensures few { calls_of self.new ≤ calls_of self.old + 18 }
        ensures stopped { IfErr result (λ no. self.new.stopped ≡ Some no) }
        ensures again { IfSome self.old.stopped (λ no. (result ≡ Err no) × (self.new ≡ self.old)) }
        ensures cause { self.old.stopped ≡ None → IfErr result (HasCause (disk_of self.old) (disk_of self.new)) }
        ensures since { IfErr result (HasCause self.new.began (disk_of self.new)) }
    {
        if let Some(no) = self.stopped {
            return Err(no);
        }
        forget(&self.world, &mut self.cache);
        match shares(&mut self.world, file, index, source) {
            Ok(shared) => answered(shared, &mut self.stopped),
            Err(why) => Err(stop(&mut self.stopped, why)),
        }
    }

    /// Frees the files and the slot, and takes the own key off. The device is handed back, whatever is answered, and no file changes.
    pub fn close(self) -> (D, Result<(), LoneNo>)
        ensures files { BothTold (told self) (D.state result.0).told KeepsFiles }
        ensures valid { IfSome (D.state result.0).told (λ t. IsValid (volume self) (D.state result.0).counter t.image) }
        ensures on { GoesOn (state_of self).counter (D.state result.0).counter (told self) (D.state result.0).told }
        ensures free { OnOk result.1 (IfSome (D.state result.0).told (λ t. slot_state_at (volume self) t.image 0 ≡ 0)) }
        ensures kept { OnOk result.1 (BothTold (told self) (D.state result.0).told (Changes (volume self) [] None)) }
        ensures again { IfSome self.stopped (λ no. result.1 ≡ Err no) }
        ensures later { OnOk result.1 (self.began.faults ≤ D.faults result.0) }
        ensures cause { IfErr result.1 (HasCause self.began (seen_by D.Device result.0)) }
    {
        let _geometry = self.world.locks().geometry();
        if let Some(no) = self.stopped {
            return (self.world.close(), Err(no));
        }
        let mut world = self.world;
        let left = leaves(&mut world);
        let _geometry = world.locks().geometry();
        (world.close(), left)
    }
}

// Forgets what is kept, before a plan that is no command on a file: it may write tables.
fn forget<D: Device>(world: &MetaWorld<D>, cache: &mut HeldCache)
    requires alone { IsAlone world.now }
    requires cached { IsCached world.now cache.old 0 }
    ensures { KeepsNothing world.now.locks.geometry cache.new }
{
    let _geometry = world.locks().geometry();
    cache.forget_host(SOLO);
}

// The answer of a share; a key that was shown stops the host.
fn answered(shared: Shared, stopped: &mut Option<LoneNo>) -> Result<Shared, LoneNo>
    ensures ok { IfOk result (λ answer. (answer ≡ shared) × IsNoKey shared × (stopped.new ≡ stopped.old)) }
    ensures err { IfErr result (λ no. (stopped.new ≡ Some no) × IsKeyOf shared no) }
{
    match shared {
        Shared::Busy(key) => {
            let no = LoneNo::Busy(key);
            *stopped = Some(no);
            Err(no)
        }
        answer => Ok(answer),
    }
}
