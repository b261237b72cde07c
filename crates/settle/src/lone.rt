// One host that is alone on a volume, as settling needs it.
ghost use Rattle.std.specs.Prelude.{◌≡◌, ◌+◌, ◌<◌, ◌≤◌, ℕ, IfErr, IfOk, IfSome, Option};
ghost use Rattle.call_effects.specs.Places.{IsReplyOf};
ghost use Rattle.vol_base.specs.declared.plain.PlainCall.{PlainCall};
ghost use Rattle.settle.specs.declared.lone.LoneNo.{LoneNo};
ghost use Rattle.settle.specs.Links.{Comes, Halts};
ghost use Rattle.settle.specs.Passes.{GoesOn};
ghost use Rattle.settle.specs.Stops.{IsStopped};
ghost use Rattle.share_plans.specs.Places.{field_of};
ghost use Rattle.shared_disk.specs.Seen.{DiskSeen};
ghost use Rattle.shared_disk.specs.State.{OnImages, Told};
ghost use Rattle.vol_layout.specs.declared.field.Field.{Field};
ghost use Rattle.vol_layout.specs.declared.geometry.Geometry.{Geometry as Numbers};
ghost use Rattle.vol_layout.specs.Fields.{HasField};
ghost use Rattle.vol_layout.specs.Ranges.{IsGeometry};

use share_plans::{Place, Shared};
use vol_base::{FileNo, Key, PlainReply};
use vol_layout::Geometry;

/// Why a call of a lone host was refused. But for `Full` each later call is then refused for the same.
#[derive(Clone, Copy, Debug, PartialEq, Eq)]
pub enum LoneNo {
    /// The device failed.
    Failed,
    /// No data block is free for a write. Settling writes none.
    Full,
    /// The block at this place, just read, is not of its kind.
    Bad(u64),
    /// A lock or a slot that was tried showed this key of another host.
    Busy(Key),
    /// The device has no key left.
    NoKeys,
    /// No memory was left.
    NoMemory,
}

/// A host that is alone on a volume and holds all its files.
pub trait Lone {
    /// The geometry of the volume, which never changes.
    ghost volume: { Self → Numbers };

    /// What the device tells of its content, where it tells it.
    ghost told: { Self → Option Told };

    /// The device as it was seen when the host began, which never changes.
    ghost began: { Self → DiskSeen };

    /// How many keys the device gave.
    ghost counter: { Self → ℕ };

    /// How many calls of the device were answered.
    ghost answered: { Self → ℕ };

    /// The refusal for which the host stopped.
    ghost stopped: { Self → Option LoneNo };

    /// How many of each thing the volume has.
    fn geometry(&self) -> Geometry
        ensures value { result ≡ volume self.now }
        ensures range { IsGeometry result };

    /// The plain call `Read` of the block of a file at an index, in at most three calls of the device.
    fn read(&mut self, file: FileNo, index: u32) -> Result<PlainReply, LoneNo>
        requires file { file < (volume self.old).files }
        ensures reply { IfOk result (λ reply. IfSome (told self.old) (λ t. IsReplyOf (volume self.old) (PlainCall.Read file index) reply t.image)) }
        ensures same { told self.new ≡ told self.old }
        ensures volume { volume self.new ≡ volume self.old }
        ensures counter { counter self.new ≡ counter self.old }
        ensures began { began self.new ≡ began self.old }
        ensures count { answered self.new ≤ answered self.old + 3 }
        ensures stopped { IfErr result (IsStopped (stopped self.new)) };

    /// Compares the block of a file at an index with that of the source, and links it to the source where they are equal, in at most
    /// eighteen calls of the device. Where the place is a hole the answer is `Hole`, whatever the source is. It is never `Busy` over a
    /// device that tells its content.
    fn compare_share(&mut self, file: FileNo, index: u32, source: Place) -> Result<Shared, LoneNo>
        requires pointer { HasField (volume self.old) (Field.Pointer file index) }
        requires source { HasField (volume self.old) (field_of source) }
        ensures came { IfOk result (λ shared. OnImages (Comes (volume self.old) file index source shared) (told self.old) (told self.new)) }
        ensures refused { IfErr result (λ why. OnImages (Halts (volume self.old) file index source) (told self.old) (told self.new)) }
        ensures volume { volume self.new ≡ volume self.old }
        ensures on { GoesOn (counter self.old) (counter self.new) (told self.old) (told self.new) }
        ensures began { began self.new ≡ began self.old }
        ensures count { answered self.new ≤ answered self.old + 18 }
        ensures stopped { IfErr result (IsStopped (stopped self.new)) };
}
