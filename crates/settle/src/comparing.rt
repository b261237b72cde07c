// The comparison of two places.
ghost use Rattle.std.specs.Prelude.{◌≡◌, ◌+◌, ◌≤◌, IfErr, IfOk, IfSome, Some, is_none};
ghost use Rattle.settle.specs.Contents.{held};
ghost use Rattle.settle.specs.Moves.{Moves};
ghost use Rattle.settle.specs.Passes.{GoesOn};
ghost use Rattle.settle.specs.Reads.{IsCompared, ReadsAs, compared_of};
ghost use Rattle.settle.specs.Sound.{IsSound};
ghost use Rattle.settle.specs.Stops.{IsStopped};
ghost use Rattle.shared_disk.specs.State.{OnImages};
ghost use Rattle.vol_layout.specs.declared.field.Field.{Field};
ghost use Rattle.vol_layout.specs.Fields.{HasField};

use crate::candidates::Spot;
use crate::lone::{Lone, LoneNo};
use share_plans::{Place, Shared};
use vol_base::{Block, FileNo};
use vol_layout::Geometry;

/// What a comparison of a place with another one came to.
#[derive(Clone, Copy, Debug, PartialEq, Eq)]
pub enum Compared {
    /// Both show one data block now.
    Same,
    /// The place is a hole.
    Hole,
    /// The place has a block, which the other one does not hold.
    Other,
}

/// Compares a place with another one, and links it there where their blocks are equal. At most eighteen calls of the device are made.
pub fn compare<L: Lone>(
    lone: &mut L,
    geometry: Geometry,
    file: FileNo,
    index: u32,
    source: Spot,
) -> Result<Compared, LoneNo>
    requires volume { L.volume lone.old ≡ geometry }
    requires pointer { HasField geometry (Field.Pointer file index) }
    requires source { HasField geometry (Field.Pointer source.file source.index) }
    requires sound { IfSome (L.told lone.old) (λ t. IsSound geometry t.image) }
    ensures compared { IfOk result (λ compared. IfSome (L.told lone.new) (λ t. IsCompared geometry t.image file index source compared)) }
    ensures moves { OnImages (Moves geometry file index) (L.told lone.old) (L.told lone.new) }
    ensures volume { L.volume lone.new ≡ geometry }
    ensures on { GoesOn (L.counter lone.old) (L.counter lone.new) (L.told lone.old) (L.told lone.new) }
    ensures began { L.began lone.new ≡ L.began lone.old }
    ensures count { L.answered lone.new ≤ L.answered lone.old + 18 }
    ensures stopped { IfErr result (IsStopped (L.stopped lone.new)) }
{
    match lone.compare_share(file, index, Place::File(source.file, source.index)) {
        Ok(shared) => Ok(compared_of(shared)),
        Err(why) => Err(why),
    }
}

// What an answer says of two places of files.
fn compared_of(shared: Shared) -> Compared
    ensures { result ≡ compared_of shared }
{
    match shared {
        Shared::Linked => Compared::Same,
        Shared::Already => Compared::Same,
        Shared::Differs(_) => Compared::Other,
        Shared::Hole => Compared::Hole,
        Shared::NoSource => Compared::Other,
        Shared::Busy(_) => Compared::Other,
    }
}

/// Whether a place that shows this block is a hole. A block that is not all zeros is none; else the place is compared with itself, which
/// tells a hole from a block of zeros in at most eighteen calls of the device.
pub fn is_hole<L: Lone>(
    lone: &mut L,
    geometry: Geometry,
    spot: Spot,
    block: &Block,
) -> Result<bool, LoneNo>
    requires volume { L.volume lone.old ≡ geometry }
    requires pointer { HasField geometry (Field.Pointer spot.file spot.index) }
    requires sound { IfSome (L.told lone.old) (λ t. IsSound geometry t.image) }
    requires shows { IfSome (L.told lone.old) (λ t. ReadsAs geometry t.image spot.file spot.index (Some block.now)) }
    ensures hole { IfOk result (λ hole. IfSome (L.told lone.new) (λ t. hole ≡ is_none (held geometry t.image spot.file spot.index))) }
    ensures moves { OnImages (Moves geometry spot.file spot.index) (L.told lone.old) (L.told lone.new) }
    ensures volume { L.volume lone.new ≡ geometry }
    ensures on { GoesOn (L.counter lone.old) (L.counter lone.new) (L.told lone.old) (L.told lone.new) }
    ensures began { L.began lone.new ≡ L.began lone.old }
    ensures count { L.answered lone.new ≤ L.answered lone.old + 18 }
    ensures stopped { IfErr result (IsStopped (L.stopped lone.new)) }
{
    if !block.is_zeros() {
        return Ok(false);
    }
    match compare(lone, geometry, spot.file, spot.index, spot) {
        Ok(Compared::Hole) => Ok(true),
        Ok(Compared::Same) => Ok(false),
        Ok(Compared::Other) => Ok(false),
        Err(why) => Err(why),
    }
}
