// The search of a representative.
ghost use Rattle.std.specs.Prelude.{◌≡◌, ◌+◌, ◌*◌, ◌≤◌, ℕ, IfErr, IfOk, IfSome, None};
ghost use Rattle.settle.specs.Gathered.{IsTable, spot_at};
ghost use Rattle.settle.specs.Moves.{Moves};
ghost use Rattle.settle.specs.Passes.{GoesOn};
ghost use Rattle.settle.specs.Reads.{IsNumbered, IsSought};
ghost use Rattle.settle.specs.Sound.{IsSound};
ghost use Rattle.settle.specs.Stops.{IsRefused};
ghost use Rattle.shared_disk.specs.State.{OnImages};
ghost use Rattle.vol_layout.specs.declared.field.Field.{Field};
ghost use Rattle.vol_layout.specs.Fields.{HasField};

use crate::candidates::{Candidates, Spot};
use crate::comparing::{Compared, compare};
use crate::lone::{Lone, LoneNo};
use vol_base::Digest;
use vol_layout::Geometry;

/// What the search of a representative came to.
#[derive(Clone, Copy, Debug, PartialEq, Eq)]
pub enum Sought {
    /// The place shows the data block of a representative.
    Joined,
    /// The place is a hole.
    Hole,
    /// No representative holds what the place holds, and this is the least free number of the digest.
    Fresh(u32),
}

/// Compares a place with the representatives of a digest, one after the other, until it is linked to one. Each takes at most eighteen calls
/// of the device.
pub fn seek<L: Lone>(
    lone: &mut L,
    geometry: Geometry,
    found: &Candidates,
    digest: Digest,
    spot: Spot,
) -> Result<Sought, LoneNo>
    requires volume { L.volume lone.old ≡ geometry }
    requires pointer { HasField geometry (Field.Pointer spot.file spot.index) }
    requires table { IsTable geometry (spot_at found.now.spots) }
    requires sound { IfSome (L.told lone.old) (λ t. IsSound geometry t.image) }
    ensures sought { IfOk result (λ sought. IfSome (L.told lone.new) (λ t. IsSought geometry t.image (spot_at found.now.spots) spot.file spot.index digest sought)) }
    ensures numbered { IfOk result (IsNumbered (spot_at found.now.spots) digest) }
    ensures moves { OnImages (Moves geometry spot.file spot.index) (L.told lone.old) (L.told lone.new) }
    ensures volume { L.volume lone.new ≡ geometry }
    ensures on { GoesOn (L.counter lone.old) (L.counter lone.new) (L.told lone.old) (L.told lone.new) }
    ensures began { L.began lone.new ≡ L.began lone.old }
    ensures count { (n : ℕ) → spot_at found.now.spots digest n ≡ None → L.answered lone.new ≤ L.answered lone.old + 18 * n }
    ensures stopped { IfErr result (IsRefused (L.stopped lone.new)) }
{
    for number in 0..u32::MAX {
        let source = match found.find(digest, number) {
            Some(source) => source,
            None => return Ok(Sought::Fresh(number)),
        };
        match compare(lone, geometry, spot.file, spot.index, source) {
            Ok(Compared::Same) => return Ok(Sought::Joined),
            Ok(Compared::Hole) => return Ok(Sought::Hole),
            Ok(Compared::Other) => {}
            Err(why) => return Err(why),
        }
    }
    Err(LoneNo::NoMemory)
}
