// The settling of one place.
ghost use Rattle.std.specs.Prelude.{◌≡◌, ◌+◌, ◌≤◌, ◌<◌, IfErr, IfOk, IfSome, OnOk};
ghost use Rattle.fingerprint.specs.DigestOf.{digest_of};
ghost use Rattle.indexmap.specs.IndexMap.{index_map_len};
ghost use Rattle.settle.specs.Contents.{NoClash};
ghost use Rattle.settle.specs.Gathered.{IsGathered, IsNext, IsNextBlock, IsTable, spot_at};
ghost use Rattle.settle.specs.Moves.{Stays};
ghost use Rattle.settle.specs.Passes.{GoesOn};
ghost use Rattle.settle.specs.Reads.{IsApart};
ghost use Rattle.settle.specs.Rows.{IsPlaced, PlaceComes, most_calls};
ghost use Rattle.settle.specs.Stops.{IsRefused};
ghost use Rattle.shared_disk.specs.State.{OnImages};
ghost use Rattle.vol_layout.specs.declared.field.Field.{Field};
ghost use Rattle.vol_layout.specs.Fields.{HasField};

use crate::candidates::{Candidates, Spot};
use crate::comparing::is_hole;
use crate::lone::{Lone, LoneNo};
use crate::reading::read_block;
use crate::seeking::{Sought, seek};
use fingerprint::digest_of;
use vol_base::{Block, Digest, NoMemory};
use vol_layout::Geometry;

/// Settles one place of a file: whether it has a block; none at the file's end.
pub fn settle_place<L: Lone>(
    lone: &mut L,
    geometry: Geometry,
    found: &mut Candidates,
    spot: Spot,
) -> Result<Option<bool>, LoneNo>
    requires volume { L.volume lone.old ≡ geometry }
    requires pointer { HasField geometry (Field.Pointer spot.file spot.index) }
    requires table { IsTable geometry (spot_at found.old.spots) }
    requires gathered { IfSome (L.told lone.old) (λ t. IsGathered geometry t.image (spot_at found.old.spots) spot.file spot.index) }
    ensures comes { IfOk result (λ filled. OnImages (PlaceComes geometry spot.file spot.index (spot_at found.new.spots) filled) (L.told lone.old) (L.told lone.new)) }
    ensures stays { OnImages (Stays geometry) (L.told lone.old) (L.told lone.new) }
    ensures table { OnOk result (IsTable geometry (spot_at found.new.spots)) }
    ensures len { index_map_len found.new.spots ≤ index_map_len found.old.spots + 1 }
    ensures volume { L.volume lone.new ≡ geometry }
    ensures on { GoesOn (L.counter lone.old) (L.counter lone.new) (L.told lone.old) (L.told lone.new) }
    ensures began { L.began lone.new ≡ L.began lone.old }
    ensures count { IfSome (L.told lone.old) (λ t. NoClash geometry t.image → L.answered lone.new ≤ L.answered lone.old + most_calls geometry t.image spot.file spot.index) }
    ensures stopped { IfErr result (IsRefused (L.stopped lone.new)) }
{
    let block = match read_block(lone, geometry, spot.file, spot.index) {
        Ok(Some(block)) => block,
        Ok(None) => return Ok(None),
        Err(why) => return Err(why),
    };
    match settle_block(lone, geometry, found, spot, &block) {
        Ok(live) => Ok(Some(live)),
        Err(why) => Err(why),
    }
}

// Settles a place that shows this block: whether it is one of its own, and no hole.
fn settle_block<L: Lone>(
    lone: &mut L,
    geometry: Geometry,
    found: &mut Candidates,
    spot: Spot,
    block: &Block,
) -> Result<bool, LoneNo>
    requires volume { L.volume lone.old ≡ geometry }
    requires pointer { HasField geometry (Field.Pointer spot.file spot.index) }
    requires table { IsTable geometry (spot_at found.old.spots) }
    requires next { IfSome (L.told lone.old) (λ t. IsNextBlock geometry t.image (spot_at found.old.spots) spot.file spot.index block.now) }
    ensures placed { IfOk result (λ live. OnImages (IsPlaced geometry spot.file spot.index (spot_at found.new.spots) live) (L.told lone.old) (L.told lone.new)) }
    ensures stays { OnImages (Stays geometry) (L.told lone.old) (L.told lone.new) }
    ensures table { OnOk result (IsTable geometry (spot_at found.new.spots)) }
    ensures len { index_map_len found.new.spots ≤ index_map_len found.old.spots + 1 }
    ensures volume { L.volume lone.new ≡ geometry }
    ensures on { GoesOn (L.counter lone.old) (L.counter lone.new) (L.told lone.old) (L.told lone.new) }
    ensures began { L.began lone.new ≡ L.began lone.old }
    ensures count { IfSome (L.told lone.old) (λ t. NoClash geometry t.image → L.answered lone.new ≤ L.answered lone.old + 36) }
    ensures stopped { IfErr result (IsRefused (L.stopped lone.new)) }
{
    let digest = digest_of(block);
    match seek(lone, geometry, found, digest, spot) {
        Ok(Sought::Joined) => Ok(true),
        Ok(Sought::Hole) => Ok(false),
        Ok(Sought::Fresh(number)) => settle_fresh(
            lone, geometry, found, digest, number, spot, block,
        ),
        Err(why) => Err(why),
    }
}

// Settles a place that no representative of this digest, its block's, is equal to: where it is no hole, it is one itself, under this number.
fn settle_fresh<L: Lone>(
    lone: &mut L,
    geometry: Geometry,
    found: &mut Candidates,
    digest: Digest,
    number: u32,
    spot: Spot,
    block: &Block,
) -> Result<bool, LoneNo>
    requires volume { L.volume lone.old ≡ geometry }
    requires pointer { HasField geometry (Field.Pointer spot.file spot.index) }
    requires table { IsTable geometry (spot_at found.old.spots) }
    requires digest { digest ≡ digest_of block.now }
    requires free { IsNext (spot_at found.old.spots) (digest_of block.now) number }
    requires next { IfSome (L.told lone.old) (λ t. IsNextBlock geometry t.image (spot_at found.old.spots) spot.file spot.index block.now) }
    requires apart { IfSome (L.told lone.old) (λ t. IsApart geometry t.image (spot_at found.old.spots) spot.file spot.index (digest_of block.now) number) }
    ensures placed { IfOk result (λ live. OnImages (IsPlaced geometry spot.file spot.index (spot_at found.new.spots) live) (L.told lone.old) (L.told lone.new)) }
    ensures stays { OnImages (Stays geometry) (L.told lone.old) (L.told lone.new) }
    ensures table { OnOk result (IsTable geometry (spot_at found.new.spots)) }
    ensures len { index_map_len found.new.spots ≤ index_map_len found.old.spots + 1 }
    ensures volume { L.volume lone.new ≡ geometry }
    ensures on { GoesOn (L.counter lone.old) (L.counter lone.new) (L.told lone.old) (L.told lone.new) }
    ensures began { L.began lone.new ≡ L.began lone.old }
    ensures count { L.answered lone.new ≤ L.answered lone.old + 18 }
    ensures stopped { IfErr result (IsRefused (L.stopped lone.new)) }
{
    match is_hole(lone, geometry, spot, block) {
        Ok(true) => return Ok(false),
        Ok(false) => {}
        Err(why) => return Err(why),
    }
    match found.add(digest, number, spot) {
        Ok(()) => Ok(true),
        Err(NoMemory) => Err(LoneNo::NoMemory),
    }
}
