// Settling: all equal blocks of a volume come to be one.
ghost use Rattle.std.specs.Prelude.{◌≡◌, ◌+◌, ◌*◌, ◌<◌, ◌≤◌, IfErr, IfOk, IfSome, OnOk, if◌then◌else◌};
ghost use Rattle.call_effects.specs.Places.{KeepsFiles};
ghost use Rattle.image_view.specs.Settled.{IsSettled};
ghost use Rattle.indexmap.specs.IndexMap.{index_map_len};
ghost use Rattle.settle.specs.Contents.{NoClash};
ghost use Rattle.settle.specs.Distinct.{HasContents};
ghost use Rattle.settle.specs.Gathered.{IsGathered, IsTable, spot_at};
ghost use Rattle.settle.specs.Moves.{Stays};
ghost use Rattle.settle.specs.Passes.{GoesOn};
ghost use Rattle.settle.specs.Rows.{IsCut, IsRun, IsWholeRow, most_in_all, most_in_file};
ghost use Rattle.settle.specs.Sound.{IsSound};
ghost use Rattle.settle.specs.Stops.{IsRefused};
ghost use Rattle.settle.specs.Totals.{live_places, places_of};
ghost use Rattle.shared_disk.specs.State.{OnImages};
ghost use Rattle.vol_layout.specs.Ranges.{IsGeometry};

use crate::candidates::{Candidates, Spot};
use crate::lone::{Lone, LoneNo};
use crate::placing::settle_place;
use std::alloc::Global;
use vol_base::FileNo;
use vol_layout::Geometry;

/// What was settled.
#[derive(Clone, Copy, Debug, PartialEq, Eq)]
pub struct Settled {
    /// The places of files, below their lengths, that are no holes: at most 1,032,192.
    pub live: u32,
    /// How many different blocks they hold.
    pub distinct: u32,
}

/// Links every block of a file to the first place, in the order of files and indexes, whose bytes are equal. It needs memory for each
/// different block: where there is none, it answers `NoMemory`, and the host goes on.
#[tactic(none)]
pub fn settle<L: Lone>(alloc: Global, lone: &mut L) -> Result<Settled, LoneNo>
    requires sound { IfSome (L.told lone.old) (λ t. IsSound (L.volume lone.old) t.image) }
    ensures settled { OnOk result (IfSome (L.told lone.new) (λ t. IsSettled t.image)) }
    ensures stays { OnImages (Stays (L.volume lone.old)) (L.told lone.old) (L.told lone.new) }
    ensures files { OnImages KeepsFiles (L.told lone.old) (L.told lone.new) }
    ensures live { IfOk result (λ settled. IfSome (L.told lone.old) (λ t. settled.live ≡ live_places (L.volume lone.old) t.image)) }
    ensures distinct { IfOk result (λ settled. IfSome (L.told lone.old) (λ t. HasContents (L.volume lone.old) t.image settled.distinct)) }
    ensures count { IfSome (L.told lone.old) (λ t. NoClash (L.volume lone.old) t.image
        → L.answered lone.new ≤ L.answered lone.old + (40 * places_of (L.volume lone.old) t.image + 4 * (L.volume lone.old).files)) }
    ensures on { GoesOn (L.counter lone.old) (L.counter lone.new) (L.told lone.old) (L.told lone.new) }
    ensures began { L.began lone.new ≡ L.began lone.old }
    ensures stopped { IfErr result (IsRefused (L.stopped lone.new)) }
{
    let geometry = lone.geometry();
    let mut found = Candidates::none(alloc);
    match settle_files(lone, geometry, &mut found) {
        Ok(live) => Ok(Settled {
            live,
            distinct: found.len(),
        }),
        Err(why) => Err(why),
    }
}

// Settles all files: how many places are no holes.
#[tactic(none)]
fn settle_files<L: Lone>(
    lone: &mut L,
    geometry: Geometry,
    found: &mut Candidates,
) -> Result<u32, LoneNo>
    requires volume { L.volume lone.old ≡ geometry }
    requires range { IsGeometry geometry }
    requires table { IsTable geometry (spot_at found.old.spots) }
    requires none { index_map_len found.old.spots ≡ 0 }
    requires gathered { IfSome (L.told lone.old) (λ t. IsGathered geometry t.image (spot_at found.old.spots) 0 0) }
    ensures run { IfOk result (λ live. OnImages (IsRun geometry geometry.files (spot_at found.new.spots) live (L.answered lone.old) (L.answered lone.new))
        (L.told lone.old) (L.told lone.new)) }
    ensures cut { IfErr result (λ why. OnImages (IsCut geometry (most_in_all geometry) (L.answered lone.old) (L.answered lone.new)) (L.told lone.old) (L.told lone.new)) }
    ensures len { index_map_len found.new.spots ≤ 16128 * geometry.files }
    ensures volume { L.volume lone.new ≡ geometry }
    ensures on { GoesOn (L.counter lone.old) (L.counter lone.new) (L.told lone.old) (L.told lone.new) }
    ensures began { L.began lone.new ≡ L.began lone.old }
    ensures stopped { IfErr result (IsRefused (L.stopped lone.new)) }
{
    let mut live = 0;
    for file in 0..geometry.files {
        match settle_file(lone, geometry, found, file) {
            Ok(more) => live += more,
            Err(why) => return Err(why),
        }
    }
    Ok(live)
}

// Settles one file: how many of its places are no holes.
#[tactic(none)]
fn settle_file<L: Lone>(
    lone: &mut L,
    geometry: Geometry,
    found: &mut Candidates,
    file: FileNo,
) -> Result<u32, LoneNo>
    requires volume { L.volume lone.old ≡ geometry }
    requires range { IsGeometry geometry }
    requires file { file < geometry.files }
    requires table { IsTable geometry (spot_at found.old.spots) }
    requires gathered { IfSome (L.told lone.old) (λ t. IsGathered geometry t.image (spot_at found.old.spots) file 0) }
    ensures row { IfOk result (λ live. OnImages (IsWholeRow geometry file (spot_at found.new.spots) live (L.answered lone.old) (L.answered lone.new))
        (L.told lone.old) (L.told lone.new)) }
    ensures cut { IfErr result (λ why. OnImages (IsCut geometry (most_in_file geometry file) (L.answered lone.old) (L.answered lone.new)) (L.told lone.old) (L.told lone.new)) }
    ensures few { IfOk result (λ live. live ≤ 16128) }
    ensures table { OnOk result (IsTable geometry (spot_at found.new.spots)) }
    ensures len { index_map_len found.new.spots ≤ index_map_len found.old.spots + 16128 }
    ensures volume { L.volume lone.new ≡ geometry }
    ensures on { GoesOn (L.counter lone.old) (L.counter lone.new) (L.told lone.old) (L.told lone.new) }
    ensures began { L.began lone.new ≡ L.began lone.old }
    ensures stopped { IfErr result (IsRefused (L.stopped lone.new)) }
{
    let mut live = 0;
    for index in 0..geometry.limit() {
        match settle_place(lone, geometry, found, Spot { file, index }) {
            Ok(Some(filled)) => live += number_of(filled),
            Ok(None) => return Ok(live),
            Err(why) => return Err(why),
        }
    }
    Ok(live)
}

// 1 for a place that is no hole.
fn number_of(filled: bool) -> u32
    ensures { result ≡ (if filled then 1 else 0) }
{
    if filled { 1 } else { 0 }
}
