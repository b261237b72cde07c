// How often data numbers are mapped, and how much of a volume is used.
ghost use Rattle.std.specs.Prelude.{◌≡◌, ◌<◌, ◌≤◌, ◌*◌, sum_by};
ghost use Rattle.std.specs.List.{range_with_len};
ghost use Rattle.vol_layout.specs.declared.field.Field.TheVariants.{Pointer, Slot};
ghost use Rattle.vol_layout.specs.Ranges.{arena_slots, data_blocks, limit};
ghost use Rattle.image_view.specs.Blocks.{IsVolumeOf, hits, image_of};
ghost use Rattle.image_view.specs.Mappings.{reference_fields, uses};
ghost use Rattle.image_view.specs.Numbers.{logical};
ghost use Rattle.image_view.specs.Usages.{usage_in, used_numbers};

use crate::slow::fields::logical;
use crate::usage::Usage;
use vol_base::{Block, DataNo, FileNo};
use vol_layout::{Field, Geometry};

/// How often a data number is mapped.
pub fn uses(image: &[Block], geometry: &Geometry, number: DataNo) -> u32
    requires { IsVolumeOf geometry.now (image_of image.now) }
    ensures { result ≡ uses geometry.now (image_of image.now) number }
{
    mapped(image, geometry, Some(number))
}

/// How much of the volume is used.
pub fn usage(image: &[Block], geometry: &Geometry) -> Usage
    requires { IsVolumeOf geometry.now (image_of image.now) }
    ensures { result ≡ usage_in geometry.now (image_of image.now) }
{
    Usage {
        used: used(image, geometry),
        mapped: mapped(image, geometry, None),
    }
}

// How many data numbers have a count that is not 0.
fn used(image: &[Block], geometry: &Geometry) -> u32
    requires { IsVolumeOf geometry.now (image_of image.now) }
    ensures { result ≡ used_numbers geometry.now (image_of image.now) }
{
    let mut used = 0;
    for number in 0..geometry.data_blocks() {
        used += u32::from(logical(image, geometry, &Field::Count(number)) > 0);
    }
    used
}

// How many pointers and slots name a data number, or the one that is wanted.
fn mapped(image: &[Block], geometry: &Geometry, wanted: Option<DataNo>) -> u32
    requires { IsVolumeOf geometry.now (image_of image.now) }
    ensures { result ≡ sum_by (λ x. hits wanted (logical geometry.now (image_of image.now) x)) (reference_fields geometry.now) }
{
    let mut mapped = 0;
    for file in 0..geometry.files {
        mapped += mapped_by_file(image, geometry, file, wanted);
    }
    mapped + mapped_by_slots(image, geometry, wanted)
}

fn mapped_by_file(image: &[Block], geometry: &Geometry, file: FileNo, wanted: Option<DataNo>) -> u32
    requires volume { IsVolumeOf geometry.now (image_of image.now) }
    requires file { file < geometry.now.files }
    ensures mapped { result ≡ sum_by (λ i. hits wanted (logical geometry.now (image_of image.now) (Pointer file i))) (range_with_len 0 (limit geometry.now)) }
    ensures bounded { result ≤ 16128 }
{
    let mut mapped = 0;
    for index in 0..geometry.limit() {
        mapped += hits(
            logical(image, geometry, &Field::Pointer(file, index)),
            wanted,
        );
    }
    mapped
}

fn mapped_by_slots(image: &[Block], geometry: &Geometry, wanted: Option<DataNo>) -> u32
    requires { IsVolumeOf geometry.now (image_of image.now) }
    ensures mapped { result ≡ sum_by (λ s. hits wanted (logical geometry.now (image_of image.now) (Slot s))) (range_with_len 0 (arena_slots geometry.now)) }
    ensures bounded { result ≤ 16128 }
{
    let mut mapped = 0;
    for slot in 0..geometry.arena_slots() {
        mapped += hits(logical(image, geometry, &Field::Slot(slot)), wanted);
    }
    mapped
}

// 1 where a pointer or slot names a data number, or the one that is wanted, and else 0.
fn hits(number: u32, wanted: Option<DataNo>) -> u32
    ensures hits { result ≡ hits wanted number }
    ensures bounded { result ≤ 1 }
{
    let name = number % (1 << 31);
    match wanted {
        _ if name == 0 => 0,
        None => 1,
        Some(data) => u32::from(name - 1 == data),
    }
}
