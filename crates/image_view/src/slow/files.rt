// The files of an image.
ghost use Rattle.std.specs.Prelude.{◌≡◌, ◌<◌, IfOk, IsErrOf, option_map};
ghost use Rattle.vol_layout.specs.Fields.{IsPointer};
ghost use Rattle.image_view.specs.Blocks.{IsFileInRange, IsVolumeOf, image_of};
ghost use Rattle.image_view.specs.Files.{content, volume_file};

use crate::pointer::{Number, read_pointer};
use crate::slow::fields::{block, logical};
use std::alloc::Global;
use vol_base::{Block, FileNo};
use vol_layout::{Field, Geometry, Kind};

/// Why a file is not read.
#[derive(Clone, Copy, Debug, PartialEq, Eq)]
pub enum ReadNo {
    /// The head, or a pointer below the length, is a number that may not stand there.
    OutOfRange,
    /// There was no memory for the blocks.
    NoMemory,
}

/// The blocks of a file, or `None` where it is not there.
pub fn file(
    alloc: Global,
    image: &[Block],
    geometry: &Geometry,
    file: FileNo,
) -> Result<Option<Vec<Block>>, ReadNo>
    requires volume { IsVolumeOf geometry.now (image_of image.now) }
    requires file { file < geometry.now.files }
    ensures file { IfOk result (λ found. option_map (λ blocks. blocks.items) found ≡ volume_file geometry.now (image_of image.now) file) }
    ensures range { IsErrOf result ReadNo.OutOfRange → IsFileInRange geometry.now (image_of image.now) file → ⊥ }
{
    let head = logical(image, geometry, &Field::Head(file));
    if !geometry.allows(&Field::Head(file), head) {
        return Err(ReadNo::OutOfRange);
    }
    if head == 0 {
        return Ok(None);
    }
    let mut blocks = Vec::new(alloc);
    for index in 0..head - 1 {
        let field = Field::Pointer(file, index);
        let pointer = logical(image, geometry, &field);
        if !geometry.allows(&field, pointer) {
            return Err(ReadNo::OutOfRange);
        }
        if blocks.push(shown(image, geometry, pointer)).is_err() {
            return Err(ReadNo::NoMemory);
        }
    }
    Ok(Some(blocks))
}

// The block that a pointer shows.
fn shown(image: &[Block], geometry: &Geometry, pointer: u32) -> Block
    requires volume { IsVolumeOf geometry.now (image_of image.now) }
    requires pointer { IsPointer geometry.now pointer }
    ensures { result ≡ content geometry.now (image_of image.now) pointer }
{
    match read_pointer(pointer) {
        Number::Hole => Block::zeros(),
        Number::At(data, _) => *block(image, geometry, Kind::Number(data)),
    }
}
