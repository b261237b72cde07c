// The read of a place.
ghost use Rattle.std.specs.Prelude.{◌≡◌, ◌+◌, ◌<◌, ◌≤◌, IfErr, IfOk, IfSome};
ghost use Rattle.settle.specs.Passes.{GoesOn};
ghost use Rattle.settle.specs.Reads.{ReadsAs, block_in};
ghost use Rattle.settle.specs.Sound.{IsSound};
ghost use Rattle.settle.specs.Stops.{IsStopped};

use crate::lone::{Lone, LoneNo};
use vol_base::{Block, FileNo, PlainReply};
use vol_layout::Geometry;

/// What a file shows at an index; none at its end. At most three calls of the device are made.
pub fn read_block<L: Lone>(
    lone: &mut L,
    geometry: Geometry,
    file: FileNo,
    index: u32,
) -> Result<Option<Block>, LoneNo>
    requires volume { L.volume lone.old ≡ geometry }
    requires file { file < geometry.files }
    requires sound { IfSome (L.told lone.old) (λ t. IsSound geometry t.image) }
    ensures read { IfOk result (λ block. IfSome (L.told lone.old) (λ t. ReadsAs geometry t.image file index block)) }
    ensures same { L.told lone.new ≡ L.told lone.old }
    ensures volume { L.volume lone.new ≡ geometry }
    ensures on { GoesOn (L.counter lone.old) (L.counter lone.new) (L.told lone.old) (L.told lone.new) }
    ensures began { L.began lone.new ≡ L.began lone.old }
    ensures count { L.answered lone.new ≤ L.answered lone.old + 3 }
    ensures stopped { IfErr result (IsStopped (L.stopped lone.new)) }
{
    match lone.read(file, index) {
        Ok(reply) => Ok(block_in(reply)),
        Err(why) => Err(why),
    }
}

// The block in a reply.
fn block_in(reply: PlainReply) -> Option<Block>
    ensures { result ≡ block_in reply }
{
    match reply {
        PlainReply::Holds(block) => Some(block),
        _ => None,
    }
}
