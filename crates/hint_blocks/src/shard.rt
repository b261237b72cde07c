// The shard of the index in which a digest stands.
ghost use Rattle.std.specs.Prelude.{◌≡◌, ◌≤◌, ◌<◌, ◌%◌};
ghost use Rattle.vol_base.specs.Bytes.{u32_at};

use crate::spelling::number_in;
use vol_base::Digest;

/// The shard of a digest, of so many, at least one: the big-endian number in its first four bytes, modulo
/// the number of shards.
pub fn shard_of(digest: &Digest, shards: u8) -> u8
    requires { 1 ≤ shards }
    ensures shard { result ≡ u32_at digest.now.0 0 % shards }
    ensures within { result < shards }
{
    (number_in(&digest.0, 0) % u32::from(shards)) as u8
}
