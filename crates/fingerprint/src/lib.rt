//! The fingerprint of a block: its SHA-1 (FIPS 180-4), by which equal blocks are found. Two blocks of
//! one digest may still differ.
//!
//! # What is proved
//!
//! - `digest_of` is exactly the SHA-1 of the block's bytes, by the definition of the ported crate `sha1`.
#![tactic(auto)]

ghost use Rattle.std.specs.Prelude.{◌≡◌};
ghost use Rattle.fingerprint.specs.DigestOf.{digest_of};

use sha1::Sha1;
use vol_base::{Block, Digest};

/// The SHA-1 of the block's 4,096 bytes. It takes no memory.
pub fn digest_of(block: &Block) -> Digest
    ensures { result ≡ digest_of block.now }
{
    Digest(Sha1::digest(&block.0))
}
