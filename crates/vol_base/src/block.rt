// What a volume stores, and the two names that go with it.
ghost use Rattle.std.specs.Prelude.{◌≡◌, ◌<◌, ◌≤◌, ◌+◌, ◌↔◌, IsTrue, All, drop, length};
ghost use Rattle.vol_base.specs.Bytes.{IsBlock, u32_at, u64_at, zeros};

use byteorder::{BigEndian, ByteOrder};

/// One block of a volume: 4,096 bytes. It is `Copy`: a block that is passed by value is moved
/// byte by byte, so the calls below take it by reference.
#[derive(Clone, Copy, Debug, PartialEq, Eq)]
pub struct Block(pub [u8; 4096]);

/// A host's registration on a device. The number modulo 16 is the host, and divided by 16 the
/// device's counter at the registration; no key is 0.
#[derive(Clone, Copy, Debug, PartialEq, Eq)]
pub struct Key(pub u64);

/// The SHA-1 of a block, 20 bytes.
#[derive(Clone, Copy, Debug, PartialEq, Eq, Hash)]
pub struct Digest(pub [u8; 20]);

impl Block {
    /// The block whose bytes are all 0. It hands out a whole block.
    pub fn zeros() -> Block
        ensures { result.0 ≡ zeros 4096 }
    {
        Block([0; 4096])
    }

    /// The block of these bytes. It copies a whole block.
    pub fn of_bytes(bytes: &[u8]) -> Block
        requires { length bytes.now ≡ 4096 }
        ensures bytes { result.0 ≡ bytes.now }
        ensures block { IsBlock result.0 }
    {
        let mut block = Block::zeros();
        block.0.copy_from_slice(bytes);
        block
    }

    /// The bytes of the block.
    pub fn bytes(&self) -> &[u8]
        ensures bytes { result.now ≡ self.now.0 }
        ensures block { IsBlock self.now.0 }
    {
        from(&self.0, 0)
    }

    /// Whether all bytes are 0.
    pub fn is_zeros(&self) -> bool
        ensures { IsTrue result ↔ (self.now.0 ≡ zeros 4096) }
    {
        self.same(&Block::zeros())
    }

    /// Whether the two blocks have the same bytes.
    pub fn same(&self, other: &Block) -> bool
        ensures { IsTrue result ↔ (self.now ≡ other.now) }
    {
        self == other
    }

    /// The big-endian number in the four bytes from byte `at` on.
    pub fn u32_at(&self, at: usize) -> u32
        requires { at + 4 ≤ 4096 }
        ensures number { result ≡ u32_at self.now.0 at }
        ensures block { IsBlock self.now.0 }
    {
        BigEndian::read_u32(from(&self.0, at))
    }

    /// The big-endian number in the eight bytes from byte `at` on.
    pub fn u64_at(&self, at: usize) -> u64
        requires { at + 8 ≤ 4096 }
        ensures number { result ≡ u64_at self.now.0 at }
        ensures block { IsBlock self.now.0 }
    {
        BigEndian::read_u64(from(&self.0, at))
    }
}

/// Each block of a list is 4,096 bytes, as its type says. A contract learns it by this call, which
/// does nothing.
pub fn are_blocks(blocks: &[Block])
    ensures { All (λ block. IsBlock block.0) blocks.now }
{
    for block in blocks {
        let _bytes = block.bytes();
    }
}

// A slice keeps its end in a proof as it stands; an array of known length would not.
fn from(bytes: &[u8], at: usize) -> &[u8]
    requires { at ≤ length bytes.now }
    ensures rest { result.now ≡ drop at bytes.now }
    ensures small { All (λ byte. byte < 256) bytes.now }
{
    &bytes[at..]
}
