// The 32 bytes of an entry: a digest and three numbers.
ghost use Rattle.std.specs.Prelude.{◌≡◌, ◌≤◌, ◌+◌, [], ◌∷◌, ◌++◌, drop, length, take};
ghost use Rattle.vol_base.specs.Bytes.{bytes_of, u32_at};
ghost use Rattle.hint_blocks.specs.Entries.{digest_at, spelled};

use byteorder::{BigEndian, ByteOrder};
use vol_base::Digest;

/// A digest and three numbers behind it.
pub fn written(digest: &Digest, first: u32, second: u32, third: u32) -> [u8; 32]
    ensures { result ≡ spelled digest.now (first ∷ second ∷ third ∷ []) }
{
    let mut entry = [0; 32];
    entry[..20].copy_from_slice(&digest.0);
    put_number(&mut entry, 20, first);
    put_number(&mut entry, 24, second);
    put_number(&mut entry, 28, third);
    entry
}

// The four bytes of a number from byte `at` on, the highest first.
fn put_number(entry: &mut [u8], at: usize, number: u32)
    requires { at + 4 ≤ length entry.old }
    ensures { entry.new ≡ take at entry.old ++ (bytes_of 4 number ++ drop (at + 4) entry.old) }
{
    BigEndian::write_u32(&mut entry[at..], number);
}

/// The digest at the front of an entry.
pub fn digest_in(entry: &[u8; 32]) -> Digest
    ensures { result ≡ digest_at entry.now }
{
    let mut digest = Digest([0; 20]);
    digest.0.copy_from_slice(&entry[..20]);
    digest
}

/// The number in the four bytes from byte `at` on, the highest first.
#[tactic(auto, unfolding(vol_base::specs::Bytes::number_at))]
pub fn number_in(entry: &[u8], at: usize) -> u32
    requires { at + 4 ≤ length entry.now }
    ensures { result ≡ u32_at entry.now at }
{
    BigEndian::read_u32(&entry[at..])
}
