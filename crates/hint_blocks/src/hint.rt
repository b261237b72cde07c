// What the entries of the three kinds of hint blocks have in common.
ghost use Rattle.std.specs.Prelude.{◌≡◌, ℕ, List, Option, Some, IfSome, length};
ghost use Rattle.vol_layout.specs.Ranges.{IsGeometry};
ghost use Rattle.vol_layout.specs.declared.geometry.Geometry.{Geometry};

use vol_base::Digest;
use vol_layout::Geometry;

/// An entry of a hint block: 32 bytes that begin with a digest. What may stand in it depends on the
/// geometry of the volume.
pub trait Hint: Copy {
    /// The magic of the block.
    ghost MAGIC: { List ℕ };

    /// What the volume allows to stand in an entry.
    ghost IsInRange: { Geometry → Self → Type 0 };

    /// The entry that 32 bytes stand for, where it is in range.
    ghost read: { Geometry → List ℕ → Option Self };

    /// The bytes that are written for an entry.
    ghost entry_bytes: { Self → List ℕ };

    /// The bytes of the digest.
    ghost digest_bytes: { Self → List ℕ };

    /// The magic of the entry's block.
    const MAGIC: [u8; 8];

    /// What 32 bytes of a block stand for. It is `None` exactly where that is out of range.
    fn from_entry(entry: &[u8; 32], geometry: &Geometry) -> Option<Self>
        requires { IsGeometry geometry.now }
        ensures { result ≡ read geometry.now entry.now };

    /// The 32 bytes of the entry. What is not looked at is 0.
    fn to_entry(&self) -> [u8; 32]
        ensures { result ≡ entry_bytes self.now };

    /// The digest that the hint is about.
    fn digest(&self) -> Digest
        ensures { result.0 ≡ digest_bytes self.now };

    /// What is read is in range.
    ghost reads_in_range: { (g : Geometry) (bytes : List ℕ) → IfSome (read g bytes) (IsInRange g) };

    /// What is written for an entry in range reads as it.
    ghost reads_back: { (g : Geometry) (hint : Self) → IsGeometry g → IsInRange g hint
        → length (entry_bytes hint) ≡ 32 → read g (entry_bytes hint) ≡ Some hint };
}
