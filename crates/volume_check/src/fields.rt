// Fields and their numbers.
ghost use Rattle.std.specs.Prelude.{◌≡◌, ◌↔◌, IsTrue};

use vol_layout::Field;

/// The mark of a shared block in a pointer; the bits below it name the data block.
pub const MARK: u32 = 1 << 31;

/// Whether two fields are the same.
pub fn are_same(one: &Field, other: &Field) -> bool
    ensures { IsTrue result ↔ (one.now ≡ other.now) }
{
    one == other
}
