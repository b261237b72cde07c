// A file's pointer, as it stands in a table.
ghost use Rattle.std.specs.Prelude.{◌≡◌, ◌^◌, ◌%◌};
ghost use Rattle.image_view.specs.Pointers.{IsNumber, pointer_number};

use vol_base::DataNo;

/// What a file's pointer says: a hole, or a data block and whether the pointer has the mark of a
/// shared block.
#[derive(Clone, Copy, Debug, PartialEq, Eq)]
pub enum Number {
    Hole,
    At(DataNo, bool),
}

// The mark of a shared block, above the bits that name the block.
const MARK: u32 = 1 << 31;

/// The pointer that a number says. It is the one pointer whose number this is.
pub fn read_pointer(number: u32) -> Number
    requires { number % 2 ^ 31 ≡ 0 → number ≡ 0 }
    ensures says { pointer_number result ≡ number }
    ensures range { IsNumber result }
{
    if number == 0 {
        Number::Hole
    } else if number < MARK {
        Number::At(number - 1, false)
    } else {
        Number::At(number - MARK - 1, true)
    }
}

/// The number of a pointer. Where the data number is below `2^31 - 1`, as on every volume, the number
/// reads as this pointer again.
pub fn write_pointer(number: &Number) -> u32
    ensures { IsNumber number.now → result ≡ pointer_number number.now }
{
    match *number {
        Number::Hole => 0,
        Number::At(data, shared) => {
            let name = (data % MARK + 1) % MARK;
            if shared { name + MARK } else { name }
        }
    }
}
