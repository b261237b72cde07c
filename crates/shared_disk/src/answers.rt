// What a call of a device answers.
ghost use Rattle.std.specs.Prelude.{◌≡◌};

use std::alloc::AllocError;
use vol_base::Block;

/// Why a device refused a call. After each refusal the content, the keys and the counter are as before.
#[derive(Clone, Copy, Debug, PartialEq, Eq)]
pub enum DiskNo {
    /// The caller's key is not registered.
    Fenced,
    /// The device failed.
    Failed,
    /// The counter is at its end, `2^59 - 1`, and no key is left.
    NoKeys,
    /// There was no memory to keep the call's change.
    NoMemory,
}

/// What a test-and-set found.
#[derive(Clone, Copy, Debug, PartialEq, Eq)]
pub enum Tested {
    /// The block was the old one, and the new one was written.
    Swapped,
    /// This other block stands there, and nothing was written.
    Found(Block),
}

impl From<AllocError> for DiskNo {
    ghost use Rattle.shared_disk.specs.declared.answers.DiskNo.{DiskNo};

    ghost from_gives = { λ _ refusal. refusal ≡ DiskNo.NoMemory };

    fn from(_: AllocError) -> DiskNo {
        DiskNo::NoMemory
    }
}
