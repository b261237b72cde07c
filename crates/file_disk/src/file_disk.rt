// A device over a file.
ghost use Rattle.std.specs.Prelude.{◌≡◌, false, IfOk};
ghost use Rattle.file_disk.specs.StoredDisk.{fresh, keyed_of};
ghost use Rattle.file_disk.specs.VolumeFile.{is_opened};

use crate::stored_disk::{KEYS, StoredDisk};
use crate::volume_file::VolumeFile;
use std::alloc::Global;
use std::fs::File;
use std::rt::Files;
use vol_base::NoMemory;

/// A device over a file. It tells nothing of its content.
pub type FileDisk = StoredDisk<VolumeFile>;

impl StoredDisk<VolumeFile> {
    /// A device over the file of this path, which is made where it is not there and never cut. No
    /// key is registered. Where the file could not be opened, each `register` answers `Failed`.
    pub fn new<R: Files<File = File>>(
        rt: &R,
        alloc: Global,
        path: &str,
    ) -> Result<FileDisk, NoMemory>
        ensures fresh { IfOk result (λ d. keyed_of d ≡ fresh (keyed_of d).store (keyed_of d).counter) }
        ensures closed { IfOk result (λ d. is_opened (keyed_of d).store ≡ false → (keyed_of d).counter ≡ 0) }
    {
        let keys = Vec::with_capacity(alloc, KEYS)?;
        let (file, counter) = VolumeFile::open(rt, path);
        Ok(FileDisk::with_keys(keys, file, counter))
    }
}
