// How many of each thing a volume has.
ghost use Rattle.std.specs.Prelude.{◌≤◌, ◌↔◌, IsTrue};
ghost use Rattle.vol_layout.specs.Ranges.{IsGeometry};

/// The geometry of a volume: 1 to 16 hosts, 1 to 64 files, 1 to 64 groups of 1,008 data blocks, 1 to
/// 16 parts of the arena with 1,008 slots each, 1 to 64 shards of the index, 1 to 16 log blocks a
/// host, and 1 to 16 table blocks a file, each with 1,008 pointers. A volume of version 1 has one
/// table block a file.
#[derive(Clone, Copy, Debug, PartialEq, Eq)]
pub struct Geometry {
    pub hosts: u8,
    pub files: u8,
    pub groups: u8,
    pub parts: u8,
    pub shards: u8,
    pub logs: u8,
    pub tables: u8,
}

/// The block is no superblock.
#[derive(Clone, Copy, Debug, PartialEq, Eq)]
pub struct NotVolume;

impl Geometry {
    /// Whether each number is in its range.
    pub fn is_in_range(&self) -> bool
        ensures { IsTrue result ↔ IsGeometry self.now }
    {
        let hosts = counts(self.hosts, 16) && counts(self.files, 64) && counts(self.groups, 64);
        let shared = counts(self.parts, 16) && counts(self.shards, 64) && counts(self.logs, 16);
        hosts && shared && counts(self.tables, 16)
    }
}

fn counts(number: u8, most: u8) -> bool
    ensures { IsTrue result ↔ (1 ≤ number) × (number ≤ most) }
{
    1 <= number && number <= most
}
