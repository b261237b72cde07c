// How much of each thing a volume has, for what is counted or reserved by the geometry.
ghost use Rattle.std.specs.Prelude.{◌≡◌, ◌≤◌};
ghost use Rattle.vol_layout.specs.Ranges.{IsGeometry, arena_slots, data_blocks, limit};
ghost use Rattle.vol_layout.specs.Sizes.{file_tables, log_entries, references};

use crate::geometry::Geometry;
use crate::place::PER_TABLE;

/// The most hints that a hint block holds.
pub const PER_HINT_BLOCK: u32 = 126;

impl Geometry {
    /// The greatest length of a file, in blocks: 1,008 to 16,128.
    #[tactic(auto, unfolding(crate::specs::Ranges::limit, crate::specs::Ranges::per_table))]
    pub fn limit(&self) -> u32
        requires { IsGeometry self.now }
        ensures blocks { result ≡ limit self.now }
        ensures bounded { result ≤ 16128 }
    {
        PER_TABLE * u32::from(self.tables)
    }

    /// The number of data blocks: 1,008 to 64,512.
    #[tactic(auto, unfolding(crate::specs::Ranges::data_blocks, crate::specs::Ranges::per_table))]
    pub fn data_blocks(&self) -> u32
        requires { IsGeometry self.now }
        ensures blocks { result ≡ data_blocks self.now }
        ensures bounded { result ≤ 64512 }
    {
        PER_TABLE * u32::from(self.groups)
    }

    /// The number of slots of the arena: 1,008 to 16,128.
    #[tactic(auto, unfolding(crate::specs::Ranges::arena_slots, crate::specs::Ranges::per_table))]
    pub fn arena_slots(&self) -> u32
        requires { IsGeometry self.now }
        ensures slots { result ≡ arena_slots self.now }
        ensures bounded { result ≤ 16128 }
    {
        PER_TABLE * u32::from(self.parts)
    }

    /// The number of table blocks of all files: what a host keeps at most of the files it holds.
    pub fn file_tables(&self) -> u32
        requires { IsGeometry self.now }
        ensures tables { result ≡ file_tables self.now }
        ensures bounded { result ≤ 1024 }
    {
        u32::from(self.files) * u32::from(self.tables)
    }

    /// The number of pointers and slots, and so of mappings at most.
    #[tactic(auto, unfolding(crate::specs::Ranges::limit, crate::specs::Ranges::arena_slots, crate::specs::Ranges::per_table))]
    pub fn references(&self) -> u32
        requires { IsGeometry self.now }
        ensures references { result ≡ references self.now }
        ensures bounded { result ≤ 1048320 }
    {
        u32::from(self.files) * self.limit() + self.arena_slots()
    }

    /// The number of entries that the log blocks of a host hold: what a merge handles at most.
    pub fn log_entries(&self) -> u32
        requires { IsGeometry self.now }
        ensures entries { result ≡ log_entries self.now }
        ensures bounded { result ≤ 2016 }
    {
        PER_HINT_BLOCK * u32::from(self.logs)
    }
}
