// The blocks of a volume that was just formatted.
ghost use Rattle.std.specs.Prelude.{◌≡◌, ◌++◌, ◌-◌, ◌≤◌, length};
ghost use Rattle.vol_base.specs.Bytes.{zeros};
ghost use Rattle.vol_layout.specs.Blank.{blank_at, blank_table, table_magic};
ghost use Rattle.vol_layout.specs.Ranges.{IsGeometry};

use crate::geometry::Geometry;
use crate::kind::{Kind, Table};
use crate::place::PER_TABLE;
use vol_base::{Block, Draft};

impl Geometry {
    /// The block that formatting leaves at a place: the superblock, free slots and locks, empty
    /// journals and tables of zeros. Formatting does not write hint blocks and data blocks, which
    /// are zeros where nobody wrote them, and so is all behind the volume.
    pub fn blank(&self, place: u64) -> Block
        requires { IsGeometry self.now }
        ensures { result.0 ≡ blank_at self.now place }
    {
        match self.kind(place) {
            Some(Kind::Super) => self.write(),
            Some(Kind::Slot(_)) => only(b"DEDESLOT"),
            Some(Kind::Journal(_)) => only(b"DEDEJRNL"),
            Some(Kind::Lock(_)) => only(b"DEDELOCK"),
            Some(Kind::Table(table)) => table.blank(),
            Some(Kind::Log(_, _) | Kind::Shard(_) | Kind::Request(_) | Kind::Number(_)) | None =>
                Block::zeros(),
        }
    }
}

impl Table {
    /// The first eight bytes of the table block. A file's further table blocks have those of its first.
    pub fn magic(&self) -> [u8; 8]
        ensures { result ≡ table_magic self.now }
    {
        match self {
            Table::File(_) | Table::More(_, _) => *b"DEDEFILE",
            Table::Group(_) => *b"DEDECNTS",
            Table::Part(_) => *b"DEDEAREN",
        }
    }

    /// The table block whose word and numbers are 0.
    pub fn blank(&self) -> Block
        ensures { result.0 ≡ blank_table self.now }
    {
        let mut draft = Draft::new();
        draft.push_bytes(&self.magic());
        draft.push_u32(PER_TABLE);
        draft.finish()
    }
}

// A block of these bytes and zeros behind them.
fn only(front: &[u8]) -> Block
    requires { length front.now ≤ 4096 }
    ensures { result.0 ≡ front.now ++ zeros (4096 - length front.now) }
{
    let mut draft = Draft::new();
    draft.push_bytes(front);
    draft.finish()
}
