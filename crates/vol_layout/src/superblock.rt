// The superblock: how a volume's geometry is written, and read again.
ghost use Rattle.std.specs.Prelude.{◌≡◌, ◌+◌, ◌*◌, ◌++◌, ◌≤◌, ◌<◌, ◌↔◌, IfOk, IsTrue, OnErr, codes, length, take};
ghost use Rattle.std.specs.List.{flat_map};
ghost use Rattle.vol_base.specs.Bytes.{bytes_of};
ghost use Rattle.vol_layout.specs.Ranges.{IsGeometry};
ghost use Rattle.vol_layout.specs.Superblock.{SpellsGeometry, superblock_bytes, volume_magic, written_numbers};
ghost use Rattle.vol_layout.specs.declared.geometry.Geometry.{Geometry};

use crate::geometry::{Geometry, NotVolume};
use vol_base::{Block, Draft};

// The first eight bytes of a volume whose files have one table block each, and of one whose files
// have more.
const SINGLE_MAGIC: [u8; 8] = *b"DEDEVOL1";

const MANY_MAGIC: [u8; 8] = *b"DEDEVOL2";

impl Geometry {
    /// The geometry that a superblock spells. It is `NotVolume` exactly where the block is not the
    /// one spelling of a geometry in range.
    pub fn read(block: &Block) -> Result<Geometry, NotVolume>
        ensures ok { IfOk result (λ geometry. SpellsGeometry block.now.0 geometry) }
        ensures only { IfOk result (λ geometry. (other : Geometry) → SpellsGeometry block.now.0 other → geometry ≡ other) }
        ensures err { OnErr result ((geometry : Geometry) → SpellsGeometry block.now.0 geometry → ⊥) }
    {
        let candidate = Geometry::candidate(block);
        if candidate.is_in_range() && candidate.write().same(block) {
            Ok(candidate)
        } else {
            Err(NotVolume)
        }
    }

    /// The superblock of this geometry, the one block that reads as it.
    pub fn write(&self) -> Block
        requires { IsGeometry self.now }
        ensures { result.0 ≡ superblock_bytes self.now }
    {
        self.written().finish()
    }

    // All of the superblock that is not zeros at its end.
    fn written(&self) -> Draft
        requires { IsGeometry self.now }
        ensures { result ≡ volume_magic self.now ++ flat_map (bytes_of 4) (written_numbers self.now) }
    {
        let six = [
            self.hosts,
            self.files,
            self.groups,
            self.parts,
            self.shards,
            self.logs,
        ];
        let mut draft = Draft::new();
        if self.tables == 1 {
            draft.push_bytes(&SINGLE_MAGIC);
            push_numbers(&mut draft, &six);
            return draft;
        }
        draft.push_bytes(&MANY_MAGIC);
        push_numbers(&mut draft, &six);
        push_numbers(&mut draft, &[self.tables]);
        draft
    }

    // What the places of a superblock's numbers hold: the geometry that the block spells, if any.
    fn candidate(block: &Block) -> Geometry
        ensures { (geometry : Geometry) → SpellsGeometry block.now.0 geometry → result ≡ geometry }
    {
        Geometry {
            hosts: narrow(block.u32_at(8)),
            files: narrow(block.u32_at(12)),
            groups: narrow(block.u32_at(16)),
            parts: narrow(block.u32_at(20)),
            shards: narrow(block.u32_at(24)),
            logs: narrow(block.u32_at(28)),
            tables: tables_of(block),
        }
    }
}

fn tables_of(block: &Block) -> u8
    ensures { (geometry : Geometry) → SpellsGeometry block.now.0 geometry → result ≡ geometry.tables }
{
    if is_single(block) {
        1
    } else {
        narrow(block.u32_at(32))
    }
}

fn is_single(block: &Block) -> bool
    ensures { IsTrue result ↔ (take 8 block.now.0 ≡ codes "DEDEVOL1") }
{
    let (header, _) = block.0.split_at(8);
    header == SINGLE_MAGIC.as_slice()
}

// The number where it fits, and else 0, which no number of a geometry is.
fn narrow(number: u32) -> u8
    ensures { number < 256 → result ≡ number }
{
    u8::try_from(number).unwrap_or(0)
}

fn push_numbers(draft: &mut Draft, numbers: &[u8])
    requires { length draft.old + 4 * length numbers.now ≤ 4096 }
    ensures numbers { draft.new ≡ draft.old ++ flat_map (bytes_of 4) numbers.now }
    ensures long { length draft.new ≡ length draft.old + 4 * length numbers.now }
{
    for number in numbers {
        draft.push_u32(u32::from(*number));
    }
}
