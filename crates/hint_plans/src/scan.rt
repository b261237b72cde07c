// How far a scan is, and what it finds in the tables of its file.
ghost use Rattle.std.specs.Prelude.{◌≡◌, ◌≤◌, ◌<◌, ◌+◌, ◌-◌, ◌%◌, ◌^◌, ◌++◌, length};
ghost use Rattle.std.specs.Option.{option_to_list};
ghost use Rattle.hint_plans.specs.Scans.{CanLook, behind_scan, blocks_in, covered_by, first_scan, looked_at, many_of, mapped_of};
ghost use Rattle.vol_layout.specs.Ranges.{per_table};

use crate::found::{Found, Mapped};
use crate::plan::{Come, Doing};
use image_view::{Number, read_pointer};
use table_blocks::number;
use vol_base::{Answer, FileNo, Packed};
use vol_layout::{Field, PER_HINT_BLOCK, PER_TABLE};

/// A scan of a file from an index on: how many indexes from there are below the file's length, at most 126; how many of them were looked
/// at in the tables that were read; the blocks that were found there; and for how many of these the digest was handed in.
#[derive(Drop)]
pub struct Scan {
    pub file: FileNo,
    pub index: u32,
    pub many: u32,
    pub looked: u32,
    pub found: Found,
    pub done: u32,
}

/// The scan behind the read of the file's first table block.
pub fn first_scan(table: &Packed<4>, file: FileNo, index: u32) -> Scan
    requires long { length table.now.entries ≡ per_table }
    requires can { CanLook table.now file index (covered_by index (many_of table.now.word index) 0) }
    ensures { result ≡ first_scan table.now file index }
{
    let many = many_of(number(table, &Field::Head(file)), index);
    let mut scan = Scan {
        file,
        index,
        many,
        looked: 0,
        found: Found::new(),
        done: 0,
    };
    look(&mut scan, table, covered(index, many, 0));
    scan
}

/// The blocks at further indexes that this table has go behind those found before.
pub fn look(scan: &mut Scan, table: &Packed<4>, upto: u32)
    requires long { length table.now.entries ≡ per_table }
    requires room { length scan.old.found ≤ scan.old.looked }
    requires more { scan.old.looked ≤ upto }
    requires few { upto ≤ 126 }
    requires can { CanLook table.now scan.old.file (scan.old.index + scan.old.looked) (upto - scan.old.looked) }
    ensures { scan.new ≡ looked_at table.now scan.old upto }
{
    gather(
        &mut scan.found,
        table,
        scan.file,
        scan.index,
        scan.looked,
        upto,
    );
    scan.looked = upto;
}

// The blocks at so many indexes.
fn gather(found: &mut Found, table: &Packed<4>, file: FileNo, index: u32, from: u32, to: u32)
    requires long { length table.now.entries ≡ per_table }
    requires room { length found.old ≤ from }
    requires more { from ≤ to }
    requires few { to ≤ 126 }
    requires can { CanLook table.now file (index + from) (to - from) }
    ensures { found.new ≡ found.old ++ blocks_in table.now file (index + from) (to - from) }
{
    for k in from..to {
        note(
            found,
            index + k,
            number(table, &Field::Pointer(file, index + k)),
        );
    }
}

// The block at an index, where its pointer names one.
fn note(found: &mut Found, index: u32, pointer: u32)
    requires room { length found.old < 126 }
    requires hole { pointer % 2 ^ 31 ≡ 0 → pointer ≡ 0 }
    ensures { found.new ≡ found.old ++ option_to_list (mapped_of index pointer) }
{
    match read_pointer(pointer) {
        Number::Hole => {}
        Number::At(number, _) => found.push(Mapped { index, number }),
    }
}

/// How many indexes from this one on are below the length that a head says, at most 126.
fn many_of(head: u32, index: u32) -> u32
    ensures { result ≡ many_of head index }
{
    let left = head.saturating_sub(1).saturating_sub(index);
    if left < PER_HINT_BLOCK {
        left
    } else {
        PER_HINT_BLOCK
    }
}

/// How many of these indexes the table blocks up to this one have.
#[tactic(auto, unfolding(vol_layout::specs::Ranges::per_table))]
pub fn covered(index: u32, many: u32, table: u32) -> u32
    requires { table < 64 }
    ensures { result ≡ covered_by index many table }
{
    let end = ((table + 1) * PER_TABLE).saturating_sub(index);
    if end < many { end } else { many }
}

/// What comes behind the read of a table: the next one is read, or the first block that was found; or there is none.
pub fn behind_scan(scan: Scan) -> Come
    ensures { result ≡ behind_scan scan }
{
    if scan.looked < scan.many {
        Come::More(Doing::ReadsTable(scan))
    } else if scan.found.count() == 0 {
        Come::Answered(Answer::Scanned(0))
    } else {
        Come::More(Doing::ReadsBlock(scan))
    }
}
