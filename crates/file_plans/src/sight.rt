// What a command is to do, by what is known of its file's tables.
ghost use Rattle.std.specs.Prelude.{◌≡◌, ◌<◌, ◌≤◌, ◌+◌, ℕ};
ghost use Rattle.file_plans.specs.Calls.{file_of};
ghost use Rattle.call_effects.specs.laws.LookLaws.{BlockCall};
ghost use Rattle.plain_files.specs.Calls.{file_no};
ghost use Rattle.file_plans.specs.Says.{ArePacked, HasBlock, Known, PointsTo, Says};
ghost use Rattle.file_plans.specs.Sights.{IsSight};
ghost use Rattle.held_cache.specs.Kept.{kept_at};
ghost use Rattle.vol_layout.specs.Ranges.{IsGeometry, limit};

use crate::call::{FileCall, file_no};
use crate::remains::Remains;
use crate::seen::{head, missing, pointer, remains};
use held_cache::HeldCache;
use image_view::Number;
use vol_base::{Block, DataNo, FileNo, HostNo, PlainCall, PlainReply};
use vol_layout::{Field, Geometry, Table};

/// What a command is to do next.
#[derive(Drop)]
pub enum Sight {
    /// This table of the file is to be read first.
    Needs(Table),
    /// The call gets this reply, and nothing changes.
    Settled(PlainReply),
    /// The call reads this data block.
    Shows(DataNo),
    /// The call writes this data block in place: nothing else names it.
    Own(DataNo),
    /// The call writes a free data block. The pointer is a hole, or names this shared data block.
    Fresh(Option<DataNo>),
    /// The pointer to this data block is to become a hole.
    Drops(DataNo),
    /// These pointers at or past the file's end are to become holes first.
    Purges(Remains),
    /// The head is to become this number.
    Heads(u32),
    /// No pointer at or past the end of a file that is to be closed is left.
    Clear,
}

/// What the command is to do next, by the tables that are kept of its file for its host.
pub fn look(geometry: &Geometry, cache: &HeldCache, host: HostNo, call: &FileCall) -> Sight
    requires geometry { IsGeometry geometry.now }
    requires volume { cache.now.volume ≡ geometry.now }
    requires host { host < geometry.now.hosts }
    requires file { file_of call.now < geometry.now.files }
    requires packed { ArePacked cache.now host }
    ensures { IsSight geometry.now (kept_at cache.now host) call.now result }
{
    match call {
        FileCall::Close(file) => close(geometry, cache, host, *file),
        FileCall::Plain(call) => plain(geometry, cache, host, call),
    }
}

fn close(geometry: &Geometry, cache: &HeldCache, host: HostNo, file: FileNo) -> Sight
    requires geometry { IsGeometry geometry.now }
    requires volume { cache.now.volume ≡ geometry.now }
    requires host { host < geometry.now.hosts }
    requires file { file < geometry.now.files }
    requires packed { ArePacked cache.now host }
    ensures { IsSight geometry.now (kept_at cache.now host) (FileCall.Close file) result }
{
    match head(cache, host, file) {
        None => Sight::Needs(Table::File(file)),
        Some(number) => ended(geometry, cache, host, file, number),
    }
}

// What is left at or past the end of a file that is to be closed.
fn ended(geometry: &Geometry, cache: &HeldCache, host: HostNo, file: FileNo, head: u32) -> Sight
    requires geometry { IsGeometry geometry.now }
    requires volume { cache.now.volume ≡ geometry.now }
    requires host { host < geometry.now.hosts }
    requires file { file < geometry.now.files }
    requires packed { ArePacked cache.now host }
    requires head { Says (kept_at cache.now host) (Field.Head file) head }
    ensures { IsSight geometry.now (kept_at cache.now host) (FileCall.Close file) result }
{
    let from = head.saturating_sub(1);
    match missing(geometry, cache, host, file, from, geometry.limit()) {
        Some(which) => Sight::Needs(which),
        None => match remains(geometry, cache, host, file, from, geometry.limit()) {
            Some(remains) => Sight::Purges(remains),
            None => Sight::Clear,
        },
    }
}

fn plain(geometry: &Geometry, cache: &HeldCache, host: HostNo, call: &PlainCall) -> Sight
    requires geometry { IsGeometry geometry.now }
    requires volume { cache.now.volume ≡ geometry.now }
    requires host { host < geometry.now.hosts }
    requires file { file_no call.now < geometry.now.files }
    requires packed { ArePacked cache.now host }
    ensures { IsSight geometry.now (kept_at cache.now host) (FileCall.Plain call.now) result }
{
    let file = file_no(call);
    match head(cache, host, file) {
        None => Sight::Needs(Table::File(file)),
        Some(0) => absent(call),
        Some(number) => there(geometry, cache, host, call, number - 1),
    }
}

// A call on a file that is not there.
fn absent(call: &PlainCall) -> Sight
    ensures { (g : Geometry) (known : Known) → file_no call.now < g.files → Says known (Field.Head (file_no call.now)) 0 → IsSight g known (FileCall.Plain call.now) result }
{
    match call {
        PlainCall::Create(_) => Sight::Heads(1),
        _ => Sight::Settled(PlainReply::NoFile),
    }
}

// A call on a file that is there, by its length.
fn there(
    geometry: &Geometry,
    cache: &HeldCache,
    host: HostNo,
    call: &PlainCall,
    length: u32,
) -> Sight
    requires geometry { IsGeometry geometry.now }
    requires volume { cache.now.volume ≡ geometry.now }
    requires host { host < geometry.now.hosts }
    requires file { file_no call.now < geometry.now.files }
    requires packed { ArePacked cache.now host }
    requires head { Says (kept_at cache.now host) (Field.Head (file_no call.now)) (length + 1) }
    requires short { length ≤ limit geometry.now }
    ensures { IsSight geometry.now (kept_at cache.now host) (FileCall.Plain call.now) result }
{
    match call {
        PlainCall::Create(_) => Sight::Settled(PlainReply::Exists),
        PlainCall::Remove(_) => Sight::Heads(0),
        PlainCall::Size(file, blocks) => sized(geometry, cache, host, *file, length, *blocks),
        PlainCall::Write(_, index, _) | PlainCall::Read(_, index) | PlainCall::Punch(_, index) => {
            block(geometry, cache, host, call, length, *index)
        }
    }
}

fn sized(
    geometry: &Geometry,
    cache: &HeldCache,
    host: HostNo,
    file: FileNo,
    length: u32,
    blocks: u32,
) -> Sight
    requires geometry { IsGeometry geometry.now }
    requires volume { cache.now.volume ≡ geometry.now }
    requires host { host < geometry.now.hosts }
    requires file { file < geometry.now.files }
    requires packed { ArePacked cache.now host }
    requires head { Says (kept_at cache.now host) (Field.Head file) (length + 1) }
    ensures { IsSight geometry.now (kept_at cache.now host) (FileCall.Plain (PlainCall.Size file blocks)) result }
{
    if blocks > geometry.limit() {
        Sight::Settled(PlainReply::TooLong)
    } else if blocks == length {
        Sight::Settled(PlainReply::Done)
    } else {
        grown(geometry, cache, host, file, length, blocks)
    }
}

// Another length, which may be a shorter one.
fn grown(
    geometry: &Geometry,
    cache: &HeldCache,
    host: HostNo,
    file: FileNo,
    length: u32,
    blocks: u32,
) -> Sight
    requires geometry { IsGeometry geometry.now }
    requires volume { cache.now.volume ≡ geometry.now }
    requires host { host < geometry.now.hosts }
    requires file { file < geometry.now.files }
    requires packed { ArePacked cache.now host }
    requires head { Says (kept_at cache.now host) (Field.Head file) (length + 1) }
    requires short { blocks ≤ limit geometry.now }
    ensures { IsSight geometry.now (kept_at cache.now host) (FileCall.Plain (PlainCall.Size file blocks)) result }
{
    let _most = geometry.limit();
    match missing(geometry, cache, host, file, length, blocks) {
        Some(which) => Sight::Needs(which),
        None => match remains(geometry, cache, host, file, length, blocks) {
            Some(remains) => Sight::Purges(remains),
            None => Sight::Heads(blocks + 1),
        },
    }
}

// A read, a write or a punch of one block.
fn block(
    geometry: &Geometry,
    cache: &HeldCache,
    host: HostNo,
    call: &PlainCall,
    length: u32,
    index: u32,
) -> Sight
    requires geometry { IsGeometry geometry.now }
    requires volume { cache.now.volume ≡ geometry.now }
    requires host { host < geometry.now.hosts }
    requires file { file_no call.now < geometry.now.files }
    requires call { BlockCall call.now index }
    requires packed { ArePacked cache.now host }
    requires head { Says (kept_at cache.now host) (Field.Head (file_no call.now)) (length + 1) }
    requires short { length ≤ limit geometry.now }
    ensures { IsSight geometry.now (kept_at cache.now host) (FileCall.Plain call.now) result }
{
    if index >= length {
        return Sight::Settled(PlainReply::Beyond(length));
    }
    let file = file_no(call);
    match pointer(geometry, cache, host, file, index) {
        None => Sight::Needs(geometry.table_of(&Field::Pointer(file, index))),
        Some(pointer) => pointed(call, pointer),
    }
}

// A call on one block, by its pointer.
fn pointed(call: &PlainCall, pointer: Number) -> Sight
    ensures { (g : Geometry) (known : Known) (i : ℕ) → BlockCall call.now i → HasBlock g known (file_no call.now) i pointer → IsSight g known (FileCall.Plain call.now) result }
{
    match call {
        PlainCall::Read(_, _) => match pointer {
            Number::Hole => Sight::Settled(PlainReply::Holds(Block::zeros())),
            Number::At(number, _) => Sight::Shows(number),
        },
        PlainCall::Write(_, _, _) => written(pointer),
        PlainCall::Punch(_, _) => match pointer {
            Number::Hole => Sight::Settled(PlainReply::Done),
            Number::At(number, _) => Sight::Drops(number),
        },
        PlainCall::Create(_) | PlainCall::Remove(_) | PlainCall::Size(_, _) => Sight::Clear,
    }
}

fn written(pointer: Number) -> Sight
    ensures { (g : Geometry) (known : Known) (f i : ℕ) (block : Block) → HasBlock g known f i pointer → IsSight g known (FileCall.Plain (PlainCall.Write f i block)) result }
{
    match pointer {
        Number::Hole => Sight::Fresh(None),
        Number::At(number, true) => Sight::Fresh(Some(number)),
        Number::At(number, false) => Sight::Own(number),
    }
}
