// The fields of a volume's tables, and edits of them.
ghost use Rattle.std.specs.Prelude.{◌≡◌, ◌+◌, ◌*◌, ◌/◌, ◌≤◌, ◌<◌, ◌↔◌, IfSome, IsTrue};
ghost use Rattle.vol_layout.specs.Edits.{IsEdit};
ghost use Rattle.vol_layout.specs.Fields.{HasField, IsInRange, IsPointer, entry_of, greatest_count, pointer_at, resource_of, table_of};
ghost use Rattle.vol_layout.specs.Ranges.{HasResource, HasTable, IsGeometry, per_table};

use crate::geometry::Geometry;
use crate::kind::{Resource, Table};
use crate::place::PER_TABLE;
use vol_base::{DataNo, FileNo, SlotNo};

/// A number that stands in a table: a file's head (0, or its length + 1), a file's pointer at an
/// index, a slot of the arena, or the count of a data block.
#[derive(Clone, Copy, Debug, PartialEq, Eq)]
pub enum Field {
    Head(FileNo),
    Pointer(FileNo, u32),
    Slot(SlotNo),
    Count(DataNo),
}

/// A field's new number.
#[derive(Clone, Copy, Debug, PartialEq, Eq)]
pub struct Edit {
    pub field: Field,
    pub number: u32,
}

// The low bits of a pointer, which name a data block, and the mark of a shared block.
const NAME_BITS: u32 = (1 << 31) - 1;

// The greatest count on a volume with one table block a file.
const GREATEST_SINGLE_COUNT: u32 = 80640;

impl Geometry {
    /// Whether the volume's tables have the field.
    pub fn has_field(&self, field: &Field) -> bool
        requires { IsGeometry self.now }
        ensures { IsTrue result ↔ HasField self.now field.now }
    {
        match *field {
            Field::Head(file) => file < self.files,
            Field::Pointer(file, index) => file < self.files && index < self.limit(),
            Field::Slot(slot) => slot < self.arena_slots(),
            Field::Count(number) => number < self.data_blocks(),
        }
    }

    /// Whether the number may stand in the field, in a table or in an edit.
    pub fn allows(&self, field: &Field, number: u32) -> bool
        requires { IsGeometry self.now }
        ensures { IsTrue result ↔ IsInRange self.now field.now number }
    {
        match *field {
            Field::Head(_) => number <= self.limit() + 1,
            Field::Pointer(_, _) => self.is_pointer(number),
            Field::Slot(_) => number <= self.data_blocks(),
            Field::Count(_) => number <= self.greatest_count(),
        }
    }

    /// Whether the edit is of a field that the volume has, with a number that may stand there.
    pub fn is_edit(&self, edit: &Edit) -> bool
        requires { IsGeometry self.now }
        ensures { IsTrue result ↔ IsEdit self.now edit.now }
    {
        self.has_field(&edit.field) && self.allows(&edit.field, edit.number)
    }

    /// The table block in which the field stands.
    #[tactic(auto, unfolding(crate::specs::Ranges::limit, crate::specs::Ranges::data_blocks, crate::specs::Ranges::arena_slots))]
    pub fn table_of(&self, field: &Field) -> Table
        requires geometry { IsGeometry self.now }
        requires field { HasField self.now field.now }
        ensures table { result ≡ table_of field.now }
        ensures has { HasTable self.now result }
    {
        match *field {
            Field::Head(file) => Table::File(file),
            Field::Pointer(file, index) => match block_of(index, self.tables) {
                0 => Table::File(file),
                more => Table::More(file, more),
            },
            Field::Slot(slot) => Table::Part(block_of(slot, self.parts)),
            Field::Count(number) => Table::Group(block_of(number, self.groups)),
        }
    }

    /// The table block of a file's pointer, and its entry there.
    #[tactic(auto, unfolding(crate::specs::Ranges::per_table))]
    pub fn pointer_at(&self, file: FileNo, index: u32) -> (Table, u32)
        requires geometry { IsGeometry self.now }
        requires pointer { HasField self.now (Field.Pointer file index) }
        ensures pointer { result ≡ pointer_at self.now file index }
        ensures has { HasTable self.now result.0 }
        ensures entry { result.1 < per_table }
    {
        (
            self.table_of(&Field::Pointer(file, index)),
            index % PER_TABLE,
        )
    }

    /// The resource whose lock guards the field.
    #[tactic(auto, unfolding(crate::specs::Ranges::data_blocks, crate::specs::Ranges::arena_slots))]
    pub fn resource_of(&self, field: &Field) -> Resource
        requires geometry { IsGeometry self.now }
        requires field { HasField self.now field.now }
        ensures resource { result ≡ resource_of field.now }
        ensures has { HasResource self.now result }
    {
        match *field {
            Field::Head(file) | Field::Pointer(file, _) => Resource::File(file),
            Field::Slot(slot) => Resource::Part(block_of(slot, self.parts)),
            Field::Count(number) => Resource::Group(block_of(number, self.groups)),
        }
    }

    fn is_pointer(&self, number: u32) -> bool
        requires { IsGeometry self.now }
        ensures { IsTrue result ↔ IsPointer self.now number }
    {
        let name = number & NAME_BITS;
        name <= self.data_blocks() && (name != 0 || number == 0)
    }

    #[tactic(auto, unfolding(crate::specs::Fields::greatest_count, crate::specs::Ranges::per_table))]
    fn greatest_count(&self) -> u32
        requires { IsGeometry self.now }
        ensures { result ≡ greatest_count self.now }
    {
        if self.tables == 1 {
            GREATEST_SINGLE_COUNT
        } else {
            PER_TABLE * (self.file_tables() + u32::from(self.parts))
        }
    }
}

impl Field {
    /// The entry of its table block in which the field stands; `None` for a head, which is the word of
    /// its block.
    #[tactic(auto, unfolding(crate::specs::Ranges::per_table))]
    pub fn entry(&self) -> Option<u32>
        ensures entry { result ≡ entry_of self.now }
        ensures inside { IfSome result (λ entry. entry < per_table) }
    {
        match *self {
            Field::Head(_) => None,
            Field::Pointer(_, index) => Some(index % PER_TABLE),
            Field::Slot(slot) => Some(slot % PER_TABLE),
            Field::Count(number) => Some(number % PER_TABLE),
        }
    }
}

// The table block, of so many, that holds an entry.
#[tactic(auto, unfolding(crate::specs::Ranges::per_table))]
fn block_of(entry: u32, blocks: u8) -> u8
    requires { entry < per_table * blocks }
    ensures number { result ≡ entry / per_table }
    ensures below { result < blocks }
{
    (entry / PER_TABLE) as u8
}
