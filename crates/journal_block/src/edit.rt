// An edit in sixteen bytes.
ghost use Rattle.std.specs.Prelude.{◌≡◌, ◌<◌, ◌≤◌, ◌+◌, ◌++◌, IfSome, length};
ghost use Rattle.vol_layout.specs.Edits.{IsEdit, first, second, tag};
ghost use Rattle.vol_layout.specs.Fields.{HasField};
ghost use Rattle.vol_layout.specs.Journal.{edit_at, edit_bytes, field_from};
ghost use Rattle.vol_layout.specs.Ranges.{IsGeometry};
ghost use Rattle.vol_layout.specs.declared.geometry.Geometry.{Geometry};

use vol_base::{Block, Draft};
use vol_layout::{Edit, Field, Geometry};

/// Writes the sixteen bytes of an edit.
#[tactic(auto, unfolding(vol_layout::specs::Journal::edit_bytes))]
pub fn push_edit(draft: &mut Draft, edit: &Edit)
    requires { length draft.old + 16 ≤ 4096 }
    ensures value { draft.new ≡ draft.old ++ edit_bytes edit.now }
    ensures long { length draft.new ≡ length draft.old + 16 }
{
    let (tag, first, second) = numbers(&edit.field);
    draft.push_u32(tag);
    draft.push_u32(first);
    draft.push_u32(second);
    draft.push_u32(edit.number);
}

/// The edit in the sixteen bytes from byte `at` on. It is `None` where the volume has not its field, or
/// its number may not stand there.
pub fn edit_in(block: &Block, at: usize, geometry: &Geometry) -> Option<Edit>
    requires geometry { IsGeometry geometry.now }
    requires within { at + 16 ≤ 4096 }
    ensures range { IfSome result (λ edit. IsEdit geometry.now edit) }
    ensures edit { IsEdit geometry.now (edit_at block.now.0 at) → result ≡ Some (edit_at block.now.0 at) }
{
    let edit = Edit {
        field: field_of(block.u32_at(at), block.u32_at(at + 4), block.u32_at(at + 8)),
        number: block.u32_at(at + 12),
    };
    if geometry.is_edit(&edit) {
        Some(edit)
    } else {
        None
    }
}

// The three numbers by which an edit spells its field.
fn numbers(field: &Field) -> (u32, u32, u32)
    ensures tag { result.0 ≡ tag field.now }
    ensures first { result.1 ≡ first field.now }
    ensures second { result.2 ≡ second field.now }
{
    match *field {
        Field::Head(file) => (0, u32::from(file), 0),
        Field::Pointer(file, index) => (1, u32::from(file), index),
        Field::Slot(slot) => (2, slot, 0),
        Field::Count(number) => (3, number, 0),
    }
}

// The field of three numbers, where a volume has it.
fn field_of(tag: u32, first: u32, second: u32) -> Field
    ensures { (g : Geometry) → IsGeometry g → HasField g (field_from tag first second) → result ≡ field_from tag first second }
{
    match tag {
        0 => Field::Head(file_of(first)),
        1 => Field::Pointer(file_of(first), second),
        2 => Field::Slot(first),
        _ => Field::Count(first),
    }
}

// The number where it fits, and else 255, which no file has.
fn file_of(number: u32) -> u8
    ensures { number < 64 → result ≡ number }
{
    u8::try_from(number).unwrap_or(255)
}
