//! Where everything stands on a volume, and the numbers that its tables hold: geometry, places and
//! kinds of blocks, fields of tables, and edits of fields. No call of this crate takes memory.
//!
//! # What is proved
//!
//! - `Geometry::place`, `kind`: inverses; `kind` is `None` exactly behind the last block. `total`, `limit`, `data_blocks` and the
//!   other sizes: exact, with their bounds.
//! - `Geometry::write` is the one spelling of a geometry in range; `read` gives the geometry that the block spells, and
//!   `NotVolume` exactly where it spells none. `blank`: exactly the block that formatting leaves at a place.
//! - `has_field`, `allows`, `is_edit`: exactly the fields that a volume has and the numbers that may stand in them. `table_of`,
//!   `pointer_at`, `resource_of`, `Field::entry`: exact.
#![tactic(auto)]

mod blank;
mod field;
mod geometry;
mod kind;
mod place;
mod sizes;
mod superblock;

pub use field::{Edit, Field};
pub use geometry::{Geometry, NotVolume};
pub use kind::{Kind, Resource, Table};
pub use place::PER_TABLE;
pub use sizes::PER_HINT_BLOCK;
