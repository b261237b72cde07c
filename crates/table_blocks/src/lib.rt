//! What a table block says: the numbers of the fields that stand in it, the block that spells them, and the
//! edits of a record made in it. The definitions stand in `specs/`. No call of this crate takes memory.
//!
//! # What is proved
//!
//! - `table_in`: at Some the packing is one that the table may spell, each number of its fields in range (`packing`), and the block
//!   spells it (`spelled`); `None` is answered only where the block is no spelling in range (`none`).
//! - `block_of`: exactly the bytes that spell the packing (`bytes`), which are a block (`block`).
//! - `number`, `set_number`: exactly the number of the field in the packing, and exactly the packing with that number (`number`),
//!   which has a table's worth of entries (`long`).
//! - `make`: exactly the packing with all edits of that table made, of which the first edit of a field counts (`made`), and which has
//!   a table's worth of entries (`long`). It asks nothing of the record's fields: over a device that tells nothing they may be any.
//! - Laws (`specs/laws/NumberLaws.antt`, `specs/laws/MadeLaws.antt`): a field's number in the image is that in its table's packing
//!   (`field-number_in`); a changed field has its number and every other keeps its own (`number_in-with_number`,
//!   `number_in-other`); the packing stays in range (`IsPackingOf-with_number`), and a number in range fits its four bytes
//!   (`in_range-small`). A field stands in exactly one table block (`stands_in-is`, `stands_in-of`); with edits in range made the
//!   packing stays in range (`made-packing`), each field of the table has its edited number (`made-number`), and edits of other tables
//!   leave the packing (`made-untouched`).
//! - `volume_tests` tests a record made in a file's table and in a group's, left alone in another file's, and a table's block read again.
#![tactic(auto)]

mod fields;
mod making;
mod spelling;

pub use fields::{number, set_number};
pub use making::make;
pub use spelling::{block_of, table_in};
