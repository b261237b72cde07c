//! What a merge looks at for an entry of a file that its host holds: the tables of the file that say what stands at the place, then the data block. One
//! device call a step.
//!
//! # What is proved
//!
//! - `Look::new`: a look at a place, with no table read and the file's first table to be read next. At most three steps come (`left`).
//! - `Look::next`: where the look stands (`At`), a step makes one device call (`Went`): the read of the table that is to be read next, or of the data block
//!   (`ReadsNext`). The call is one of a merge's, spares its host's log blocks, and changes nothing. Behind it either the look stands again, with fewer
//!   steps left; or it has come to what stands at the place (`HasSeen`), where the device tells its image: no block, exactly where the file is not there, is
//!   shorter, or has a hole; or a block, with its bytes. Then the digest of that block may be asked for. A call that was refused cuts the merge (`IsCut`).
//!   The host and the place stay (`IsSame`), and so does what other hosts rely on (`Others`).
//! - A look begins where its host is ready and holds the file for writing (`look_begins`), and stands over the calls of other hosts (`look_still`). The host
//!   is ready for a merge's next call before each step (`look_merging`) and behind it, with the file still held (`looked_merging`).
//!
//! No step takes memory. What is to be done with the entry then is for the merge to say.
#![tactic(auto)]

mod look;

pub use look::{Look, Looking, Seen};
