//! What each kind of record does to the files of a volume: definitions, and laws on images. There is no
//! code here; the plans of commands cite these laws at their commits.
//!
//! # What is proved
//!
//! Laws on images, which no public call carries until the plans of commands stand. Each kind of record has
//! two: facts on numbers that a plan has read say that its edits are a record (`IsRecord` of `image_view`:
//! in range, of held fields, with balanced counts and right marks); and the edits made, with nothing else
//! (`Changes`), do the plain call on the files with its reply (`IsPlaced`), or leave all files (`KeepsFiles`).
//!
//! - Heads (`HeadLaws`): `record-head`; `placed-create`, `placed-remove`, `placed-size`, and `cloned-head`, by
//!   which a clone is there.
//! - A write to a free data block, at a hole or a shared block (`FreshLaws`): `record-fill`, `placed-fill`. Before
//!   it, the write of the data block that nothing names: `stays-fresh` (`StayLaws`).
//! - A write in place (`InPlaceLaws`): `placed-in-place`. A punch (`DropLaws`): `record-drop`, `placed-drop`.
//! - Remains that are purged, up to four (`PurgeLaws`): `record-purge`, `stays-purge`.
//! - A link to a slot or to a file's block, with the source's mark where it has none (`LinkLaws`): `record-link`,
//!   `stays-link`, and `link-is`: it is the step by which two equal blocks come to be one.
//! - A promotion (`PromoteLaws`), a collection of up to four slots (`CollectLaws`), a clone's pointers, up to two
//!   (`CloneLaws`): `record-promote`, `stays-promote`; `record-collect`, `stays-collect`; `record-clone`, `stays-clone`.
//! - Replies without a change (`LookLaws`): reads, refusals, a punch of a hole, a size to the same length.
//! - Carried by these: `record-of` (a record is right edit by edit), `file-stays` and `stays-edited` (what leaves
//!   files), `room-for` (a count has room for what edits give it), `two-uses` (two fields that name one data block
//!   are two uses of it).
//! - Refused (`WrongLaws`): a count off by one, a write in place of a block that another file shows, a purge that
//!   lowers a count twice, a link whose source keeps no mark, a collection of a slot with count 2.
//! - `image_tests` tests one volume a kind, with its edits made, and what the files are before and after.
#![tactic(auto)]
