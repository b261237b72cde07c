//! One host, alone on a volume, whose plans are driven to their ends.
//!
//! # What is proved
//!
//! - A `Solo` is host 0 of its world. While nothing stopped it, it is ready between two calls, its key is registered, it holds every file, and
//!   in a told image the slots of all other hosts are free (`IsAlone`); what is kept of its tables is what they spell. `Solo::of` makes one of
//!   such a world, and `Solo::geometry` says that a told image is valid between any two calls.
//! - `Solo::start` makes one of a device that no other program uses: the host joins, recovers every other host, and takes every file. At Ok it
//!   is in order, and its geometry is that of the valid volume on the device (`started`). Where it was refused the device is handed back
//!   (`refused`). Whatever is answered, no file changed, and each image on the way, behind whatever device call, is a valid volume with the
//!   files of the first (`passes`); two keys at most are given, one to open the device and one to the host (`given`). `Failed` comes only
//!   where the device's faults rose in this call, `Bad` and `Busy` only where it tells nothing, `NoKeys` only where its counter is at its
//!   end, and `Full` never (`HasStartCause`).
//! - `Solo::read`: the reply is the plain one on the files of the image (`reply`). Whatever is answered, the device has the content and the
//!   keys that it had (`same`), and at most three of its calls were made (`few`).
//! - `Solo::compare_share`: each answer has its cause on the image before the call, and only `Linked` changes a logical number, by exactly a
//!   link (`came`, `Comes`): `Already` where both places have one data block, `Differs` where their bytes differ there for the first time, `Hole`
//!   where the place has none, `NoSource` where it has one and the source has none. Where the source is a slot, which is read in its table
//!   alone, `Linked`, `Already`, `Differs` and `NoSource` say nothing of the source. The answer is never `Busy` (`named`). A share that was refused
//!   changed no logical number, or is the link (`halted`). Whatever is answered, no file changes (`files`), each image on the way, behind
//!   whatever device call, is a valid volume with the files of the first, no key is given (`on`), and at most eighteen device calls are made
//!   (`few`).
//! - `Solo::close`: the device is handed back; whatever is answered no file changed and the image is valid (`files`, `valid`), so is each
//!   image on the way, and no key is given (`on`). At Ok the host's slot is free (`free`), and no logical number and no data block changed
//!   (`kept`).
//! - A call that was refused stops the host (`stopped`): each later call is refused for the same, `close` included, and leaves the host as it
//!   is (`again`). `Failed` comes only where the device's faults rose in this call, `Bad` only where it tells nothing, and so does `Busy`, since a
//!   lock is held by the key of a host that has a slot; `NoKeys` and `Full` never come (`cause`). The same holds of each later call since the
//!   host began (`since`). The key of the host is never taken off before it leaves.
//! - It is a `Lone` of `settle`: its calls meet all clauses of that trait.
//! - `settle_volume`: a host begins, settles the volume, and leaves. At Ok any two live places of the volume on the device with equal bytes show
//!   one data block, and both numbers are exactly those of that volume (`settled`). Whatever is answered, no file changed, and a told
//!   image is a valid volume (`files`, `volume`), as is each image on the way, with the files of the first (`passes`); two keys at most are
//!   given (`given`). A refusal has the cause that it has at the beginning (`cause`): `Failed` comes only where the device's faults rose, `Bad`
//!   and `Busy` only where it tells nothing, `NoKeys` only where its counter is at its end, and `Full` never.
//!
//! Not proved: that `NoKeys` comes wherever the counter is at its end. Plain calls that change files are not built.
#![tactic(auto)]

mod joining;
mod leaving;
mod opening;
mod reading;
mod refusal;
mod settling;
mod sharing;
mod solo;
mod starting;
mod taking;
mod whole;

pub use solo::Solo;
pub use whole::settle_volume;
