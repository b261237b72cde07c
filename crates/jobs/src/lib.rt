//! The jobs of the program, each with the contract that carries its promise. A job decides its outcome
//! first, and then tells it.
//!
//! # What is proved
//!
//! - `command` and `top` do the job that the words behind the program's name ask for. Each has one clause, by the words (`job_of` and
//!   `hosts_of`, exact functions of them; the hosts are those of the line that `words` gives): `SimEnds`, `ChecksAlone`, `SettlesAlone`, `Generates` or `UsageEnds`. `CommandEnds`, of `command`, has `UsageEnds` for `run`, since that job needs
//!   threads; `TopEnds`, of `top`, has `SimEnds` of threads there, and else the same.
//! - `SimEnds` of a schedule, of `sim` and of `run`: each status has its cause (`CauseOf`, one line a status):
//!   - Ok: the source was read to its end, and its text is that of a workload; the sink took exactly the report
//!     of that workload, of the answers and the history of a run, and of the usage of the last image. The run (`IsRunOf`): the device was
//!     opened; calls of a run, each of them a turn, a digest or the beginning of a phase as `host_runs` says it, lead from there to a state in
//!     which no host has a command left, in the last phase; for `sim` they are the moves of the schedule, each digest the SHA-1 of its block;
//!     each line has an answer; answers and history fit the workload; the history is legal from the files of the image handed in, the last image is valid and has the files that it
//!     leaves, and each image from the one handed in on is blank or valid and has the files of a front. From the opening on nothing is written
//!     behind the volume's blocks (`KeepsBeyond`). Where the workload is tidy, the image
//!     handed in is blank or has no host, and no call of the device failed, no command is busy or cut, and each file command of a joined host
//!     has its plain reply, or `full` for a `write` (`served`). What is said of images holds where the device tells its image.
//!   - Workload: the text is refused at its first faulty line with its first cause, or at line 0 where it is too long; the device is
//!     untouched.
//!   - Geometry, Volume, DiskFault before the run (`RefusesDevice`): as `Cluster::start` refuses, with the written numbers and all faults of
//!     the first stage that has any. Volume and DiskFault behind the run (`StopsAtSurvey`): the report without its usage stands before the
//!     text of the survey's refusal, and all that Ok says of the run holds. A block that was not of its kind is block 0, or a slot, journal,
//!     lock or table of a volume of the workload's geometry, and comes only where the device tells nothing.
//!   - ReadFault only where the source's count of faults rose; the device is untouched. WriteFault only where the sink's count rose or it took
//!     nothing of a piece that is not empty, behind a front of the text of an outcome that was decided. Memory is the free answer; the sink
//!     took nothing.
//! - At every status: at most one byte more than the longest text was taken of the source (`taken`); the device is untouched, or each image
//!   of the opening is the one handed in or, where that one is blank, a blank or a formatted one, or some run of the workload, with all that
//!   Ok says of images, led to the content that is left (`images`): so at Memory too.
//! - Where the source tells a text that is to be refused, or the device an image that does not fit or is no valid volume, the status is that
//!   one, unless a call of source, sink or device fails or memory is refused (`exact`).
//! - Without a fault of source, device and sink, a text of a workload, a device that is blank or has a valid volume of that geometry, enough
//!   blocks and keys for the opening, each line and the survey, and a sink that takes something of each piece that is not empty: Ok or
//!   Memory (`complete`).
//! - `CheckEnds`, of `check` (`ends`): no status comes but Ok, Volume, DiskFault, WriteFault and Memory (`among`).
//!   - Ok: the sink took exactly `valid` and the usage line. Where the device tells its image, the image is a valid volume under the
//!     counter that the check's registration left, and the usage is that of the image; the device's counter has risen by two and its keys
//!     are as before.
//!   - Volume: the sink took exactly the text of a refusal. Where the device tells its image: all faults of the first stage that has any,
//!     of a volume that is then neither blank nor valid; or that block 0 is blank, which it then is; or the counter, which is then the last one at the registration of the check, or at that of the
//!     survey of a valid volume; or, over a device that does not tell its image alone, the block that was not of its kind when it was
//!     read after the check: block 0, or a slot, journal, lock or table of a volume in range that has room on the device.
//!   - DiskFault and WriteFault only with their causes; at Memory the sink took nothing. Whatever the status,
//!     image and record of the device are those handed in, and its counter and keys are those of one visit, or of a whole one and then
//!     another, of which the last may have been broken off (`visits`).
//!   - A valid volume, a counter that two registrations do not bring to its end, no fault of the device and the sink, and a sink that
//!     takes something of each piece that is not empty: Ok or Memory.
//! - `SettleEnds`, of `settle`: no status comes but Ok, Volume, DiskFault, WriteFault and Memory (`among`). Whatever the status, no file changed
//!   (`files`), and from a valid volume on each image on the way, behind whatever device call the job is stopped, is a valid volume with the
//!   files of the first (`images`).
//!   - Ok: the sink took exactly `settled`, the two numbers, and the usage line. Where the device tells its image, the volume was valid, and is settled
//!     now (`HasSettled`): any two live places with equal bytes show one data block, and the numbers are exactly those of the live places and of
//!     the different blocks that they hold. The usage is that of the image.
//!   - Volume: the faults of the check, or that block 0 is blank, as of `check`; or the counter, and the device's is at its end, to which at most three
//!     registrations brought it; or, over a device that tells nothing alone, a block that was not of its kind, or the key of another host. DiskFault and
//!     WriteFault only with their causes.
//!   - A valid volume, a counter that three registrations do not bring to its end, no fault of the device and the sink, and a sink that takes
//!     something of each piece that is not empty: Ok or Memory (`complete`).
//! - `GenEnds`, of `generate`: at Ok the sink took exactly the generated workload of so many rounds (`gen_load`); WriteFault comes only where the
//!   sink failed or took nothing; no other status comes but Memory, and none but Ok and Memory where the sink serves. Source and device are
//!   untouched (`Generates`).
//! - `UsageEnds`: words of no form leave source and device untouched, and the sink has the usage line or a front of it.
//! - `tell`: the whole text of the outcome at the outcome's status; or a front of it and WriteFault, with its cause; or nothing and
//!   Memory. `Status::code`, `Outcome::status`, `AfterRun::status`: exact.
//! - Only tested, by `job_tests`: that a job ends with another status than Memory where there is memory; reports line by line, of one host and
//!   of several; volumes with faults of each stage, cut short, blank; the counter at its end, one and two before; failing calls of the
//!   device, the source and the sink. By `thread_tests`: the report of `run` where one host does all, and hosts that meet inside a command.
//! - Not claimed of `run`: that it returns, which order the threads take, or that a digest that was handed in is the SHA-1 of its block; that two
//!   hosts interleave inside a command is tested.
//! - Safe and total: yes, but for `run` and `top`, which may wait. A job takes memory for its text, for what it reads of the volume, for the
//!   run, and for its report.
#![tactic(auto)]

mod checking;
mod commands;
mod entry;
mod generating;
mod outcome;
mod reading;
mod running;
mod settling;
mod simulating;
mod status;
mod telling;
mod texts;
mod threading;

pub use checking::check;
pub use commands::command;
pub use entry::top;
pub use generating::generate;
pub use outcome::{AfterRun, Outcome, VolumeNo};
pub use settling::settle;
pub use simulating::sim;
pub use status::Status;
pub use telling::tell;
pub use threading::run;
pub use words::{Job, Line, LineNo, asked, job_of};
