//! What a run of several hosts is, and what follows of every run: definitions and laws, and no code
//! that runs. The crates that run a workload cite them in their contracts.
//!
//! # What is proved
//!
//! Of each run (`specs/laws`): its answers and history fit the workload (`fits-run`); where the
//! device tells its content, the history is legal from the files of the first image, the last image is
//! valid, and each image on the way has the files of a front (`led-run`); history and answers are those
//! of its events, each plain reply behind its entry (`listed-run`); a host has a key where its answers
//! say that it is joined (`seated-run`), and dies no later than it is to (`dying-run`); a host that is not
//! joined calls in a `join` alone (`out-calls`), and is the only one that is answered `down`
//! (`down-run`); a key is taken off only by a command that may (`keys-run`); the device's counter rises
//! at most once a line (`counter-run`), its faults never fall (`faults-run`), and it keeps its blocks
//! (`blocks-run`); each line has an answer where no host has a line left in the last phase
//! (`all-answered`). A run of a tidy workload
//! without a fault of the device, from a valid volume whose slots are free, has no `busy` and no cut, and
//! serves each file command of a joined host (`tidy-complete`). Three wrong turns are refused: two device
//! calls, an `alive 3`, an answered write without its place (`RefusedLaws`). Two runs are computed by
//! hand, with each state: two hosts on one file (`two_hosts_run`, `two_hosts_end`), and a death and a
//! recovery (`recovery_run`, `recovered_end`).
#![tactic(auto)]
