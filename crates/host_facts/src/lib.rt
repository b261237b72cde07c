//! What a host may rely on between its calls, and what each write of a block owes and does: definitions and laws, and no code. The
//! calls of `meta_world` cite them, and so will the plans of commands, for their own calls on locks as well.
//!
//! # What is proved
//!
//! A host knows a fact (`Knows`) where it has in memory what guards it (a hold, a read hold, a claim, its key) and where, while its key
//! is registered, a told image is as the fact says. Laws say over which calls a fact stays, and by which calls it comes to be known.
//!
//! - Calls of other hosts (`KeptLaws`): every fact stays, whatever they do (`fact_kept`). What a call leaves to all others is then one
//!   record (`Others`): `others_of`, of a call on the locks alone `others_lent`, of two calls of one host `others_then`.
//! - Own reads and writes of one block (`OwnLaws`): over a call that writes nothing every fact stays (`looked_law`); over a write that is
//!   a step, every fact that it spares (`wrote_law`), and over one of a hint block every fact (`wrote_hint_law`, `swapped_hint_law`).
//! - Which writes are steps, so that the image stays valid and no other host is wronged: of a hint block, a free data block and a block
//!   in place (`StepLaws`: `hint_step`, `fresh_step`, `own_step`); of a journal with a record, and emptied (`JournalSteps`: `commit_step`,
//!   `clear_step`); of a table with a record made in it (`TableSteps`: `table_step`).
//! - What a step does to the files (`FileStays`): `quiet_files`, `fresh_files`, and `own_files`, the place of a plain write.
//! - What a host knows of a block that it read (`ReadLaws`): `table_known`, `slot_known`, `slot_shown`, `block_known`; of a dead host
//!   `record_known`, `dead_known`. And of one that it wrote (`WroteLaws`): `wrote_fresh`, `wrote_own`, `wrote_table`, `wrote_record`,
//!   `wrote_empty`; of a dead host `dead_wrote`, `wrote_dead`.
//! - Records on their way into the tables (`DoneLaws`): an edit is written once its table has all of them (`done_made`, `replayed_made`),
//!   stays so over the write of another table (`done_stays`, `replayed_stays`), and a record of which each edit is written is applied
//!   (`applied_known`, `dead_applied`). Of a known table the numbers are the logical ones, while no own record stands (`number_known`).
//! - Calls on locks, one law an answer (`LockFacts`): taken `got_law`, `read_law`, `wrote_hold_law`; let go `released_law`,
//!   `unlocked_law`; read `confirmed_law`; another word found `held_law`, `read_found_law`, `hold_found_law`, `release_found_law`. A dead
//!   host's lock (`SweepFacts`): `cleared_law`.
//! - Calls on slots and keys, one law an answer: `slot_read_law` (`LockFacts`); `beaten_law`, `fenced_law`, `claimed_law`,
//!   `claim_found_law` (`SlotFacts`); `entered_law`, `enter_found_law` (`JoinFacts`); `slot_freed_law`, `left_law` (`FreedFacts`).
//! - Carried by these: `tells_last` and `tells_spared` (the same image and a later view, another image and the same view), `guard_as`,
//!   `guard_more` and `guard_else` (guards over another memory), `sure_over` and `sure_found` (what a host is sure of, over a call and by
//!   what it finds), `passes_law` (any call on keys, slots and locks), `valid_journal_write` and `valid_table_write`.
#![tactic(auto)]
