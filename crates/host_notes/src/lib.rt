//! What one call of the locks is to the notes of a run, and what a step of a plan owes to it: definitions and laws, and no code. The plans
//! of commands cite them, behind each of their calls and at the end of each of their steps.
//!
//! A run (`host_runs`) knows of a host only its notes, which its calls alone determine; the locks (`disk_locks`) know its memory. A call of
//! the locks says what it did to memory and device. From that the laws here say what the run asks of the call: that notes and memory
//! still agree, that its turn may make it, and what it does to the tries. And of a whole turn they say what a plan has still to show.
//!
//! # What is proved
//!
//! - Notes and memory agree (`IsRemembered`), one law an answer, whatever the device tells. At the start, behind an answer, and of
//!   keys (`KeyMemories`): `remembered_start`, `remembered_rest`; `remembered_registers`, `remembered_unregistered`,
//!   `remembered_fences`.
//! - At locks (`LockMemories`): taken or held `remembered_shared`, `remembered_shared_held`; read, held and let go of a file
//!   `remembered_read`, `remembered_write`, `remembered_release`, each with its `.._found`; `remembered_unlock`,
//!   `remembered_confirm`; the lock of a dead key `remembered_clear`, `remembered_clear_found`, and either `remembered_frees_lock`.
//! - At slots (`SlotMemories`): `remembered_look`, `remembered_beat`; `remembered_enter`, `remembered_claim`, each with its
//!   `.._found`; freed `remembered_free_claimed`, `remembered_free_own`, `remembered_free_found`, and either
//!   `remembered_frees_claimed`, `remembered_frees_own`.
//! - At any other block (`BlockMemories`): by kind `remembered_block_read`, `remembered_block_write`, `remembered_block_swap`,
//!   `remembered_block_found`; `remembered_table`, `remembered_peek`, `remembered_journal`; by place `remembered_place_read`,
//!   `remembered_place_write`, `remembered_place_swap`, `remembered_place_found`. A place of hints is a plain one (`plain_hint`).
//! - Where a call changed no slot, no lock and no key (`QuietMemories`): `remembered_quiet`, `remembered_same`; of a refusal
//!   `remembered_refused`, `remembered_unheard`; of a dropped host `remembered_drop`.
//! - What the notes then say (`NotedLaws`): the key (`key_noted`, `no_key_noted`), so that a turn is one of its host (`turn_noted`);
//!   whether a slot is claimed (`claim_noted`, `no_claim_noted`); and that a host which holds nothing of the volume, or files alone, has
//!   no other hold there (`no_hold_noted`, `file_holds_noted`).
//! - The turn may make the call, and what it writes (`IsAllowed`). At locks (`LockRights`): `allowed_hold`, `allowed_read`,
//!   `allowed_write`, `allowed_release`, `allowed_unlock`, `allowed_clear`; a file's lock asks that the command is on that file, and
//!   that it is tried from the word that was found last. At slots (`SlotRights`): `allowed_beat`, `allowed_enter`, `allowed_claim`,
//!   `allowed_free_claimed`, `allowed_free_own`; a claim asks that the slot shows another key than the own one, which `other_key`
//!   gives of another host's. Any other call (`OtherRights`): `allowed_register`, `allowed_fence`, `allowed_plain`.
//! - The tries (`TryLaws`) stay over a refusal, a plain block and keys: `tried_refused`, `tried_plain`, `tried_register`,
//!   `tried_fence`; and over reads, but of a slot that may show a reader: `tried_read`, `tried_plain_read`, `tried_look`,
//!   `tried_reader`. A lock of a part or a group: `tried_shared`, `tried_shared_found`, `tried_shared_held`, `tried_shared_kept`; a
//!   file's: `tried_file`, `tried_file_found`, `tried_file_swept`; a slot: `tried_slot`, `tried_slot_found`, `tried_slot_claimed`.
//!   The first key that was shown stays (`ShownLaws`): `tried_shown`.
//! - A plan's turn by its call (`TurnLaws`): the notes behind it (`now_memory`, `now_tries`, `now_calls`, `now_dying`, `now_placed`
//!   with `now_placed_before` and `now_placed_here`, `now_digests`, `now_pending`, `now_watch`; without a call `now_without`,
//!   `now_quiet`); and where it changed nothing the device, the files and the turn (`refused_same`, `shown_same`, `files_same`,
//!   `valid_same`, `no_place`, `turn_without_call`, `turn_quiet`).
//! - What a step owes (`Owes`) of a command on a file whose call was not refused (`FileTurn`, `OwesLaws`): it goes on `owes_goes_on`,
//!   `owes_asks`; it is answered `owes_plain`, `owes_busy`, `owes_full`, `owes_closed`, `owes_scanned`. And of any command that its
//!   call cuts (`CutTurn`, `CutLaws`): `owes_cut`.
//! - Carried by these (`FileEndings`): how such a turn goes on or ends (`goes_on`, `ends`), what tries and a full volume owe
//!   (`owes_none`, `owes_key`, `owes_full_volume`), and of its command `file_joined`, `file_busy`, `busy_keeps`, `busy_looks`,
//!   `plain_pending`, `memory_kept`.
//! - The same of a command on the volume as a whole, which has no place (`VolumeTurn`, `VolumeOwes`): it goes on `owes_on`, `owes_asks_on`; it is
//!   answered `owes_busy_on`, `owes_collected`, `owes_merged`, `owes_served`, `owes_logged`, `owes_scribbled`, `owes_refused`. Carried by
//!   `VolumeEndings`: `volume_goes_on`, `volume_ends`, what is owed by a key or without one (`volume_key`, `volume_no_key`) and by a place or by
//!   hints (`owes_no_other`), and of its command `volume_joined`, `volume_keeps`, `volume_looks`, `volume_no_call`.
#![tactic(auto)]
