//! Tests of plans and their parts: two hosts, or three, and one volume over a device that tells nothing of its content.
//!
//! Each test of `steps` compares all calls of the device with those that the rules give, in order:
//! - a write hold from a free lock, of a held file, behind a reader that still has its slot and behind one that left it;
//! - a read hold of two hosts, confirmed, and given back by both;
//! - a transaction of one edit: the lock and the table of a group, a record, its table, the empty journal, and the lock free again;
//! - a search on a blank volume, with a full group, with full groups alone, and with the group of another host.
//!
//! So does each test of `recoveries` and `replays`, which runs whole commands on slots, with their answers:
//! - `beat` and `look`: the count of looks, of a slot that beats and of a free one, and a `recover` that is too early;
//! - `leave` with two files and with none, and `join` from a free slot;
//! - `recover` of a host that holds a file and a group, with a record of one edit: the record is made again, and the locks are freed;
//! - the same with a record of four edits in two tables: each is read and written once, also by a host that recovers the recovery;
//! - `join` over an own older key, and over one whose recovery an own older key began;
//! - a claim that finds a later beat, another key, a free slot, or the claim of another host; and the cut of a host whose key is off;
//! - `recover` of a slot whose recoverer died, and `join` of a host whose slot another one recovers;
//! - a lone host that joins over a slot which another one began to recover, and recovers that one and a host that is not there.
//!
//! Each test of `commands` runs a table of commands on files (`tables`), and compares the text of every call (its key, its block of the volume,
//! what the blocks say) and of every answer:
//! - `held`, `not_held`: each command on files and `close`, with one group and with three, where the host has its file and the file's table, and
//!   where it takes and reads them first;
//! - `several_tables`, `tables_not_kept`: files of three table blocks, with all tables kept, and with some or none;
//! - `refusals`: each plain refusal, behind a table that was read and behind a lock that was confirmed;
//! - `shared_blocks`: writes through a mark, where the shared block's group is the one of the free block, a further one, a lower one, or one
//!   that the search had locked; a block that is read and one that is dropped by such a pointer, and one that is then written in place;
//! - `full_groups`: a write that meets all groups full, a search that goes round, and a block that was given back;
//! - `purges`: pointers behind the end of a file, of two groups, more than a record has room for, and two of one block;
//! - `readers`: holds of several readers, a reader that comes to write, `close` of a file that is only read, and readers that left or died;
//! - `collections`: slots of two parts whose data blocks nothing else names, or a file too, more than a record has room for, in two groups; no
//!   slot; and a group that another host has;
//! - `crossings`: a command in the midst of which another host runs a whole one: a group that is busy behind none, one or two that were locked,
//!   the same for the group of a shared block, and locks of files whose readers close or leave between two tries.
//!
//! And `sharing`, which runs whole shares and promotions:
//! - a promotion, and a link to its slot, with all their calls; each other answer of both, from tables and blocks as a volume has them;
//! - a link to another file's block, which has no mark yet; a link while another host holds the slot's part, and one whose group is busy.
//!
//! `values` tests what makes no call: the order of locks and tables, the answer of each outcome, and the step that cuts a command.
#![tactic(auto)]

#[cfg(test)]
mod alone;
#[cfg(test)]
mod caches;
#[cfg(test)]
mod collections;
#[cfg(test)]
mod commands;
#[cfg(test)]
mod file_hosts;
#[cfg(test)]
mod files;
#[cfg(test)]
mod holds;
#[cfg(test)]
mod noting;
#[cfg(test)]
mod ready;
#[cfg(test)]
mod records;
#[cfg(test)]
mod recoveries;
#[cfg(test)]
mod replays;
#[cfg(test)]
mod rows;
#[cfg(test)]
mod sharing;
#[cfg(test)]
mod shown;
#[cfg(test)]
mod slots;
#[cfg(test)]
mod steps;
#[cfg(test)]
mod tables;
#[cfg(test)]
mod trace;
#[cfg(test)]
mod transactions;
#[cfg(test)]
mod untold;
#[cfg(test)]
mod values;
#[cfg(test)]
mod volumes;
#[cfg(test)]
mod worlds;
