// The tables of commands: each row has all device calls of its command and its answer.
pub mod collections;
pub mod crossings;
pub mod full_groups;
pub mod held;
pub mod not_held;
pub mod purges;
pub mod readers;
pub mod refusals;
pub mod several_tables;
pub mod shared_blocks;
pub mod tables_not_kept;
