// Commands on files: each table of rows, on the volumes that it is for.
use crate::rows::{crosses, plays};
use crate::tables::collections::{ARENA, BUSY_ARENA, BUSY_COLLECTION, COLLECTIONS, EMPTY_ARENA};
use crate::tables::crossings::{
    BUSY_GROUP, BUSY_GROUPS, BUSY_SHARED, BUSY_SHARED_VOLUME, BUSY_VOLUME, CROSSED_HOLDS,
};
use crate::tables::full_groups::{
    ALL_FULL, FIRST_FREE, FULL, FULL_FURTHER_GROUPS, FULL_GROUPS, ONE_FREE_BLOCK,
};
use crate::tables::held::HELD;
use crate::tables::not_held::NOT_HELD;
use crate::tables::purges::{PURGES, PURGES_IN_ONE_GROUP, REMAINS, REMAINS_IN_ONE_GROUP};
use crate::tables::readers::{ENDED_READERS, READ_HOLDS};
use crate::tables::refusals::{FOUR_HOLES, REFUSALS};
use crate::tables::several_tables::SEVERAL_TABLES;
use crate::tables::shared_blocks::{
    SHARED, SHARED_IN_A_LOWER_GROUP, SHARED_IN_A_SEARCHED_GROUP, SHARED_IN_ONE_GROUP,
    SHARED_VOLUME, SHARERS_IN_A_FULL_GROUP, TWO_SHARERS, TWO_SHARERS_OF_THREE_GROUPS,
};
use crate::tables::tables_not_kept::{TABLES_NOT_KEPT, THREE_PARTS};
use crate::volumes::{ONE_GROUP, THREE_GROUPS, THREE_TABLES, Volume};
use std::test::Fail;

#[test]
fn held_files(rt: HostRuntime) -> Result<(), Fail> {
    plays(&rt, rt.alloc(), &Volume::formatted(ONE_GROUP), &HELD)?;
    plays(&rt, rt.alloc(), &Volume::formatted(THREE_GROUPS), &HELD)
}

#[test]
fn files_that_are_not_held(rt: HostRuntime) -> Result<(), Fail> {
    plays(&rt, rt.alloc(), &Volume::formatted(ONE_GROUP), &NOT_HELD)?;
    plays(&rt, rt.alloc(), &Volume::formatted(THREE_GROUPS), &NOT_HELD)
}

#[test]
fn files_of_several_tables(rt: HostRuntime) -> Result<(), Fail> {
    let volume = Volume::formatted(THREE_TABLES);
    plays(&rt, rt.alloc(), &volume, &SEVERAL_TABLES)?;
    plays(&rt, rt.alloc(), &THREE_PARTS, &TABLES_NOT_KEPT)
}

#[test]
fn files_that_are_read(rt: HostRuntime) -> Result<(), Fail> {
    let volume = Volume::formatted(ONE_GROUP);
    plays(&rt, rt.alloc(), &volume, &READ_HOLDS)?;
    plays(&rt, rt.alloc(), &volume, &ENDED_READERS)
}

#[test]
fn plain_refusals(rt: HostRuntime) -> Result<(), Fail> {
    plays(&rt, rt.alloc(), &FOUR_HOLES, &REFUSALS)
}

#[test]
fn shared_blocks(rt: HostRuntime) -> Result<(), Fail> {
    let alloc = rt.alloc();
    plays(&rt, alloc, &SHARED_VOLUME, &SHARED)?;
    plays(&rt, alloc, &TWO_SHARERS, &SHARED_IN_ONE_GROUP)?;
    plays(
        &rt,
        alloc,
        &TWO_SHARERS_OF_THREE_GROUPS,
        &SHARED_IN_A_LOWER_GROUP,
    )?;
    plays(
        &rt,
        alloc,
        &SHARERS_IN_A_FULL_GROUP,
        &SHARED_IN_A_SEARCHED_GROUP,
    )
}

#[test]
fn full_groups(rt: HostRuntime) -> Result<(), Fail> {
    plays(&rt, rt.alloc(), &ONE_FREE_BLOCK, &FULL)?;
    plays(&rt, rt.alloc(), &ALL_FULL, &FULL_GROUPS)?;
    plays(&rt, rt.alloc(), &FIRST_FREE, &FULL_FURTHER_GROUPS)
}

#[test]
fn purges(rt: HostRuntime) -> Result<(), Fail> {
    plays(&rt, rt.alloc(), &REMAINS, &PURGES)?;
    plays(&rt, rt.alloc(), &REMAINS_IN_ONE_GROUP, &PURGES_IN_ONE_GROUP)
}

#[test]
fn two_hosts_at_once(rt: HostRuntime) -> Result<(), Fail> {
    let volume = Volume::formatted(ONE_GROUP);
    crosses(&rt, rt.alloc(), &volume, &BUSY_GROUP)?;
    crosses(&rt, rt.alloc(), &volume, &CROSSED_HOLDS)?;
    crosses(&rt, rt.alloc(), &BUSY_VOLUME, &BUSY_GROUPS)?;
    crosses(&rt, rt.alloc(), &BUSY_SHARED_VOLUME, &BUSY_SHARED)
}

#[test]
fn collections(rt: HostRuntime) -> Result<(), Fail> {
    plays(&rt, rt.alloc(), &ARENA, &COLLECTIONS)?;
    plays(
        &rt,
        rt.alloc(),
        &Volume::formatted(THREE_GROUPS),
        &EMPTY_ARENA,
    )?;
    crosses(&rt, rt.alloc(), &BUSY_ARENA, &BUSY_COLLECTION)
}
