// The search for a free data block: groups are locked and their tables read, one call a step, until one has a count of 0.
ghost use Rattle.std.specs.Prelude.{◌≡◌, ◌<◌, ℕ, IfErr, IfOk, IfSome, IsNone, length};
ghost use Rattle.host_facts.specs.Others.{Others};
ghost use Rattle.plan_parts.specs.Cuts.{IsCut};
ghost use Rattle.plan_parts.specs.Searches.{HasNoZero, IsCounted, IsHunting, IsLowestZero, IsSearching, Searched, first_of, group_at};
ghost use Rattle.vol_layout.specs.Ranges.{IsGeometry, per_table};

use crate::fetching::fetch;
use crate::kept::Kept;
use crate::taken::Taken;
use lock_store::StepNo;
use meta_world::MetaWorld;
use shared_disk::Device;
use vol_base::{DataNo, HostNo, Key, Packed};
use vol_layout::{Geometry, PER_TABLE, Resource, Table};

/// Where a search is, by how many groups were tried before: the next one is to be locked, or its table to be read.
#[derive(Drop)]
pub enum Search {
    Lock(u8),
    Count(u8),
}

/// What one step of a search came to.
#[derive(Drop)]
pub enum Searching {
    /// A group was locked, and its table is read next.
    More(Search),
    /// A group has no free data block, by this table, and there is another group.
    Next(Search, Kept),
    /// This data block is free, by this table of its group.
    Found(DataNo, Kept),
    /// A group is locked under this key of another host.
    Busy(Key),
    /// All groups are locked, and no data block is free.
    Full,
}

impl Search {
    /// One step. The groups that are locked are kept in `taken`, and stay locked.
    pub fn next<D: Device>(
        self,
        world: &mut MetaWorld<D>,
        host: HostNo,
        taken: &mut Taken,
    ) -> Result<Searching, StepNo>
        requires host { host < world.old.locks.geometry.hosts }
        requires stands { IsSearching world.old host self taken.old }
        ensures went { IfOk result (Searched host world.old world.new self taken.old taken.new) }
        ensures cut { IfErr result (IsCut host world.old world.new) }
        ensures others { Others host world.old world.new }
    {
        match self {
            Search::Lock(k) => lock(world, host, taken, k),
            Search::Count(k) => count(world, host, taken, k),
        }
    }
}

// Locks the group that is tried after k others.
fn lock<D: Device>(
    world: &mut MetaWorld<D>,
    host: HostNo,
    taken: &mut Taken,
    k: u8,
) -> Result<Searching, StepNo>
    requires host { host < world.old.locks.geometry.hosts }
    requires stands { IsSearching world.old host (Search.Lock k) taken.old }
    ensures went { IfOk result (Searched host world.old world.new (Search.Lock k) taken.old taken.new) }
    ensures cut { IfErr result (IsCut host world.old world.new) }
    ensures others { Others host world.old world.new }
{
    let group = group_at(world.locks().geometry(), host, k);
    match taken.take(world, host, Resource::Group(group)) {
        Ok(None) => Ok(Searching::More(Search::Count(k))),
        Ok(Some(key)) => Ok(Searching::Busy(key)),
        Err(why) => Err(why),
    }
}

// Reads its table.
fn count<D: Device>(
    world: &mut MetaWorld<D>,
    host: HostNo,
    taken: &Taken,
    k: u8,
) -> Result<Searching, StepNo>
    requires host { host < world.old.locks.geometry.hosts }
    requires stands { IsSearching world.old host (Search.Count k) taken.now }
    ensures went { IfOk result (Searched host world.old world.new (Search.Count k) taken.now taken.now) }
    ensures cut { IfErr result (IsCut host world.old world.new) }
    ensures others { Others host world.old world.new }
{
    let geometry = world.locks().geometry();
    let groups = geometry.groups;
    let group = group_at(geometry, host, k);
    match fetch(world, host, Table::Group(group)) {
        Ok(kept) => {
            let _geometry = world.locks().geometry();
            Ok(counted(kept, group, k, groups))
        }
        Err(why) => Err(why),
    }
}

// The group that a host tries after k others: from the host's number upwards, going round.
fn group_at(geometry: &Geometry, host: HostNo, k: u8) -> u8
    requires geometry { IsGeometry geometry.now }
    requires below { k < geometry.now.groups }
    ensures { result ≡ group_at (first_of geometry.now host) k geometry.now.groups }
{
    let first = host % geometry.groups;
    if first + k < geometry.groups {
        first + k
    } else {
        first + k - geometry.groups
    }
}

// What the table of a group says, where it is tried after k others.
#[inline(never)]
#[tactic(auto, unfolding(vol_layout::specs::Ranges::per_table))]
fn counted(kept: Kept, group: u8, k: u8, groups: u8) -> Searching
    requires long { length kept.table.entries ≡ per_table }
    requires group { group < 64 }
    requires below { k < 64 }
    ensures { IsCounted kept group k groups result }
{
    match first_zero(&kept.table) {
        Some(entry) => Searching::Found(PER_TABLE * u32::from(group) + entry, kept),
        None => {
            if k + 1 < groups {
                Searching::Next(Search::Lock(k + 1), kept)
            } else {
                Searching::Full
            }
        }
    }
}

// The lowest entry of a table whose number is 0.
#[tactic(auto, unfolding(vol_layout::specs::Ranges::per_table))]
fn first_zero(table: &Packed<4>) -> Option<u32>
    requires { length table.now.entries ≡ per_table }
    ensures some { IfSome result (IsLowestZero table.now) }
    ensures none { IsNone result → HasNoZero table.now }
{
    for entry in 0..PER_TABLE {
        if table.number(entry) == 0 {
            return Some(entry);
        }
    }
    None
}
