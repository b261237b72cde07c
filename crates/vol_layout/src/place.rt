// Where each block of a volume stands: its regions follow each other in one fixed order.
ghost use Rattle.std.specs.Prelude.{◌≡◌, ◌<◌, ◌≤◌, ◌↔◌, ◌^◌, ℕ, Option, Some, IsNone, IfNone, IfSome};
ghost use Rattle.vol_layout.specs.Ranges.{IsGeometry, HasKind, HasResource, HasTable};
ghost use Rattle.vol_layout.specs.RegionStarts.{AreStarts, Begin};
ghost use Rattle.vol_layout.specs.Regions.{total};
ghost use Rattle.vol_layout.specs.Places.{place_of, kind_at};

use crate::geometry::Geometry;
use crate::kind::{Kind, Resource, Table};

/// How many data blocks a group has, slots a part of the arena, and pointers a table block.
pub const PER_TABLE: u32 = 1008;

/// The place of the first block of each region, in order, and the place behind the last.
#[derive(Clone, Copy)]
struct Starts {
    slots: u64,
    journals: u64,
    file_locks: u64,
    part_locks: u64,
    group_locks: u64,
    file_tables: u64,
    group_tables: u64,
    part_tables: u64,
    logs: u64,
    shards: u64,
    requests: u64,
    numbers: u64,
    more_tables: u64,
    end: u64,
}

impl Geometry {
    /// The number of blocks of the volume.
    pub fn total(&self) -> u64
        requires { IsGeometry self.now }
        ensures blocks { result ≡ total self.now }
        ensures bounded { result < 2 ^ 17 }
    {
        self.starts().end
    }

    /// The place of a block of the volume. Each place below `total` is that of one kind of block.
    pub fn place(&self, kind: Kind) -> u64
        requires geometry { IsGeometry self.now }
        requires kind { HasKind self.now kind }
        ensures place { result ≡ place_of self.now kind }
        ensures inside { result < total self.now }
        ensures back { kind_at self.now result ≡ Some kind }
    {
        self.seat(kind)
    }

    /// What stands at a place; `None` exactly behind the volume's last block.
    pub fn kind(&self, place: u64) -> Option<Kind>
        requires { IsGeometry self.now }
        ensures kind { result ≡ kind_at self.now place }
        ensures place { IfSome result (λ kind. HasKind self.now kind × (place_of self.now kind ≡ place)) }
        ensures none { IsNone result ↔ (total self.now ≤ place) }
    {
        self.seated(place)
    }

    #[tactic(auto, unfolding(crate::specs::Places::place_of))]
    fn seat(&self, kind: Kind) -> u64
        requires geometry { IsGeometry self.now }
        requires kind { HasKind self.now kind }
        ensures { result ≡ place_of self.now kind }
    {
        let starts = self.starts();
        match kind {
            Kind::Super => 0,
            Kind::Slot(host) => starts.slots + u64::from(host),
            Kind::Journal(host) => starts.journals + u64::from(host),
            Kind::Lock(Resource::File(file)) => starts.file_locks + u64::from(file),
            Kind::Lock(Resource::Part(part)) => starts.part_locks + u64::from(part),
            Kind::Lock(Resource::Group(group)) => starts.group_locks + u64::from(group),
            Kind::Table(Table::File(file)) => starts.file_tables + u64::from(file),
            Kind::Table(Table::Group(group)) => starts.group_tables + u64::from(group),
            Kind::Table(Table::Part(part)) => starts.part_tables + u64::from(part),
            Kind::Log(host, log) => starts.logs
                + u64::from(host) * u64::from(self.logs)
                + u64::from(log),
            Kind::Shard(shard) => starts.shards + u64::from(shard),
            Kind::Request(file) => starts.requests + u64::from(file),
            Kind::Number(number) => starts.numbers + u64::from(number),
            Kind::Table(Table::More(file, table)) => {
                starts.more_tables
                    + u64::from(file) * u64::from(self.tables - 1)
                    + u64::from(table - 1)
            }
        }
    }

    #[tactic(auto, unfolding(crate::specs::Places::place_of, crate::specs::Ranges::data_blocks, crate::specs::Ranges::per_table))]
    fn seated(&self, place: u64) -> Option<Kind>
        requires { IsGeometry self.now }
        ensures some { IfSome result (λ kind. HasKind self.now kind × (place_of self.now kind ≡ place)) }
        ensures none { IfNone result (total self.now ≤ place) }
    {
        let starts = self.starts();
        if place < starts.slots {
            Some(Kind::Super)
        } else if place < starts.journals {
            Some(Kind::Slot((place - starts.slots) as u8))
        } else if place < starts.file_locks {
            Some(Kind::Journal((place - starts.journals) as u8))
        } else if place < starts.file_tables {
            Some(Kind::Lock(self.resource_at(place, &starts)))
        } else if place < starts.logs {
            Some(Kind::Table(self.table_at(place, &starts)))
        } else if place < starts.shards {
            let log = place - starts.logs;
            let logs = u64::from(self.logs);
            Some(Kind::Log((log / logs) as u8, (log % logs) as u8))
        } else if place < starts.requests {
            Some(Kind::Shard((place - starts.shards) as u8))
        } else if place < starts.numbers {
            Some(Kind::Request((place - starts.requests) as u8))
        } else if place < starts.more_tables {
            Some(Kind::Number((place - starts.numbers) as u32))
        } else if place < starts.end {
            let table = place - starts.more_tables;
            let more = u64::from(self.tables - 1);
            Some(Kind::Table(Table::More((table / more) as u8, (table % more + 1) as u8)))
        } else {
            None
        }
    }

    // The resource of the lock at a place.
    #[tactic(auto, unfolding(crate::specs::Places::place_of))]
    fn resource_at(&self, place: u64, starts: &Starts) -> Resource
        requires geometry { IsGeometry self.now }
        requires starts { AreStarts self.now starts.now }
        requires begin { Begin self.now starts.now }
        requires from { starts.now.file_locks ≤ place }
        requires to { place < starts.now.file_tables }
        ensures has { HasResource self.now result }
        ensures place { place_of self.now (Kind.Lock result) ≡ place }
    {
        if place < starts.part_locks {
            Resource::File((place - starts.file_locks) as u8)
        } else if place < starts.group_locks {
            Resource::Part((place - starts.part_locks) as u8)
        } else {
            Resource::Group((place - starts.group_locks) as u8)
        }
    }

    // The table at a place, but for a file's further ones.
    #[tactic(auto, unfolding(crate::specs::Places::place_of))]
    fn table_at(&self, place: u64, starts: &Starts) -> Table
        requires geometry { IsGeometry self.now }
        requires starts { AreStarts self.now starts.now }
        requires begin { Begin self.now starts.now }
        requires from { starts.now.file_tables ≤ place }
        requires to { place < starts.now.logs }
        ensures has { HasTable self.now result }
        ensures place { place_of self.now (Kind.Table result) ≡ place }
    {
        if place < starts.group_tables {
            Table::File((place - starts.file_tables) as u8)
        } else if place < starts.part_tables {
            Table::Group((place - starts.group_tables) as u8)
        } else {
            Table::Part((place - starts.part_tables) as u8)
        }
    }

    #[tactic(auto, using(crate::proofs::StartLaws::starts_begin))]
    fn starts(&self) -> Starts
        requires { IsGeometry self.now }
        ensures starts { AreStarts self.now result }
        ensures begin { Begin self.now result }
        ensures bounded { result.end < 2 ^ 17 }
    {
        let hosts = u64::from(self.hosts);
        let files = u64::from(self.files);
        let groups = u64::from(self.groups);
        let parts = u64::from(self.parts);
        let slots = 1;
        let journals = slots + hosts;
        let file_locks = journals + hosts;
        let part_locks = file_locks + files;
        let group_locks = part_locks + parts;
        let file_tables = group_locks + groups;
        let group_tables = file_tables + files;
        let part_tables = group_tables + groups;
        let logs = part_tables + parts;
        let shards = logs + hosts * u64::from(self.logs);
        let requests = shards + u64::from(self.shards);
        let numbers = requests + files;
        let more_tables = numbers + u64::from(PER_TABLE) * groups;
        let end = more_tables + files * u64::from(self.tables - 1);
        Starts {
            slots,
            journals,
            file_locks,
            part_locks,
            group_locks,
            file_tables,
            group_tables,
            part_tables,
            logs,
            shards,
            requests,
            numbers,
            more_tables,
            end,
        }
    }
}
