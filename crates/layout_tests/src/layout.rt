// Places, bounds and bytes as the format's description has them.
use vol_base::Block;
use vol_layout::{Edit, Field, Geometry, Kind, NotVolume, Resource, Table};

fn geometry(numbers: [u8; 7]) -> Geometry {
    let [hosts, files, groups, parts, shards, logs, tables] = numbers;
    Geometry {
        hosts,
        files,
        groups,
        parts,
        shards,
        logs,
        tables,
    }
}

// What stands at a place of the volume with these numbers; nothing where they are no geometry.
fn kind_at(numbers: [u8; 7], place: u64) -> Option<Kind> {
    let g = geometry(numbers);
    if g.is_in_range() { g.kind(place) } else { None }
}

fn is_edit(numbers: [u8; 7], field: Field, number: u32) -> bool {
    let g = geometry(numbers);
    g.is_in_range() && g.is_edit(&Edit { field, number })
}

fn total(numbers: [u8; 7]) -> u64 {
    let g = geometry(numbers);
    if g.is_in_range() { g.total() } else { 0 }
}

#[test]
fn regions_begin_where_the_format_says(rt: HostRuntime) {
    let first = [
        Kind::Slot(0),
        Kind::Journal(0),
        Kind::Lock(Resource::File(0)),
        Kind::Table(Table::File(0)),
        Kind::Table(Table::Group(0)),
        Kind::Table(Table::Part(0)),
        Kind::Log(0, 0),
        Kind::Shard(0),
        Kind::Request(0),
        Kind::Number(0),
    ];
    let rows = [
        (
            [2, 4, 1, 1, 4, 1, 1],
            [1, 3, 5, 11, 15, 16, 17, 19, 23, 27],
            1035,
        ),
        (
            [2, 4, 1, 1, 1, 1, 1],
            [1, 3, 5, 11, 15, 16, 17, 19, 20, 24],
            1032,
        ),
        (
            [1, 4, 1, 1, 1, 1, 1],
            [1, 2, 3, 9, 13, 14, 15, 16, 17, 21],
            1029,
        ),
        (
            [4, 16, 4, 4, 8, 4, 1],
            [1, 5, 9, 33, 49, 53, 57, 73, 81, 97],
            4129,
        ),
    ];
    for (numbers, places, blocks) in rows {
        for (kind, place) in first.iter().zip(places) {
            assert_eq!(rt;
                kind_at(numbers, place),
                Some(*kind),
                "at {place} of {numbers:?}"
            );
        }
        assert_eq!(rt; total(numbers), blocks, "of {numbers:?}");
        assert_eq!(rt; kind_at(numbers, blocks), None, "behind the last");
    }
}

#[test]
fn a_kind_has_its_place(rt: HostRuntime) {
    let g = geometry([2, 4, 1, 1, 4, 1, 1]);
    if g.is_in_range() {
        assert_eq!(rt; g.place(Kind::Table(Table::File(0))), 11);
        assert_eq!(rt; g.place(Kind::Shard(0)), 19);
        assert!(rt; g.blank(11).same(&Table::File(0).blank()), "a blank table");
    }
}

#[test]
fn last_places(rt: HostRuntime) {
    let rows = [
        (0, Kind::Super),
        (28, Kind::Lock(Resource::Part(3))),
        (32, Kind::Lock(Resource::Group(3))),
        (72, Kind::Log(3, 3)),
        (4128, Kind::Number(4031)),
        (4129, Kind::Table(Table::More(0, 1))),
        (4144, Kind::Table(Table::More(15, 1))),
    ];
    for (place, kind) in rows {
        assert_eq!(rt;
            kind_at([4, 16, 4, 4, 8, 4, 2], place),
            Some(kind),
            "at {place}"
        );
    }
}

#[test]
fn totals_of_version_2(rt: HostRuntime) {
    let rows = [
        ([1, 1, 2, 1, 1, 1, 2], 2031),
        ([2, 4, 1, 1, 4, 1, 2], 1039),
        ([16, 64, 64, 16, 64, 16, 16], 66177),
    ];
    for (numbers, blocks) in rows {
        assert_eq!(rt; total(numbers), blocks, "of {numbers:?}");
    }
}

#[test]
fn superblocks_have_one_spelling(rt: HostRuntime) {
    let g = geometry([2, 4, 1, 1, 4, 1, 1]);
    let block = if g.is_in_range() {
        g.write()
    } else {
        Block::zeros()
    };
    let mut bytes = [0u8; 4096];
    bytes[..8].copy_from_slice(b"DEDEVOL1");
    bytes[11] = 2;
    bytes[15] = 4;
    bytes[19] = 1;
    bytes[23] = 1;
    bytes[27] = 4;
    bytes[31] = 1;
    assert!(rt; block.same(&Block(bytes)), "the bytes of version 1");
    assert_eq!(rt; Geometry::read(&block), Ok(g), "read again");
    bytes[4095] = 1;
    assert_eq!(rt;
        Geometry::read(&Block(bytes)),
        Err(NotVolume),
        "a byte that is not named"
    );
    bytes[4095] = 0;
    bytes[7] = b'2';
    bytes[35] = 1;
    assert_eq!(rt;
        Geometry::read(&Block(bytes)),
        Err(NotVolume),
        "version 2 with one table block a file"
    );
    bytes[35] = 2;
    assert_eq!(rt;
        Geometry::read(&Block(bytes)),
        Ok(geometry([2, 4, 1, 1, 4, 1, 2])),
        "version 2"
    );
    bytes[11] = 17;
    assert_eq!(rt;
        Geometry::read(&Block(bytes)),
        Err(NotVolume),
        "too many hosts"
    );
}

#[test]
fn numbers_have_their_bounds(rt: HostRuntime) {
    let single = [1, 1, 1, 1, 1, 1, 1];
    let many = [1, 1, 2, 1, 1, 1, 2];
    let rows = [
        (single, Field::Count(0), 80640, true),
        (single, Field::Count(0), 80641, false),
        (many, Field::Count(0), 3024, true),
        (many, Field::Count(0), 3025, false),
        (single, Field::Head(0), 1009, true),
        (single, Field::Head(0), 1010, false),
        (many, Field::Head(0), 2017, true),
        (single, Field::Pointer(0, 0), 0, true),
        (single, Field::Pointer(0, 0), 1008, true),
        (single, Field::Pointer(0, 0), 1009, false),
        (single, Field::Pointer(0, 0), 0x8000_0001, true),
        (single, Field::Pointer(0, 0), 0x8000_0000, false),
        (single, Field::Pointer(0, 1008), 0, false),
        (many, Field::Pointer(0, 2015), 0, true),
        (many, Field::Pointer(0, 2016), 0, false),
        (single, Field::Slot(0), 1008, true),
        (single, Field::Slot(0), 1009, false),
    ];
    for (numbers, field, number, want) in rows {
        assert_eq!(rt; is_edit(numbers, field, number), want, "{field:?} {number}");
    }
}

#[test]
fn sizes_follow_from_the_geometry(rt: HostRuntime) {
    let g = geometry([2, 4, 1, 1, 4, 1, 2]);
    if g.is_in_range() {
        assert_eq!(rt; g.limit(), 2016);
        assert_eq!(rt; g.data_blocks(), 1008);
        assert_eq!(rt; g.arena_slots(), 1008);
        assert_eq!(rt; g.file_tables(), 8);
        assert_eq!(rt; g.references(), 9072);
        assert_eq!(rt; g.log_entries(), 126);
    }
}

#[test]
fn fields_stand_in_tables(rt: HostRuntime) {
    let g = geometry([2, 4, 1, 1, 4, 1, 2]);
    let pointer = Field::Pointer(3, 1010);
    assert_eq!(rt; pointer.entry(), Some(2));
    assert_eq!(rt; Field::Head(3).entry(), None);
    assert_eq!(rt; Table::More(3, 1).magic(), *b"DEDEFILE");
    if g.is_in_range() && g.has_field(&pointer) {
        assert!(rt; g.allows(&pointer, 1008));
        assert_eq!(rt; g.table_of(&pointer), Table::More(3, 1));
        assert_eq!(rt; g.resource_of(&pointer), Resource::File(3));
        assert_eq!(rt; g.pointer_at(3, 1010), (Table::More(3, 1), 2));
    }
}
