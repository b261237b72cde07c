// What is kept, kept again and forgotten.
use held_cache::HeldCache;
use std::test::Fail;
use vol_base::Packed;
use vol_layout::{Geometry, Table};

const SMALL: Geometry = Geometry {
    hosts: 2,
    files: 3,
    groups: 1,
    parts: 1,
    shards: 1,
    logs: 1,
    tables: 2,
};

// A table that is told by its word.
fn table(word: u32) -> Packed<4> {
    let mut table = Packed::empty(*b"DEDEFILE");
    table.set_word(word);
    table
}

#[test]
fn what_was_kept_last_is_got(rt: HostRuntime) -> Result<(), Fail> {
    assert!(rt; SMALL.is_in_range());
    let mut cache = HeldCache::new(rt.alloc(), &SMALL)?;
    cache.keep(0, Table::More(0, 1), &table(1));
    cache.keep(1, Table::File(0), &table(2));
    cache.keep(0, Table::File(0), &table(3));
    cache.forget(0, Table::File(0));
    cache.forget_host(1);
    assert!(rt; cache.get(0, Table::More(0, 1)).is_some());
    assert!(rt; cache.get(0, Table::File(0)).is_none());
    assert!(rt; cache.get(1, Table::File(0)).is_none());
    Ok(())
}
