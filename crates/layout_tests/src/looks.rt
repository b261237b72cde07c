// A slot that stands still, changes, and is free.
use slot_lock_blocks::Slot;
use vol_base::Key;
use watch::Watch;

#[test]
fn looks_in_a_row(rt: HostRuntime) {
    let live = Slot::Live {
        key: Key(49),
        beat: 0,
    };
    let later = Slot::Live {
        key: Key(49),
        beat: 1,
    };
    let dead = Slot::Recovering {
        key: Key(49),
        by: Key(32),
    };
    let rows = [
        (live, 1),
        (live, 2),
        (live, 3),
        (later, 1),
        (later, 2),
        (dead, 1),
        (Slot::Free, 0),
        (dead, 1),
    ];
    let mut watch = Watch::new();
    assert_eq!(rt; watch.seen(1), None);
    for (slot, count) in rows {
        assert_eq!(rt; watch.look(1, &slot), count, "{slot:?}");
        assert_eq!(rt; watch.count(1), count);
        assert_eq!(rt; watch.count(2), 0);
    }
    assert_eq!(rt; watch.seen(1), Some(dead));
    watch.forget(1);
    assert_eq!(rt; watch.seen(1), None);
    assert_eq!(rt; watch.count(1), 0);
}
