// Edits of the entries at the front of an array.
ghost use Rattle.std.specs.Prelude.{◌≡◌, ◌<◌, ◌≤◌, ◌+◌, ◌-◌, ◌++◌, drop, insert, length, take};

use hint_blocks::IndexEntry;

/// Puts an entry at a place among the first `count`, of which there is then one more.
pub fn put_at(entries: &mut [IndexEntry], count: usize, place: usize, entry: IndexEntry)
    requires place { place ≤ count }
    requires room { count < length entries.old }
    ensures entries { take (count + 1) entries.new ≡ insert (take count entries.old) place entry }
    ensures long { length entries.new ≡ length entries.old }
{
    entries[count] = entry;
    entries[place..count + 1].rotate_right(1);
}

/// Takes the entries from `start` up to before `end` from the first `count`, of which there are then so
/// many fewer.
pub fn take_out(entries: &mut [IndexEntry], count: usize, start: usize, end: usize)
    requires range { start ≤ end }
    requires within { end ≤ count }
    requires counted { count ≤ length entries.old }
    ensures entries { take (count - (end - start)) entries.new ≡ take start (take count entries.old) ++ drop end (take count entries.old) }
    ensures long { length entries.new ≡ length entries.old }
{
    entries[start..count].rotate_left(end - start);
}
