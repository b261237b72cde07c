// Where the entries of a digest stand among sorted entries, found by halving.
ghost use Rattle.std.specs.Prelude.{◌≡◌, ◌≤◌, ◌-◌, ◌++◌, drop, length, take, true, false};
ghost use Rattle.std.specs.List.{AllWithin};
ghost use Rattle.std.specs.Ordering.{is_le, is_lt, nat_cmp};
ghost use Rattle.std.specs.Cmp.Lexicographic.{slice_cmp};
ghost use Rattle.sorted_shard.specs.Shelves.{IsSortedByDigest, order, with_digest, without_digest};

use hint_blocks::IndexEntry;
use std::cmp::Ordering;
use vol_base::Digest;

/// Where the entries of a digest stand: from the first place up to before the second.
pub fn range_of(entries: &[IndexEntry], digest: &Digest) -> (usize, usize)
    requires { IsSortedByDigest entries.now }
    ensures order { result.0 ≤ result.1 }
    ensures within { result.1 ≤ length entries.now }
    ensures inside { take (result.1 - result.0) (drop result.0 entries.now) ≡ with_digest digest.now.0 entries.now }
    ensures outside { take result.0 entries.now ++ drop result.1 entries.now ≡ without_digest digest.now.0 entries.now }
{
    (count_below(entries, digest), count_up_to(entries, digest))
}

// How many entries have a lower digest.
fn count_below(entries: &[IndexEntry], digest: &Digest) -> usize
    requires { IsSortedByDigest entries.now }
    ensures within { result ≤ length entries.now }
    ensures below { AllWithin (λ entry. is_lt (order entry digest.now.0) ≡ true) entries.now 0 result }
    ensures others { AllWithin (λ entry. is_lt (order entry digest.now.0) ≡ false) entries.now result (length entries.now) }
{
    entries.partition_point(|entry| compare(&entry.digest, digest).is_lt())
}

/// How many entries have a digest that is no higher.
pub fn count_up_to(entries: &[IndexEntry], digest: &Digest) -> usize
    requires { IsSortedByDigest entries.now }
    ensures within { result ≤ length entries.now }
    ensures up_to { AllWithin (λ entry. is_le (order entry digest.now.0) ≡ true) entries.now 0 result }
    ensures others { AllWithin (λ entry. is_le (order entry digest.now.0) ≡ false) entries.now result (length entries.now) }
{
    entries.partition_point(|entry| compare(&entry.digest, digest).is_le())
}

fn compare(one: &Digest, other: &Digest) -> Ordering
    ensures { result ≡ slice_cmp nat_cmp one.now.0 other.now.0 }
{
    one.0.as_slice().cmp(other.0.as_slice())
}
