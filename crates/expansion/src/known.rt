// The backends that an update knows: the ids of the old list's rules and of the new weights, ascending, each with its new
// weight, which is 0 where it is missing there.
ghost use Rattle.std.specs.Prelude.{◌≡◌, ◌+◌, ◌≤◌, ◌<◌, eqb, length, get_or, take};
ghost use Rattle.expansion.specs.OldList.{rules_from};
ghost use Rattle.expansion.specs.Inner.Known.{place_in, insert_at, Included, Knowable, Knows};

use crate::old_list::PER_RULE;
use numerals::MOST_KNOWN;

// The place of an id among the first `count`, which ascend, or where it belongs.
pub fn place_of(ids: &[usize], count: usize, id: usize) -> usize
    requires { count ≤ length ids.now }
    ensures { result ≡ place_in id (take count ids.now) }
{
    ids[..count]
        .iter()
        .position(|known| id <= *known)
        .unwrap_or(count)
}

// Whether an id is at this place of the first `count`.
fn is_at(ids: &[usize], count: usize, at: usize, id: usize) -> bool
    requires { (1 ≤ id) × (count ≤ length ids.now) }
    ensures { result ≡ eqb (get_or (take count ids.now) at 0) id }
{
    at < count && ids[at] == id
}

// One id more at its place among the first `count`, with the weight 0. Those from there on move up by one.
fn insert(ids: &mut [usize], weights: &mut [u64], count: usize, at: usize, id: usize)
    requires { (at ≤ count) × ((count < length ids.old) × (count < length weights.old)) }
    ensures ids { take (count + 1) ids.new ≡ insert_at at id (take count ids.old) }
    ensures weights { take (count + 1) weights.new ≡ insert_at at 0 (take count weights.old) }
{
    ids.copy_within(at..count, at + 1);
    weights.copy_within(at..count, at + 1);
    ids[at] = id;
    weights[at] = 0;
}

// One id more among the first `count`, unless it is there. How many they are then.
fn include(ids: &mut [usize], weights: &mut [u64], count: usize, id: usize) -> usize
    requires { (1 ≤ id) × ((count < length ids.old) × (count < length weights.old)) }
    ensures { Included id count result ids.old weights.old ids.new weights.new }
{
    let at = place_of(ids, count, id);
    if is_at(ids, count, at, id) {
        return count;
    }
    insert(ids, weights, count, at, id);
    count + 1
}

// All ids that are known, with their new weights, into lent buffers. How many they are.
pub fn know(
    old: &[usize],
    ids: &[usize],
    weights: &[u64],
    known: &mut [usize; MOST_KNOWN],
    wanted: &mut [u64; MOST_KNOWN],
) -> usize
    requires { Knowable (rules_from old.now) ids.now weights.now }
    ensures { Knows (rules_from old.now) ids.now weights.now known.new wanted.new result }
{
    let mut count = ids.len();
    known[..count].copy_from_slice(ids);
    wanted[..count].copy_from_slice(weights);
    for i in (0..old.len() / PER_RULE).rev() {
        let rule = crate::old_list::rule_at(old, i);
        count = include(known, wanted, count, rule.backend);
    }
    count
}
