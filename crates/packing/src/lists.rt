// The lists of all services, each made once: service s has the places from STRIDE s on, the first for no rule and the
// c-th after it for the c-th oldest rule.
ghost use Rattle.std.specs.Prelude.{◌≡◌, length};
ghost use Rattle.packing.specs.Inner.Lists.{Sized, ListedTo};

use numerals::MOST_SERVICES;

// The places of one service, and of all.
pub const STRIDE: usize = numerals::MOST_RULES + 1;

pub const PLACES: usize = STRIDE * MOST_SERVICES;

// The rules and stairs of every list, its number of rules and how it ended. Before any rule no backend has an
// excess, so that stair is 0.
pub fn make_lists(
    k: usize,
    tolerance: u64,
    sizes: &[usize],
    ids: &[usize],
    weights: &[u64],
    lens: &mut [usize; PLACES],
    values: &mut [usize; PLACES],
    backends: &mut [usize; PLACES],
    stairs: &mut [u64; PLACES],
    counts: &mut [usize; MOST_SERVICES],
    ends: &mut [usize; MOST_SERVICES],
)
    requires { Sized k tolerance sizes.now ids.now weights.now }
    ensures { ListedTo k tolerance
        sizes.now ids.now weights.now (length sizes.now)
        lens.new values.new backends.new stairs.new
        counts.new ends.new }
{
    let mut at = 0;
    for (s, &n) in sizes.iter().enumerate() {
        let list = expansion::expand(
            k,
            tolerance,
            numerals::MOST_RULES,
            &ids[at..at + n],
            &weights[at..at + n],
            STRIDE * s + 1,
            lens,
            values,
            backends,
            stairs,
        )
        .unwrap();
        stairs[STRIDE * s] = 0;
        counts[s] = list.rules;
        // within 0, no gain 1, budget 2: the order of the enum
        ends[s] = list.ended as usize;
        at += n;
    }
}
