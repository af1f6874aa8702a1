// Who holds which k-bit suffixes, in the order of their tree places: holder[p] has the one with place p. A node is a suffix
// that covers `size` of them: node j has the places from j × size on.
ghost use Rattle.std.specs.Prelude.{◌≡◌, ◌+◌, ◌-◌, ◌*◌, ◌%◌, ◌^◌, ◌≤◌, ◌<◌};
ghost use Rattle.numerals.specs.Limits.{most_bits, most_suffixes, most_known};
ghost use Rattle.expansion.specs.Inner.Holders as held;

use crate::places::TreePlaces;
use crate::rule::Move;
use numerals::{MOST_KNOWN, MOST_SUFFIXES};

// The lowest of the nodes from `from` on that the giver holds wholly, or `nodes` where there is none. The walk over the
// nodes leaves one at its first suffix of another's, and ends at the first whole node. The inner walk takes the last
// suffix and the first, then four to a turn: a node of more than two suffixes has a multiple of four. It counts by hand: as
// a range it takes 11 instructions a turn in place of 10.
fn lowest_whole(
    holder: &[u16; MOST_SUFFIXES],
    from: usize,
    nodes: usize,
    size: usize,
    giver: u16,
) -> usize
    requires size_nonzero { (0 < size) × (nodes * size ≤ most_suffixes) }
    requires size_value { 2 < size → size % 4 ≡ 0 }
    requires from_le_nodes { from ≤ nodes }
    ensures { result ≡ held.lowest_held holder.now size giver from nodes }
{
    let mut lowest = nodes;
    'nodes: for node in from..nodes {
        let at = node * size;
        if holder[at + size - 1] != giver || holder[at] != giver {
            continue 'nodes;
        }
        let mut left = size - size % 4;
        while 0 < left {
            let four = at + left - 4;
            if holder[four + 3] != giver
                || holder[four + 2] != giver
                || holder[four + 1] != giver
                || holder[four] != giver
            {
                continue 'nodes;
            }
            left -= 4;
        }
        lowest = node;
        break 'nodes;
    }
    lowest
}

// The places of a node go to a backend.
pub fn give(holder: &mut [u16; MOST_SUFFIXES], at: usize, size: usize, receiver: u16)
    requires { at + size ≤ most_suffixes }
    ensures { held.Given at size receiver holder.old holder.new }
{
    for place in &mut holder[at..at + size] {
        *place = receiver;
    }
}

// No backend holds a place below its low. After a move the giver has none up to the end of the node that it gave.
fn note_lows(low: &mut [u16; MOST_KNOWN], giver: usize, receiver: usize, at: usize, end: usize)
    requires { (giver < most_known) × ((receiver < most_known) × ((at ≤ most_suffixes) × (end ≤ most_suffixes))) }
    ensures { low.new ≡ held.lowered low.old giver receiver at end }
{
    let had = low[receiver];
    low[giver] = end as u16;
    low[receiver] = had.min(at as u16);
}

// Step 6: of the suffixes that cover 2^index and that the giver holds wholly, the one with the lowest tree place goes to
// the receiver. Its value.
pub fn hand_over(
    holder: &mut [u16; MOST_SUFFIXES],
    low: &mut [u16; MOST_KNOWN],
    places: &TreePlaces,
    k: usize,
    m: Move,
) -> usize
    requires k_le_most_bits { (k ≤ most_bits) × ((m.index ≤ k) × ((m.giver < most_known) × (m.receiver < most_known))) }
    requires low_bound { held.node_of k m holder.old low.old < 2 ^ (k - m.index) }
    ensures { held.Handed k m result holder.old low.old holder.new low.new }
{
    let size: usize = 1 << m.index;
    let len = k - m.index;
    let giver = m.giver;
    let from = (low[giver] as usize) >> m.index;
    let node = lowest_whole(holder, from, 1 << len, size, giver as u16);
    let at = node * size;
    give(holder, at, size, m.receiver as u16);
    note_lows(low, giver, m.receiver, at, at + size);
    let value = places.suffix(len, node);
    value
}
