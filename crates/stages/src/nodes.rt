// Nodes of the tree, numbered as a heap is: node 1 has all places, the halves of node i are 2i and 2i + 1, and place p is
// node 2^k + p. Of each node: the backend of its lowest place, and how many lines it has.
ghost use Rattle.std.specs.Prelude.{◌≡◌, ◌+◌, ◌^◌, ◌≤◌, ◌<◌};
ghost use Rattle.numerals.specs.Limits.{most_bits};
ghost use Rattle.stages.specs.Inner.Nodes.{at, cut_at, lines_at, joined, height_at};

use crate::tree::Tree;
use numerals::MOST_SUFFIXES;

pub const NODES: usize = 2 * MOST_SUFFIXES;

// The lines of a node by those of its halves: one, where each half is one line and they are one backend's.
fn join(a: u16, b: u16, same: bool) -> u16
    requires { a + b < 2 ^ 16 }
    ensures { result ≡ joined a b same }
{
    if same && a + b == 2 { 1 } else { a + b }
}

// The nodes over the holders of 2^k places, in two lent heaps, the lowest node last.
pub fn fill<'a>(
    holder: &'a [u16; MOST_SUFFIXES],
    k: usize,
    held: &'a mut [u16; NODES],
    lines: &'a mut [u16; NODES],
) -> Tree<'a>
    requires { k ≤ most_bits }
    ensures holder { result.holder.now ≡ holder.now }
    ensures k { result.k ≡ k }
{
    let all: usize = 1 << k;
    for i in (1..2 * all).rev() {
        if all <= i {
            held[i] = holder[i - all];
            lines[i] = 1;
        } else {
            let low = held[2 * i];
            let same = low == held[2 * i + 1];
            let n = join(lines[2 * i], lines[2 * i + 1], same);
            held[i] = low;
            lines[i] = n;
        }
    }
    Tree {
        holder,
        k,
        held,
        lines,
    }
}

impl Tree<'_> {
    // How many lines the stage at place p has, p above 0, new below it and old from it on: up the one path from the last place
    // below p, where what is left of the path is new and what is right of it is old.
    pub fn count_lines(self, new: Tree, p: usize) -> u16
        requires { (self.k ≡ new.k) × ((0 < p) × (p ≤ 2 ^ self.k)) }
        ensures { result ≡ lines_at (cut_at p (at self.entry.holder.now) (at new.entry.holder.now)) self.entry.k 0 }
    {
        let all: usize = 1 << self.k;
        let mut i = all + p - 1;
        let backend = new.held[i];
        let mut n: u16 = 1;
        // it goes to the node above, and counts no index
        while 1 < i {
            if i % 2 == 0 {
                n = join(n, self.lines[i + 1], backend == self.held[i + 1]);
            } else {
                n = join(n, new.lines[i - 1], backend == new.held[i - 1]);
            }
            i = i / 2;
        }
        n
    }

    // The height of the largest node around a place that one backend has.
    pub fn height(self, p: usize) -> usize
        requires { p < 2 ^ self.k }
        ensures few { result ≤ self.entry.k }
        ensures height { result ≡ height_at (at self.entry.holder.now) self.entry.k p }
    {
        let all: usize = 1 << self.k;
        let mut i = all + p;
        let mut n = 0;
        // it goes to the node above, and counts no index
        while 1 < i && self.lines[i / 2] == 1 {
            i = i / 2;
            n += 1;
        }
        n
    }
}
