// The nodes of 2^k places, by who has each place: two heaps, the lowest place's backend and the lines of each node.
ghost use Rattle.std.specs.Prelude.{◌≤◌};
ghost use Rattle.numerals.specs.Limits.{most_bits};
ghost use Rattle.stages.specs.Inner.Nodes.{at, Nodes};

use crate::nodes::NODES;
use numerals::MOST_SUFFIXES;

#[derive(Clone, Copy)]
pub struct Tree<'a> {
    pub holder: &'a [u16; MOST_SUFFIXES],
    pub k: usize,
    pub held: &'a [u16; NODES],
    pub lines: &'a [u16; NODES],
    pub ghost few_bits: { k ≤ most_bits },
    pub ghost filled: { Nodes k (at holder.now) 1 held.now lines.now },
}
