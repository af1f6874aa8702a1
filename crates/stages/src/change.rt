// A change from one table to another, of a service: who has each of 2^k places in either.
ghost use Rattle.std.specs.Prelude.{◌≤◌};
ghost use Rattle.numerals.specs.Limits.{most_bits};

use numerals::MOST_SUFFIXES;

#[derive(Clone, Copy)]
pub struct Change<'a> {
    pub old: &'a [u16; MOST_SUFFIXES],
    pub new: &'a [u16; MOST_SUFFIXES],
    pub k: usize,
    pub ghost few_bits: { k ≤ most_bits },
}
