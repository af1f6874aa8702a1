// The tree places of all twelve-bit suffixes, from which those of a shorter length are read.
ghost use Rattle.std.specs.Prelude.{◌≡◌, ◌^◌, ◌≤◌, ◌<◌};
ghost use Rattle.numerals.specs.Limits.{most_bits};
ghost use Rattle.numerals.specs.Suffix.{place, Places};

use numerals::{MOST_BITS, MOST_SUFFIXES};

// The listing is borrowed, since a function that returned it would copy it once more.
#[derive(Clone, Copy)]
pub struct TreePlaces<'a> {
    pub of_twelve: &'a [u16; MOST_SUFFIXES],
    ghost listed: { Places most_bits of_twelve.now },
}

impl TreePlaces<'_> {
    // The suffix of k bits that has a tree place.
    pub fn suffix(&self, k: usize, at: usize) -> usize
        requires { (k ≤ most_bits) × (at < 2 ^ k) }
        ensures { result ≡ place k at }
    {
        (self.of_twelve[at] as usize) >> (MOST_BITS - k)
    }
}
