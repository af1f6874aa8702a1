// Churn: who holds each suffix before and after, in the order of tree places, and how many have another backend. The loop counts
// those that have the same, which LLVM does with fewer instructions. Measured: `same` has 16 bits, since with a wider count LLVM
// doesn't take eight places at a time; nor does it in a `while` that ends by `<` against a shifted number.
ghost use Rattle.std.specs.Prelude.{◌≡◌, not, ◌^◌, ◌≤◌, eqb, get_or};
ghost use Rattle.numerals.specs.Limits.{most_bits};
ghost use Rattle.numerals.specs.Sums.{count_to};

use numerals::MOST_SUFFIXES;

// At how many of the first 2^k places the holders differ.
pub fn count_unlike(before: &[u16; MOST_SUFFIXES], after: &[u16; MOST_SUFFIXES], k: usize) -> usize
    requires { k ≤ most_bits }
    ensures { result ≡ count_to (2 ^ k) (λ p. not (eqb (get_or before.now p 0) (get_or after.now p 0))) }
{
    let all: usize = 1 << k;
    let mut same: u16 = 0;
    for p in 0..all {
        if before[p] == after[p] {
            same += 1;
        }
    }
    all - same as usize
}
