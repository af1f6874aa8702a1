// The term of a move: how many suffixes go from giver to receiver, and what that gains.
ghost use Rattle.std.specs.Prelude.{◌≡◌, true, ℕ, ◌≤◌, pos};
ghost use Rattle.numerals.specs.Limits.{most_bits};
ghost use Rattle.expansion.specs.Steps as steps;
ghost use Rattle.expansion.specs.Inner.Ledger as kept;
ghost use Rattle.expansion.specs.Inner.Terms as terms;

use numerals::UNIT;

// A term of 2^index suffixes and its reduction.
#[derive(Drop)]
pub struct Term {
    pub index: usize,
    pub reduction: i64,
}

// The reduction of the term t for the largest shortfall u and the largest excess o, or 0 where it is below. Sizes are i64, the form that
// document 01 names for errors, so that none is negative is a clause.
fn reduction(u: i64, o: i64, t: i64) -> i64
    requires u_value { (u ≡ pos (kept.over u)) × ((o ≡ pos (kept.over o)) × (t ≡ pos (kept.over t))) }
    requires small { kept.Small t }
    ensures { result ≡ pos (steps.reduction (kept.over u) (kept.over o) (kept.over t)) }
{
    let twice = 2 * (u.min(t) + o.min(t) - t);
    twice.max(0)
}

// Whether one of the errors is at least t. No smaller term then gains more than t.
fn is_enough(u: i64, o: i64, t: i64) -> bool
    requires { (u ≡ pos (kept.over u)) × ((o ≡ pos (kept.over o)) × (t ≡ pos (kept.over t))) }
    ensures { result ≡ true → (s : ℕ) → s ≤ kept.over t
        → steps.reduction (kept.over u) (kept.over o) s ≤ steps.reduction (kept.over u) (kept.over o) (kept.over t) }
{
    t <= u || t <= o
}

// The greatest reduction of the terms of 1 to 2^cap suffixes, the larger term if equal.
pub fn best_term(u: i64, o: i64, cap: usize) -> Term
    requires { (u ≡ pos (kept.over u)) × ((o ≡ pos (kept.over o)) × (cap ≤ most_bits)) }
    ensures { terms.Best (kept.over u) (kept.over o) cap result }
{
    let mut index = cap;
    let mut best: i64 = 0;
    // not 0..=cap: the edit no_first_gain changes the 1
    for i in (0..cap + 1).rev() {
        let t = (UNIT * (1 << i)) as i64;
        let r = reduction(u, o, t);
        // a smaller term has to gain more
        let least = best + 1;
        if least <= r {
            best = r;
            index = i;
        }
        if is_enough(u, o, t) {
            break;
        }
    }
    Term {
        index,
        reduction: best,
    }
}
