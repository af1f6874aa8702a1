// Starts that need no run: each move changes the shares of two backends, so some can't end within in the moves that are left.
ghost use Rattle.std.specs.Prelude.{◌≡◌, ℕ, ◌*◌, ◌^◌, ◌≤◌, ◌<◌, ltb, length, get_or};
ghost use Rattle.numerals.specs.Limits.{most_bits, most_suffixes, most_rules, unit};
ghost use Rattle.expansion.specs.Inner.Hopeless.{is_apart, beyond_to};

use crate::service::Service;
use numerals::{MOST_KNOWN, UNIT};

// Whether the error of a backend is beyond the tolerance.
fn is_beyond(weight: u64, share: u64, k: usize, tolerance: u64) -> bool
    requires { ((k ≤ most_bits) × (tolerance ≤ unit)) × ((weight ≤ unit) × (share ≤ most_suffixes)) }
    ensures { result ≡ is_apart (share * unit) (weight * 2 ^ k) (tolerance * 2 ^ k) }
{
    let has = share * UNIT;
    let wants = weight * (1 << k);
    let slack = tolerance * (1 << k);
    slack < has.abs_diff(wants)
}

// Whether more backends are beyond the tolerance than so many moves can bring within.
pub fn is_hopeless(service: &Service, shares: &[u64; MOST_KNOWN], moves: usize) -> bool
    requires moves_le_most_rules { moves ≤ most_rules }
    requires by_index { (b : ℕ) → b < length service.now.weights.now → get_or shares.now b 0 ≤ most_suffixes }
    ensures { let s = service.now in result ≡ ltb (2 * moves)
        (beyond_to s.k s.tolerance s.weights.now shares.now (length s.weights.now)) }
{
    let mut count = 0;
    for (b, w) in service.weights.iter().enumerate() {
        if is_beyond(*w, shares[b], service.k, service.tolerance) {
            count += 1;
        }
    }
    2 * moves < count
}
