// Exact binary64 numbers: a whole number divided by a power of two.
ghost use Rattle.std.specs.Prelude.{◌≡◌, ◌≤◌};
ghost use Rattle.numerals.specs.Limits.{most_bits, most_suffixes, most_volume};
ghost use Rattle.gauges.specs.Gauges.{gauges_of};

use crate::answer::Gauges;

// The gauges of a backend that holds so many of the 2^k suffixes. No operation rounds.
pub fn gauges_of(k: usize, held: u64, volume: u64) -> Gauges
    requires { (k ≤ most_bits) × (held ≤ most_suffixes) × (volume ≤ most_volume) }
    ensures { result ≡ gauges_of k held volume }
{
    let all = 1u64 << k;
    let share = held as f64 / all as f64;
    let load = volume as f64 * share;
    Gauges { share, load }
}
