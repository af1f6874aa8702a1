// Percentages, read as whole parts of the unit.
ghost use Rattle.std.specs.Prelude.{◌≡◌, ◌-◌, ◌^◌, ◌≤◌, length};
ghost use Rattle.std.proofs.Math.Seq.{slice};
ghost use Rattle.numerals.specs.Limits.{decimals};
ghost use Rattle.numerals.specs.Percentage.{percentage, fraction, at_most_all};

use crate::limits::{DECIMALS, UNIT};

// One percent in parts.
const PERCENT: u64 = UNIT / 100;
// The greatest fraction of a percent.
const MOST_FRACTION: u64 = PERCENT - 1;

// The worth of the last of n digits after the dot, in parts: ten times as much for each decimal that is left out.
fn worth(n: usize) -> u64
    ensures { result ≡ 10 ^ (decimals - n) }
{
    10u64.pow(DECIMALS.saturating_sub(n) as u32)
}

// The digits after the dot, in parts.
fn read_fraction(s: &[u8], from: usize, to: usize) -> Option<u64>
    requires { to ≤ length s.now }
    ensures { result ≡ fraction decimals (slice from to s.now) }
{
    if to <= from {
        return None;
    }
    if DECIMALS < to - from {
        return None;
    }
    let v = crate::digits::read_digits(s, from, to, 10, MOST_FRACTION)?;
    Some(v * worth(to - from))
}

// The percentage that stands between two positions: a whole part and, behind a dot, a fraction, each up to the next dot or
// the end. A second dot makes it none.
pub fn read_percentage(s: &[u8], from: usize, to: usize) -> Option<u64>
    ensures { result ≡ percentage decimals (slice from to s.now) }
{
    let end = to.min(s.len());
    let dot = crate::text::find(s, from, end, 46);
    let whole = crate::numbers::read_number(s, from, dot, 0, 999)?;
    if end <= dot {
        return at_most_all(whole * PERCENT);
    }
    let next = crate::text::find(s, dot + 1, end, 46);
    if next < end {
        return None;
    }
    let fraction = read_fraction(s, dot + 1, next)?;
    at_most_all(whole * PERCENT + fraction)
}

// A value that may be at most 100 percent.
fn at_most_all(v: u64) -> Option<u64>
    ensures { result ≡ at_most_all decimals v }
{
    if v <= UNIT { Some(v) } else { None }
}
