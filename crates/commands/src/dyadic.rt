// Decimals of whole numbers divided by 2^12, exactly. Into lent buffers, not through Display: no heap, and each byte is proved.
ghost use Rattle.std.specs.Prelude.{[], ◌∷◌, ◌++◌, ◌+◌, ◌<◌, ◌≤◌, length};
ghost use Rattle.numerals.specs.Limits.{most_bits, most_suffixes};
ghost use Rattle.sheets.specs.Inner.Writing.{Wrote};
ghost use Rattle.commands.specs.Dyadic.{decimals_of, dyadic_text};
ghost use Rattle.commands.specs.Inner.Gauge.{gauge_room};

use crate::writing::put_number;

// 2^12. A gauge has at most 12 binary digits behind the dot: times this it is a whole number.
pub const PARTS: u64 = numerals::MOST_SUFFIXES as u64;

// The digits of rest / 2^12 behind the dot, at a position; the position after them.
fn put_decimals(out: &mut [u8], at: usize, rest: u64) -> usize
    requires { (rest < most_suffixes) × (at + most_bits ≤ length out.old) }
    ensures text { Wrote out.old out.new at result (decimals_of most_bits rest) }
    ensures end { result ≤ at + most_bits }
{
    let mut all = PARTS;
    let mut left = rest;
    let mut end = at;
    // it ends where no digit is left, and not after so many
    while 0 < left {
        all = all / 2;
        left = left * 5;
        out[end] = (48 + left / all) as u8;
        left = left % all;
        end += 1;
    }
    end
}

// n / 2^12, and a separator behind it; the position after them.
pub fn put_dyadic(out: &mut [u8], at: usize, n: u64, separator: u8) -> usize
    requires { at + gauge_room ≤ length out.old }
    ensures text { Wrote out.old out.new at result (dyadic_text n most_bits ++ separator ∷ []) }
    ensures end { result ≤ at + gauge_room }
{
    let rest = n % PARTS;
    if rest == 0 {
        return put_number(out, at, n / PARTS, separator);
    }
    let dot = put_number(out, at, n / PARTS, 46);
    let end = put_decimals(out, dot, rest);
    out[end] = separator;
    end + 1
}
