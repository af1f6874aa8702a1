// Decimal numbers without leading zeros, read and written.
ghost use Rattle.std.specs.Prelude.{◌≡◌};
ghost use Rattle.std.proofs.Math.Seq.{slice};
ghost use Rattle.numerals.specs.Decimal.{number, width, decimal};
ghost use Rattle.numerals.specs.Digits.{put, put_end};

use crate::refusal::Refusal;

// The number from least to most that stands between two positions.
pub fn read_number(s: &[u8], from: usize, to: usize, least: u64, most: u64) -> Option<u64>
    ensures { result ≡ number least most (slice from to s.now) }
{
    let end = to.min(s.len());
    if end <= from {
        return None;
    }
    if s[from] == 48 {
        if 1 < end - from {
            return None;
        }
    }
    let v = crate::digits::read_digits(s, from, end, 10, most)?;
    if v < least {
        return None;
    }
    Some(v)
}

// How many digits the text of n has. A `while`, since it counts no index: it goes on until one digit is left.
pub fn decimal_width(n: u64) -> usize
    ensures { result ≡ width n }
{
    let mut rest = n;
    let mut w = 1;
    while 10 <= rest {
        rest /= 10;
        w += 1;
    }
    w
}

// The text of n, written into a lent buffer at a position (as C lends it; no heap): the position behind it, or why nothing was written.
pub fn write_number(out: &mut [u8], at: usize, n: u64) -> Result<usize, Refusal>
    ensures answer { result ≡ put_end out.old at (decimal n) }
    ensures buffer { out.new ≡ put out.old at (decimal n) }
{
    let w = decimal_width(n);
    if out.len() < at {
        return Err(Refusal::ShortLoan);
    }
    if out.len() - at < w {
        return Err(Refusal::ShortLoan);
    }
    crate::digits::write_digits(out, at, w, 10, n);
    Ok(at + w)
}
