// Suffixes and their tree places.
ghost use Rattle.std.specs.Prelude.{◌≡◌};
ghost use Rattle.std.proofs.Math.Seq.{slice};
ghost use Rattle.numerals.specs.Limits.{most_bits};
ghost use Rattle.numerals.specs.Suffix.{is_suffix, suffix, put_suffix, put_suffix_end, suffix_place};

use crate::limits::{MOST_BITS, MOST_SUFFIXES};
use crate::refusal::Refusal;

// The largest value that the bits of a suffix have.
const MOST_VALUE: u64 = (MOST_SUFFIXES - 1) as u64;

// A suffix: its number of bits, and the bits as a number, the last bit lowest.
#[derive(Clone, Copy)]
pub struct Suffix {
    pub len: usize,
    pub value: usize,
}

// The length and the value are those of a suffix.
fn is_suffix(len: usize, value: usize) -> bool
    ensures { result ≡ is_suffix most_bits len value }
{
    if MOST_BITS < len {
        return false;
    }
    let all: usize = 1 << len;
    value < all
}

// The suffix of at most k bits that stands between two positions; k is from 1 to 12.
pub fn read_suffix(s: &[u8], from: usize, to: usize, k: usize) -> Option<Suffix>
    ensures { result ≡ suffix k (slice from to s.now) }
{
    if k < 1 {
        return None;
    }
    if MOST_BITS < k {
        return None;
    }
    let end = to.min(s.len());
    if end <= from {
        return None;
    }
    if s[from] != 42 {
        return None;
    }
    let len = end - from - 1;
    if k < len {
        return None;
    }
    let value = crate::digits::read_digits(s, from + 1, end, 2, MOST_VALUE)?;
    Some(Suffix {
        len,
        value: value as usize,
    })
}

// The text of a suffix of len bits, written into a lent buffer at a position (as C lends it; no heap).
pub fn write_suffix(out: &mut [u8], at: usize, len: usize, value: usize) -> Result<usize, Refusal>
    ensures answer { result ≡ put_suffix_end out.old at len value }
    ensures buffer { out.new ≡ put_suffix out.old at len value }
{
    if !is_suffix(len, value) {
        return Err(Refusal::BadField);
    }
    let room = out.len();
    if room <= at {
        return Err(Refusal::ShortLoan);
    }
    if room - at - 1 < len {
        return Err(Refusal::ShortLoan);
    }
    out[at] = 42;
    let bits = at + 1;
    crate::digits::write_digits(out, bits, len, 2, value as u64);
    let end = bits + len;
    Ok(end)
}

// The tree place of a suffix, read from that of twelve bits.
pub fn suffix_place(len: usize, value: usize) -> Option<u64>
    ensures { result ≡ suffix_place len value }
{
    if !is_suffix(len, value) {
        return None;
    }
    let place = crate::places::place_of_twelve(value) >> (MOST_BITS - len);
    Some(place as u64)
}
