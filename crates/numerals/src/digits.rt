// Digits of a base up to ten, read and written: the loops below numbers, percentages and suffixes.
ghost use Rattle.std.specs.Prelude.{◌≡◌, ◌+◌, ◌≤◌, length};
ghost use Rattle.std.proofs.Math.Seq.{slice};
ghost use Rattle.std.proofs.lemmas.List.Edits.{sets};
ghost use Rattle.numerals.specs.Digits.{lowest};
ghost use Rattle.numerals.specs.Inner.Digits.{read_digits};

// The digits between two positions as a number of at most `most`. The sum is tested before it is made, so that a
// numeral of any length has its answer and nothing wraps.
pub fn read_digits(s: &[u8], from: usize, to: usize, base: u64, most: u64) -> Option<u64>
    requires { (1 ≤ base) × ((base ≤ 10) × (to ≤ length s.now)) }
    ensures { result ≡ read_digits base most (slice from to s.now) }
{
    let mut v: u64 = 0;
    for i in from..to {
        let b = u64::from(s[i]);
        if b < 48 {
            return None;
        }
        let d = b - 48;
        if base <= d {
            return None;
        }
        if most < d {
            return None;
        }
        if (most - d) / base < v {
            return None;
        }
        v = v * base + d;
    }
    Some(v)
}

// The `len` lowest digits of n from position `at` on, written from the last to the first.
pub fn write_digits(out: &mut [u8], at: usize, len: usize, base: u64, n: u64)
    requires { (1 ≤ base) × ((base ≤ 10) × (at + len ≤ length out.old)) }
    ensures { out.new ≡ sets out.old at (lowest base len n) }
{
    let mut rest = n;
    for i in (at..at + len).rev() {
        out[i] = 48 + (rest % base % 10) as u8;
        rest /= base;
    }
}
