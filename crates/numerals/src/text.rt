// The lines and fields of a text: where a separator stands, and how many fields it makes.
ghost use Rattle.std.specs.Prelude.{◌≡◌, ◌+◌, length};
ghost use Rattle.std.proofs.Math.Seq.{slice};
ghost use Rattle.numerals.specs.Text.{index_of, split};

// Where the byte c first stands between two positions, or where the part ends. By a range and not by `position` of a
// slice, since `from` may lie behind the end; so below.
pub fn find(s: &[u8], from: usize, to: usize, c: u8) -> usize
    ensures { result ≡ from + index_of c (slice from to s.now) }
{
    let end = to.min(s.len());
    for i in from..end {
        if s[i] == c {
            return i;
        }
    }
    from.max(end)
}

// How many fields stand between two positions, the byte c separating them.
pub fn count_fields(s: &[u8], from: usize, to: usize, c: u8) -> usize
    ensures { result ≡ length (split c (slice from to s.now)) }
{
    let end = to.min(s.len());
    let mut n = 1;
    for i in from..end {
        if s[i] == c {
            n += 1;
        }
    }
    n
}
