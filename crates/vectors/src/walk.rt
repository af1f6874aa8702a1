// Walks over the fields and lines of a text.
ghost use Rattle.std.specs.Prelude.{◌≡◌, min, length, get_or, take, drop};
ghost use Rattle.std.proofs.Math.Seq.{paste};
ghost use Rattle.vectors.specs.Parts.{behind, part, fields, lines};
ghost use Rattle.vectors.specs.Numbers.{numeral, numbers};

// The position behind the first c from a position on, or the end of the text.
pub fn after(s: &[u8], from: usize, c: u8) -> usize
    ensures { result ≡ behind c from s.now }
{
    let at = numerals::find(s, from, s.len(), c);
    if at < s.len() { at + 1 } else { s.len() }
}

// What stands from a position on.
pub fn rest(s: &[u8], from: usize) -> &[u8]
    ensures { result.now ≡ drop from s.now }
{
    &s[from.min(s.len())..]
}

// What stands before a position.
pub fn start<T>(s: &[T], to: usize) -> &[T]
    ensures { result.now ≡ take to s.now }
{
    &s[..to.min(s.len())]
}

// What stands from a position to the next c, or to the end.
pub fn part(s: &[u8], from: usize, c: u8) -> &[u8]
    ensures { result.now ≡ part c from s.now }
{
    let tail = rest(s, from);
    start(tail, numerals::find(tail, 0, tail.len(), c))
}

// The number in the field that starts at a position, or 0.
pub fn number(s: &[u8], from: usize) -> u64
    ensures { result ≡ numeral (part 32 from s.now) }
{
    let field = part(s, from, 32);
    numerals::read_number(field, 0, field.len(), 0, u64::MAX).unwrap_or(0)
}

// The first byte of the field that starts at a position, or 0.
pub fn letter(s: &[u8], from: usize) -> u8
    ensures { result ≡ get_or (part 32 from s.now) 0 0 }
{
    let field = part(s, from, 32);
    field.first().copied().unwrap_or(0)
}

// How many fields a text has. An empty one has none.
pub fn fields(s: &[u8]) -> usize
    ensures { result ≡ length (fields s.now) }
{
    if s.is_empty() {
        0
    } else {
        numerals::count_fields(s, 0, s.len(), 32)
    }
}

// The numbers in the fields of a text, as many as a buffer has room for; how many those are. The loop has an index since the buffer is longer than what it
// writes: over `out[..n]` the proof has to put the part back.
pub fn numbers(s: &[u8], out: &mut [u64]) -> usize
    ensures answer { result ≡ min (length (numbers s.now)) (length out.old) }
    ensures buffer { out.new ≡ paste out.old 0 (numbers s.now) result }
{
    let n = fields(s).min(out.len());
    let mut from = 0;
    for i in 0..n {
        out[i] = number(s, from);
        from = after(s, from, 32);
    }
    n
}

// How many lines a text has, each ended by LF.
pub fn lines(s: &[u8]) -> usize
    ensures { result ≡ lines s.now }
{
    numerals::count_fields(s, 0, s.len(), 10) - 1
}
