// The parts of an answer, written one after the other. Into lent buffers, not through Display: no heap, and each byte is proved.
ghost use Rattle.std.specs.Prelude.{[], ◌∷◌, ◌++◌, ◌+◌, ◌≤◌, length};
ghost use Rattle.numerals.specs.Decimal.{decimal};
ghost use Rattle.sheets.specs.Inner.Writing.{Wrote};
ghost use Rattle.commands.specs.Refused.{number_text, refusal, refused_text, refused_of_text};

use sheets::Refused;

// A text at a position; the position after it.
pub fn put_bytes(out: &mut [u8], at: usize, text: &[u8]) -> usize
    requires { at + length text.now ≤ length out.old }
    ensures { Wrote out.old out.new at result text.now }
{
    let end = at + text.len();
    out[at..end].copy_from_slice(text);
    end
}

// A number, and a separator behind it; the position after them. No number has more than 20 digits, so it fits. The writer of sheets asks
// for the text's own room and isn't handed out: no call that is may have a `requires`.
pub fn put_number(out: &mut [u8], at: usize, n: u64, separator: u8) -> usize
    requires { at + 21 ≤ length out.old }
    ensures text { Wrote out.old out.new at result (decimal n ++ separator ∷ []) }
    ensures end { result ≤ at + 21 }
{
    let end = numerals::write_number(out, at, n).unwrap();
    out[end] = separator;
    end + 1
}

// A number as the whole answer.
pub fn put_answer(out: &mut [u8], n: usize) -> usize
    requires { 21 ≤ length out.old }
    ensures { Wrote out.old out.new 0 result (number_text n) }
{
    put_number(out, 0, n as u64, 10)
}

// Two numbers, a space between them and a separator behind them; the position after them.
pub fn put_pair(out: &mut [u8], at: usize, first: u64, second: u64, separator: u8) -> usize
    requires { at + 42 ≤ length out.old }
    ensures text { Wrote out.old out.new at result ((decimal first ++ 32 ∷ []) ++ (decimal second ++ separator ∷ [])) }
    ensures end { result ≤ at + 42 }
{
    let next = put_number(out, at, first, 32);
    put_number(out, next, second, separator)
}

// REFUSED number line, and a separator behind it; the position after them. The room is a clause, not a type: buffers of two sizes come here.
fn put_refusal(out: &mut [u8], r: Refused, separator: u8) -> usize
    requires { 50 ≤ length out.old }
    ensures text { Wrote out.old out.new 0 result (refusal r ++ separator ∷ []) }
    ensures end { result ≤ 50 }
{
    let at = put_bytes(out, 0, b"REFUSED ");
    put_pair(out, at, u64::from(r.why), r.line as u64, separator)
}

// A refusal as the whole answer.
pub fn put_refused(out: &mut [u8], r: Refused) -> usize
    requires { 50 ≤ length out.old }
    ensures { Wrote out.old out.new 0 result (refused_text r) }
{
    put_refusal(out, r, 10)
}

// A refusal where two sheets are read, and the sheet that it is about.
pub fn put_refused_of(out: &mut [u8], r: Refused) -> usize
    requires { 71 ≤ length out.old }
    ensures { Wrote out.old out.new 0 result (refused_of_text r) }
{
    let at = put_refusal(out, r, 32);
    put_number(out, at, r.of as u64, 10)
}
