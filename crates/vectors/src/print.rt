// Parts of an answer, on standard output. A piece that can't be written is left out, and the answers are then not those awaited.
use crate::walk;
use numerals::Refusal;

pub fn bytes(rt: &impl Print, s: &[u8]) {
    let _ = rt.write_all(s);
}

pub fn number(rt: &impl Print, n: u64) {
    let _ = rt.print(n);
}

// A number behind a space.
pub fn field(rt: &impl Print, n: u64) {
    bytes(rt, b" ");
    number(rt, n);
}

// Each number of a row, behind a space.
pub fn fields(rt: &impl Print, row: &[u64]) {
    for n in row {
        field(rt, *n);
    }
}

// The text of a suffix.
pub fn suffix(rt: &impl Print, len: usize, value: usize) {
    let mut array = [0u8; 13];
    let text: &mut [u8] = &mut array;
    match numerals::write_suffix(text, 0, len, value) {
        Ok(end) => bytes(rt, walk::start(text, end)),
        Err(why) => refused(rt, why),
    }
}

// The answer to numbers that are refused.
pub fn refused(rt: &impl Print, why: Refusal) {
    bytes(rt, b"refused");
    field(rt, u64::from(why));
}
