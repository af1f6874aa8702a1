// Parts of the answers: refusals, a text on one line, and the numbers of a lent buffer.
use numerals::Refusal;
use sheets::Refused;
use vectors::{print, walk};

// The numbers of the largest table, four for each line.
pub const CELLS: usize = 4 * numerals::MOST_CAPACITY;

// The refusal of a sheet: its number and its line.
pub fn refused(rt: &impl Print, r: Refused) {
    print::bytes(rt, b"REFUSED");
    print::field(rt, u64::from(r.why));
    print::field(rt, r.line as u64);
}

// A refusal that names a lent buffer, as only 7 does.
pub fn short(rt: &impl Print, why: Refusal, buffer: &[u8]) {
    if why == Refusal::ShortLoan {
        print::bytes(rt, b"short ");
        print::bytes(rt, buffer);
    } else {
        print::bytes(rt, b"wrong refusal");
    }
}

// Prints the line that starts at a position, its LF as a `/`, and says where the next one starts.
fn line(rt: &impl Print, text: &[u8], from: usize) -> usize {
    print::bytes(rt, walk::part(text, from, 10));
    print::bytes(rt, b"/");
    walk::after(text, from, 10)
}

pub fn sheet(rt: &impl Print, text: &[u8]) {
    let n = walk::lines(text);
    let mut from = 0;
    for _ in 0..n {
        from = line(rt, text, from);
    }
    print::bytes(rt, walk::rest(text, from));
}

// Each place of a row, behind a space.
pub fn places(rt: &impl Print, row: &[usize]) {
    for place in row {
        print::field(rt, *place as u64);
    }
}
