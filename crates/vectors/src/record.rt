// The input of the test program: a run of records, each of eight decimal digits, the length of its body, and the body: a
// header line of fields, and a payload.
ghost use Rattle.std.specs.Prelude.{◌≤◌, length};

use std::io::Read;

// The number that eight digits are. They are read behind a 1, since no number has leading zeros.
fn body_length(head: &[u8; 8]) -> Option<u64> {
    let digits = [
        b'1', head[0], head[1], head[2], head[3], head[4], head[5], head[6], head[7],
    ];
    let v = numerals::read_number(&digits, 0, 9, 0, u64::MAX)?;
    Some(v % 100000000)
}

// Fills a buffer, and says how many bytes it has, or 0 where the input ends before.
fn fill(input: &mut impl Read, body: &mut [u8]) -> usize
    ensures { result ≤ length body.old }
{
    match input.read_exact(body) {
        Ok(()) => body.len(),
        Err(_) => 0,
    }
}

// Reads the body of the next record to the start of a buffer and says how many bytes it has; 0 where no whole record
// that fits is left.
pub fn next(input: &mut impl Read, space: &mut [u8]) -> usize
    ensures { result ≤ length space.old }
{
    let mut head = [0u8; 8];
    if input.read_exact(&mut head).is_err() {
        return 0;
    }
    let Some(length) = body_length(&head) else {
        return 0;
    };
    let len = length as usize;
    if space.len() < len {
        return 0;
    }
    fill(input, &mut space[0..len])
}
