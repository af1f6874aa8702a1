// Answers the vectors that the Rust twin wrote, one line for each.
#![tactic(auto)]

mod counts;
mod of_expansion;
mod of_gauges;
mod of_numerals;
mod of_packing;
mod of_sheets;
mod of_stages;
mod of_update;
mod plans;
mod shown;
mod writes;

use std::io::Read;
use vectors::{header, print, record, walk};

// The answer to one vector, as a line.
fn answer(rt: &impl Print, vector: &[u8]) {
    let h = header::read(vector);
    let text = header::payload(vector);
    match h.layer {
        b'n' => of_numerals::answer(rt, h, text),
        b'e' => of_expansion::answer(rt, h, text),
        b'p' => of_packing::answer(rt, h, text),
        b's' => of_sheets::answer(rt, h, text),
        b'g' => of_gauges::answer(rt, h, text),
        b'u' => of_update::answer(rt, h, text),
        b't' => of_stages::answer(rt, h, text),
        _ => print::bytes(rt, b"unknown layer"),
    }
    print::bytes(rt, b"\n");
}

// Reads a record into a buffer and answers it; false where none is left.
fn answer_next(rt: &impl Print, input: &mut impl Read, space: &mut [u8]) -> bool {
    let n = record::next(input, space);
    if n == 0 {
        return false;
    }
    answer(rt, walk::start(space, n));
    true
}

// A proved loop has to end, and nothing says that the input does: it counts to a number that no run reaches.
fn main(rt: HostRuntime) {
    let mut input = rt.stdin();
    let mut array = [0u8; 70000];
    let space: &mut [u8] = &mut array;
    for _ in 0..u64::MAX {
        if !answer_next(&rt, &mut input, space) {
            return;
        }
    }
}
