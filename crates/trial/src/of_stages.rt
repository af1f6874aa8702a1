// The answers to vectors of a change in stages, with the whole lent buffer afterwards.
use crate::shown;
use sheets::Refused;
use vectors::header::Header;
use vectors::{print, walk};

// The largest buffers that are shown number by number, and byte by byte; a longer one is summed up.
const SHOWN: usize = 60;

const SHOWN_TEXT: usize = 300;

fn show_answer(rt: &impl Print, answer: Result<usize, Refused>) {
    match answer {
        Ok(n) => {
            print::bytes(rt, b"made");
            print::field(rt, n as u64);
        }
        Err(r) => {
            shown::refused(rt, r);
            print::field(rt, r.of as u64);
        }
    }
}

// The sum of the numbers from a place on, and the sum of those sums: each number times its place from 1.
#[derive(Drop)]
struct Sums {
    tail: u64,
    total: u64,
}

// The last number first.
fn sum<T, F: Fn(&T) -> u64>(row: &[T], number: F) -> u64
    requires { F.IsAlwaysCallable number }
{
    let mut sums = Sums { tail: 0, total: 0 };
    for x in row.iter().rev() {
        sums.tail = sums.tail.wrapping_add(number(x));
        sums.total = sums.total.wrapping_add(sums.tail);
    }
    sums.total
}

fn show_row(rt: &impl Print, row: &[usize; 4100], room: usize) {
    let lent = walk::start(row, room.wrapping_add(4));
    if room <= SHOWN {
        print::bytes(rt, b" row");
        shown::places(rt, lent);
    } else {
        print::bytes(rt, b" sum");
        print::field(rt, sum(lent, |place| *place as u64));
    }
}

fn show_text(rt: &impl Print, out: &[u8; 65540], room: usize) {
    let lent = walk::start(out, room.wrapping_add(4));
    if room <= SHOWN_TEXT {
        print::bytes(rt, b" ");
        shown::sheet(rt, lent);
    } else {
        print::bytes(rt, b" sum");
        print::field(rt, sum(lent, |byte| *byte as u64));
    }
}

// The limit and the capacity stand on the payload's first line, the number of the stage behind them; then come the sheets.
fn places_of(rt: &impl Print, h: Header, numbers: &[u8], text: &[u8], places: &mut [usize]) {
    let cut = h.second as usize;
    let second = walk::after(numbers, 0, 32);
    let limit = walk::number(numbers, 0) as usize;
    let capacity = walk::number(numbers, second) as usize;
    let old = walk::start(text, cut);
    let new = walk::rest(text, cut);
    show_answer(
        rt,
        stages::stage_places(old, new, h.first as usize, limit, capacity, places),
    );
}

fn lines_of(rt: &impl Print, h: Header, numbers: &[u8], text: &[u8], out: &mut [u8]) {
    let cut = h.second as usize;
    let second = walk::after(numbers, 0, 32);
    let third = walk::after(numbers, second, 32);
    let limit = walk::number(numbers, 0) as usize;
    let capacity = walk::number(numbers, second) as usize;
    let number = walk::number(numbers, third) as usize;
    let old = walk::start(text, cut);
    let new = walk::rest(text, cut);
    show_answer(
        rt,
        stages::stage_lines(old, new, h.first as usize, limit, capacity, number, out),
    );
}

// Lends a buffer of so many places, filled with a number that no place of a vector is. Four places behind it are not
// lent, and shown too.
fn lend_row(rt: &impl Print, h: Header, numbers: &[u8], text: &[u8]) {
    let mut places = [77777usize; 4100];
    let room = h.third as usize;
    if numerals::MOST_SUFFIXES < room {
        return;
    }
    places_of(rt, h, numbers, text, &mut places[0..room]);
    show_row(rt, &places, room);
}

// The same for bytes, filled with dots.
fn lend_text(rt: &impl Print, h: Header, numbers: &[u8], text: &[u8]) {
    let mut out = [46u8; 65540];
    let room = h.third as usize;
    if numerals::TEXT_LIMIT < room {
        return;
    }
    lines_of(rt, h, numbers, text, &mut out[0..room]);
    show_text(rt, &out, room);
}

pub fn answer(rt: &impl Print, h: Header, text: &[u8]) {
    let numbers = walk::part(text, 0, 10);
    let sheets = walk::rest(text, walk::after(text, 0, 10));
    match h.kind {
        b'P' => lend_row(rt, h, numbers, sheets),
        b'L' => lend_text(rt, h, numbers, sheets),
        _ => print::bytes(rt, b"unknown vector"),
    }
}
