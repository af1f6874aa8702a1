// The answers to vectors of numbers, percentages, suffixes, places, lines and fields.
use numerals::{Refusal, Suffix};
use vectors::header::Header;
use vectors::{print, walk};

fn value(rt: &impl Print, read: Option<u64>) {
    match read {
        Some(v) => {
            print::bytes(rt, b"value");
            print::field(rt, v);
        }
        None => print::bytes(rt, b"bad"),
    }
}

// Why a writer wrote nothing.
fn refused(rt: &impl Print, why: Refusal) {
    match why {
        Refusal::BadField => print::bytes(rt, b"bad"),
        Refusal::ShortLoan => print::bytes(rt, b"short"),
        _ => print::refused(rt, why),
    }
}

// What a writer answered, and the buffer afterwards.
fn written(rt: &impl Print, answer: Result<usize, Refusal>, buffer: &[u8]) {
    match answer {
        Ok(end) => {
            print::bytes(rt, b"end");
            print::field(rt, end as u64);
        }
        Err(why) => refused(rt, why),
    }
    print::bytes(rt, b" ");
    print::bytes(rt, buffer);
}

fn write_number(rt: &impl Print, h: Header) {
    let mut space = [b'.'; 40];
    let len = h.third as usize;
    if len <= 40 {
        let out = &mut space[0..len];
        let answer = numerals::write_number(out, h.second as usize, h.first);
        written(rt, answer, out);
    }
}

fn write_suffix(rt: &impl Print, h: Header) {
    let mut space = [b'.'; 40];
    let len = h.fourth as usize;
    if len <= 40 {
        let out = &mut space[0..len];
        let answer = numerals::write_suffix(
            out,
            h.third as usize,
            h.first as usize,
            h.second as usize,
        );
        written(rt, answer, out);
    }
}

fn read_suffix(rt: &impl Print, text: &[u8], k: usize) {
    match numerals::read_suffix(text, 0, text.len(), k) {
        Some(Suffix { len, value }) => {
            print::bytes(rt, b"suffix");
            print::field(rt, len as u64);
            print::field(rt, value as u64);
            if let Some(place) = numerals::suffix_place(len, value) {
                print::field(rt, place);
            }
        }
        None => print::bytes(rt, b"bad"),
    }
}

fn place(rt: &impl Print, h: Header) {
    match numerals::suffix_place(h.first as usize, h.second as usize) {
        Some(place) => {
            print::bytes(rt, b"place");
            print::field(rt, place);
        }
        None => print::bytes(rt, b"bad"),
    }
}

fn next_line_feed(rt: &impl Print, payload: &[u8], from: usize) {
    let at = numerals::find(payload, from, payload.len(), 10);
    if at < payload.len() {
        print::bytes(rt, b"at");
        print::field(rt, at as u64);
    } else {
        print::bytes(rt, b"none");
    }
}

// Where each field starts and ends.
fn show_fields(rt: &impl Print, line: &[u8], count: usize) {
    let mut from = 0;
    for _ in 0..count {
        print::field(rt, from as u64);
        print::bytes(rt, b"-");
        print::number(rt, numerals::find(line, from, line.len(), 32) as u64);
        from = walk::after(line, from, 32);
    }
}

fn fields(rt: &impl Print, line: &[u8]) {
    let count = numerals::count_fields(line, 0, line.len(), 32);
    print::bytes(rt, b"fields");
    print::field(rt, count as u64);
    show_fields(rt, line, count);
}

pub fn answer(rt: &impl Print, h: Header, text: &[u8]) {
    match h.kind {
        b'N' => value(
            rt,
            numerals::read_number(text, 0, text.len(), h.first, h.second),
        ),
        b'P' => value(rt, numerals::read_percentage(text, 0, text.len())),
        b'W' => write_number(rt, h),
        b'S' => read_suffix(rt, text, h.first as usize),
        b'T' => write_suffix(rt, h),
        b'X' => place(rt, h),
        b'L' => next_line_feed(rt, text, h.first as usize),
        b'F' => fields(rt, text),
        _ => print::bytes(rt, b"unknown vector"),
    }
}
