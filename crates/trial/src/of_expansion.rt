// The answers to vectors of the expansion.
use crate::writes;
use expansion::{Ended, Record};
use vectors::header::Header;
use vectors::{print, walk};

fn ending(rt: &impl Print, list: &Record) {
    match list.ended {
        Ended::Within => print::bytes(rt, b"within"),
        Ended::NoGain => print::bytes(rt, b"nogain"),
        Ended::Budget => print::bytes(rt, b"budget"),
    }
    print::field(rt, list.rules as u64);
}

// The first n rules, each with the stair after it.
fn show_rules(
    rt: &impl Print,
    n: usize,
    lens: &[usize],
    values: &[usize],
    backends: &[usize],
    stairs: &[u64],
) {
    let suffixes = lens.iter().zip(values);
    for ((suffix, backend), stair) in suffixes.zip(backends).zip(stairs).take(n) {
        print::bytes(rt, b" ");
        print::suffix(rt, *suffix.0, *suffix.1);
        print::bytes(rt, b">");
        print::number(rt, *backend as u64);
        print::bytes(rt, b":");
        print::number(rt, *stair);
    }
}

// Two rows, a line each: the ids and the weights.
fn expand(rt: &impl Print, h: Header, text: &[u8]) {
    let mut ids = [0usize; 8200];
    let mut weights = [0u64; 64];
    let first = walk::part(text, 0, 10);
    let second = walk::part(text, walk::after(text, 0, 10), 10);
    let n = walk::fields(first);
    writes::read_cells(first, n, &mut ids);
    let m = walk::numbers(second, &mut weights);
    let mut lens = [0usize; numerals::MOST_RULES];
    let mut values = [0usize; numerals::MOST_RULES];
    let mut backends = [0usize; numerals::MOST_RULES];
    let mut stairs = [0u64; numerals::MOST_RULES];
    let made = expansion::expand(
        h.first as usize,
        h.second,
        h.third as usize,
        walk::start(&ids, n),
        walk::start(&weights, m),
        0,
        &mut lens,
        &mut values,
        &mut backends,
        &mut stairs,
    );
    match made {
        Ok(list) => {
            ending(rt, &list);
            show_rules(rt, list.rules, &lens, &values, &backends, &stairs);
        }
        Err(why) => print::refused(rt, why),
    }
}

pub fn answer(rt: &impl Print, h: Header, text: &[u8]) {
    match h.kind {
        b'E' => expand(rt, h, text),
        _ => print::bytes(rt, b"unknown vector"),
    }
}
