// The answers to vectors of new weights on a loaded table, with the whole lent buffer afterwards.
use crate::{shown, writes};
use update::Update;
use vectors::header::Header;
use vectors::{print, walk};

// How many rules were kept, how many the new list has, and the churn.
fn show_update(rt: &impl Print, u: Update) {
    print::field(rt, u.kept as u64);
    print::field(rt, u.rules as u64);
    print::field(rt, u.churn as u64);
}

fn show_buffer(rt: &impl Print, rules: &[usize; 104], n: usize) {
    print::bytes(rt, b" rules");
    shown::places(rt, walk::start(rules, n));
}

fn update_list(
    rt: &impl Print,
    h: Header,
    old: &[usize],
    ids: &[usize],
    weights: &[u64],
    rules: &mut [usize],
) {
    match update::update(h.first as usize, h.second, old, ids, weights, rules) {
        Ok(u) => {
            print::bytes(rt, b"made");
            show_update(rt, u);
        }
        Err(why) => print::refused(rt, why),
    }
}

// Lends a buffer of so many places, filled with a number that nothing in the list of a vector is. Four places behind it
// are not lent, and shown too.
fn lend_list(rt: &impl Print, h: Header, old: &[usize], ids: &[usize], weights: &[u64]) {
    let mut rules = [77777usize; 104];
    let room = h.third as usize;
    if 100 < room {
        return;
    }
    update_list(rt, h, old, ids, weights, &mut rules[0..room]);
    show_buffer(rt, &rules, room + 4);
}

// Three rows, a line each: the old list, three numbers for each rule, the ids and the weights.
fn update_rows(rt: &impl Print, h: Header, text: &[u8]) {
    let mut cells = [0usize; 8200];
    let first = walk::part(text, 0, 10);
    let n = walk::fields(first);
    writes::read_cells(first, n, &mut cells);
    let text = walk::rest(text, walk::after(text, 0, 10));
    update_backends(rt, h, walk::start(&cells, n), text);
}

// The last two of the rows.
fn update_backends(rt: &impl Print, h: Header, old: &[usize], text: &[u8]) {
    let mut ids = [0usize; 8200];
    let mut weights = [0u64; 64];
    let first = walk::part(text, 0, 10);
    let second = walk::part(text, walk::after(text, 0, 10), 10);
    let n = walk::fields(first);
    writes::read_cells(first, n, &mut ids);
    let m = walk::numbers(second, &mut weights);
    lend_list(rt, h, old, walk::start(&ids, n), walk::start(&weights, m));
}

fn update_sheets(rt: &impl Print, h: Header, text: &[u8], rules: &mut [usize]) {
    let cut = h.second as usize;
    let old = walk::start(text, cut);
    let sheet = walk::rest(text, cut);
    match update::update_sheets(old, sheet, h.first as usize, rules) {
        Ok(u) => {
            print::bytes(rt, b"made");
            print::field(rt, u.k as u64);
            show_update(rt, u);
        }
        Err(r) => {
            shown::refused(rt, r);
            print::field(rt, r.of as u64);
        }
    }
}

// Lends a buffer in the same way.
fn update_texts(rt: &impl Print, h: Header, text: &[u8]) {
    let mut rules = [77777usize; 104];
    let room = h.third as usize;
    if 100 < room {
        return;
    }
    update_sheets(rt, h, text, &mut rules[0..room]);
    show_buffer(rt, &rules, room + 4);
}

pub fn answer(rt: &impl Print, h: Header, text: &[u8]) {
    match h.kind {
        b'L' => update_rows(rt, h, text),
        b'T' => update_texts(rt, h, text),
        _ => print::bytes(rt, b"unknown vector"),
    }
}
