// The answers to vectors of the one call, with the whole of both lent buffers afterwards.
use crate::shown;
use sheets::{Plan, Refused};
use vectors::header::Header;
use vectors::{print, walk};

fn made(rt: &impl Print, p: Plan) {
    print::bytes(rt, b"made");
    print::field(rt, p.k as u64);
    print::field(rt, p.services as u64);
    print::field(rt, p.rules as u64);
    print::field(rt, p.total);
}

fn show_refusal(rt: &impl Print, r: Refused) {
    let why = r.why;
    let buffer = r.of;
    match buffer {
        0 => shown::refused(rt, r),
        1 => shown::short(rt, why, b"figures"),
        2 => shown::short(rt, why, b"table"),
        _ => print::bytes(rt, b"wrong buffer"),
    }
}

fn plan_into(rt: &impl Print, text: &[u8], figures: &mut [usize], table: &mut [usize]) {
    match sheets::plan(text, figures, table) {
        Ok(p) => made(rt, p),
        Err(r) => show_refusal(rt, r),
    }
}

fn show_buffers(
    rt: &impl Print,
    figures: &[usize; 200],
    table: &[usize; 8200],
    n: usize,
    m: usize,
) {
    print::bytes(rt, b" figures");
    shown::places(rt, walk::start(figures, n));
    print::bytes(rt, b" table");
    shown::places(rt, walk::start(table, m));
}

// Lends buffers of so many places, filled with a number that no figure and no cell can be. Four places behind each are
// not lent, and shown too.
pub fn plan(rt: &impl Print, h: Header, text: &[u8]) {
    let mut figures = [77777usize; 200];
    let mut table = [77777usize; 8200];
    let n = h.first as usize;
    let m = h.second as usize;
    if 196 < n {
        return;
    }
    if 8196 < m {
        return;
    }
    plan_into(rt, text, &mut figures[0..n], &mut table[0..m]);
    show_buffers(rt, &figures, &table, n + 4, m + 4);
}
