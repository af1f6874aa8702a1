// The answers to vectors of the sheets: the call that prints, the table of a rule sheet, lookup, churn and shares.
use crate::{counts, plans, shown, writes};
use sheets::TableRecord;
use vectors::header::Header;
use vectors::{print, walk};

fn split_into(rt: &impl Print, text: &[u8], out: &mut [u8]) {
    match sheets::split_sheet(text, out) {
        Ok(n) => shown::sheet(rt, walk::start(out, n)),
        Err(r) => shown::refused(rt, r),
    }
}

// The rule sheet of a percentage sheet, into a buffer of so many bytes.
fn split(rt: &impl Print, text: &[u8], room: usize) {
    let mut array = [0u8; numerals::TEXT_LIMIT];
    if room <= numerals::TEXT_LIMIT {
        split_into(rt, text, &mut array[0..room]);
    }
}

fn written(rt: &impl Print, back: bool) {
    if back {
        print::bytes(rt, b"ok");
    } else {
        print::bytes(rt, b"not written back");
    }
}

// Whether the table that was read from a text is written to the same bytes again.
fn write_back(
    rt: &impl Print,
    text: &[u8],
    read: TableRecord,
    table: &[usize; crate::shown::CELLS],
) {
    let mut array = [0u8; numerals::TEXT_LIMIT];
    let space: &mut [u8] = &mut array;
    let n = read.rules;
    if numerals::MOST_CAPACITY < n {
        written(rt, false);
        return;
    }
    let cells = walk::start(table, 4 * n);
    match sheets::write_table(read.k, read.total, cells, space) {
        Ok(end) => written(rt, walk::start(space, end) == text),
        Err(_) => written(rt, false),
    }
}

fn read(rt: &impl Print, text: &[u8]) {
    let mut table = [0usize; crate::shown::CELLS];
    match sheets::read_table(text, &mut table) {
        Ok(made) => write_back(rt, text, made, &table),
        Err(r) => shown::refused(rt, r),
    }
}

fn lookup(rt: &impl Print, h: Header, text: &[u8]) {
    let address = h.second;
    if (u32::MAX as u64) < address {
        return;
    }
    match sheets::lookup(text, h.first as usize, address as u32) {
        Ok(b) => {
            print::bytes(rt, b"backend");
            print::field(rt, b as u64);
        }
        Err(r) => shown::refused(rt, r),
    }
}

fn churn(rt: &impl Print, h: Header, text: &[u8]) {
    let cut = h.second as usize;
    match sheets::churn(
        walk::start(text, cut),
        walk::rest(text, cut),
        h.first as usize,
    ) {
        Ok(n) => {
            print::bytes(rt, b"churn");
            print::field(rt, n as u64);
        }
        Err(r) => {
            shown::refused(rt, r);
            print::field(rt, r.of as u64);
        }
    }
}

pub fn answer(rt: &impl Print, h: Header, text: &[u8]) {
    match h.kind {
        b'R' => split(rt, text, numerals::TEXT_LIMIT),
        b'B' => split(rt, text, h.first as usize),
        b'U' => read(rt, text),
        b'L' => lookup(rt, h, text),
        b'H' => churn(rt, h, text),
        b'P' => plans::plan(rt, h, text),
        b'W' => writes::write(rt, h, text),
        b'C' => counts::count(rt, h, text),
        _ => print::bytes(rt, b"unknown vector"),
    }
}
