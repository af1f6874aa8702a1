// The answers to vectors of tables that are handed in numbers, with the whole lent buffer afterwards.
use crate::shown;
use vectors::header::Header;
use vectors::{print, walk};

// The numbers in the n fields of a text.
pub fn read_cells(text: &[u8], n: usize, cells: &mut [usize; 8200]) {
    let mut from = 0;
    for cell in cells.iter_mut().take(n) {
        *cell = walk::number(text, from) as usize;
        from = walk::after(text, from, 32);
    }
}

fn write_into(rt: &impl Print, k: usize, total: u64, cells: &[usize], out: &mut [u8]) {
    match sheets::write_table(k, total, cells, out) {
        Ok(end) => {
            print::bytes(rt, b"end");
            print::field(rt, end as u64);
        }
        Err(r) => shown::refused(rt, r),
    }
}

fn show_buffer(rt: &impl Print, out: &[u8; 65540], n: usize) {
    print::bytes(rt, b" ");
    shown::sheet(rt, walk::start(out, n));
}

// Lends a buffer of so many bytes, filled with dots. Four bytes behind it are not lent, and shown too.
fn write_cells(rt: &impl Print, h: Header, cells: &[usize; 8200], n: usize) {
    let mut out = [46u8; 65540];
    let room = h.third as usize;
    if numerals::TEXT_LIMIT < room {
        return;
    }
    let numbers = walk::start(cells, n);
    write_into(rt, h.first as usize, h.second, numbers, &mut out[0..room]);
    show_buffer(rt, &out, room + 4);
}

pub fn write(rt: &impl Print, h: Header, text: &[u8]) {
    let mut cells = [0usize; 8200];
    let n = walk::fields(text);
    read_cells(text, n, &mut cells);
    write_cells(rt, h, &cells, n);
}
