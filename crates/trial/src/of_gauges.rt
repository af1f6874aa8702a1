// The answers to vectors of the gauges: one reading of a backend, and the record of both.
use crate::shown;
use gauges::{Gauge, Gauges, Reading};
use vectors::header::Header;
use vectors::print;

// The 64 bits of a double as a number, behind a space. Which bits a NaN has isn't known, and no gauge is one.
fn show_bits(rt: &impl Print, x: f64) {
    if x != x {
        print::bytes(rt, b" nan");
        return;
    }
    print::field(rt, f64::to_bits(x));
}

fn show_reading(rt: &impl Print, r: Reading) {
    match r {
        Reading::Share(x) => {
            print::bytes(rt, b"share");
            show_bits(rt, x);
        }
        Reading::Load(x) => {
            print::bytes(rt, b"load");
            show_bits(rt, x);
        }
        Reading::Absent => print::bytes(rt, b"absent"),
    }
}

fn read(rt: &impl Print, h: Header, text: &[u8], gauge: Gauge) {
    match gauges::gauge_reading(text, h.first as usize, h.second, h.third as usize, gauge) {
        Ok(r) => show_reading(rt, r),
        Err(r) => shown::refused(rt, r),
    }
}

// One gauge: 1 is the share, 2 the load.
fn reading(rt: &impl Print, h: Header, text: &[u8]) {
    match h.fourth {
        1 => read(rt, h, text, Gauge::Share),
        2 => read(rt, h, text, Gauge::Load),
        _ => print::bytes(rt, b"unknown vector"),
    }
}

fn show_gauges(rt: &impl Print, g: Gauges) {
    print::bytes(rt, b"gauges");
    show_bits(rt, g.share);
    show_bits(rt, g.load);
}

fn record(rt: &impl Print, h: Header, text: &[u8]) {
    match gauges::gauge_record(text, h.first as usize, h.second, h.third as usize) {
        Ok(g) => show_gauges(rt, g),
        Err(r) => shown::refused(rt, r),
    }
}

pub fn answer(rt: &impl Print, h: Header, text: &[u8]) {
    match h.kind {
        b'R' => reading(rt, h, text),
        b'G' => record(rt, h, text),
        _ => print::bytes(rt, b"unknown vector"),
    }
}
