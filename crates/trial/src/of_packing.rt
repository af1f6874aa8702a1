// The answers to vectors of the packing.
use crate::{shown, writes};
use numerals::Refusal;
use packing::{NotPacked, Packed};
use vectors::header::Header;
use vectors::{print, walk};

// The grants of the first n services, each the first of three figures.
fn show_grants(rt: &impl Print, n: usize, figures: &[usize]) {
    for grant in figures.iter().step_by(3).take(n) {
        print::field(rt, *grant as u64);
    }
}

// The first n lines of the table, `service suffix backend`, each behind a comma but the first.
fn show_lines(rt: &impl Print, n: usize, table: &[usize]) {
    let (lines, _) = table.as_chunks::<4>();
    for (i, line) in lines.iter().take(n).enumerate() {
        if 0 < i {
            print::bytes(rt, b",");
        }
        print::number(rt, line[0] as u64);
        print::bytes(rt, b" ");
        print::suffix(rt, line[1], line[2]);
        print::bytes(rt, b" ");
        print::number(rt, line[3] as u64);
    }
}

fn show(
    rt: &impl Print,
    packed: Packed,
    n: usize,
    figures: &[usize; 240],
    table: &[usize; crate::shown::CELLS],
) {
    print::bytes(rt, b"total");
    print::field(rt, packed.total);
    print::bytes(rt, b" grants");
    show_grants(rt, n, figures);
    print::bytes(rt, b" lines ");
    show_lines(rt, packed.rules, table);
}

fn show_refusal(rt: &impl Print, why: Refusal, buffer: usize) {
    match buffer {
        0 => print::refused(rt, why),
        1 => shown::short(rt, why, b"figures"),
        2 => shown::short(rt, why, b"table"),
        _ => print::bytes(rt, b"wrong buffer"),
    }
}

// Packs rows that need not fit together.
fn pack_services(
    rt: &impl Print,
    h: Header,
    volumes: &[u64],
    sizes: &[usize],
    ids: &[usize],
    weights: &[u64],
) {
    let mut figures = [0usize; 240];
    let mut table = [0usize; crate::shown::CELLS];
    let packed = packing::pack(
        h.first as usize,
        h.second,
        h.third as usize,
        volumes,
        sizes,
        ids,
        weights,
        &mut figures,
        &mut table,
    );
    match packed {
        Ok(made) => show(rt, made, volumes.len(), &figures, &table),
        Err(NotPacked { why, buffer }) => show_refusal(rt, why, buffer),
    }
}

fn read_sizes(line: &[u8], sizes: &mut [usize; 80]) -> usize {
    let mut row = [0u64; 80];
    let n = walk::numbers(line, &mut row);
    for (size, number) in sizes.iter_mut().zip(&row) {
        *size = *number as usize;
    }
    n
}

// Four rows that need not fit together, a line each: the volumes, the sizes, the ids and the weights.
fn pack_rows(rt: &impl Print, h: Header, text: &[u8]) {
    let mut volumes = [0u64; 80];
    let mut sizes = [0usize; 80];
    let second = walk::after(text, 0, 10);
    let third = walk::after(text, second, 10);
    let n = walk::numbers(walk::part(text, 0, 10), &mut volumes);
    let m = read_sizes(walk::part(text, second, 10), &mut sizes);
    pack_backends(
        rt,
        h,
        walk::start(&volumes, n),
        walk::start(&sizes, m),
        walk::rest(text, third),
    );
}

// The last two of the rows.
fn pack_backends(rt: &impl Print, h: Header, volumes: &[u64], sizes: &[usize], text: &[u8]) {
    let mut ids = [0usize; 8200];
    let mut weights = [0u64; 4096];
    let first = walk::part(text, 0, 10);
    let second = walk::part(text, walk::after(text, 0, 10), 10);
    let n = walk::fields(first);
    writes::read_cells(first, n, &mut ids);
    let m = walk::numbers(second, &mut weights);
    pack_services(
        rt,
        h,
        volumes,
        sizes,
        walk::start(&ids, n),
        walk::start(&weights, m),
    );
}

pub fn answer(rt: &impl Print, h: Header, text: &[u8]) {
    match h.kind {
        b'Q' => pack_rows(rt, h, text),
        _ => print::bytes(rt, b"unknown vector"),
    }
}
