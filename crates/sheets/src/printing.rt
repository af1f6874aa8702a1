// The writer of the rule sheet. Into lent buffers, not through Display: no heap, and each byte is proved.
ghost use Rattle.std.specs.Prelude.{◌≡◌, true, [], ◌∷◌, ◌++◌, ◌+◌, ◌*◌, ◌/◌, ◌^◌, ◌≤◌, ◌<◌, leb, length};
ghost use Rattle.std.proofs.Math.Seq.{slice};
ghost use Rattle.numerals.specs.Limits.{most_bits, most_services, most_capacity};
ghost use Rattle.numerals.specs.Decimal.{decimal};
ghost use Rattle.numerals.specs.Suffix.{suffix_text};
ghost use Rattle.sheets.specs.RuleSheet.{head_text, line_text, table_text, is_line, put_line, put_line_end};
ghost use Rattle.sheets.specs.Inner.TableNumbers.{line_at};
ghost use Rattle.sheets.specs.Inner.TableReader.{line_of};
ghost use Rattle.sheets.specs.Inner.HeldTable.{table_of};
ghost use Rattle.sheets.specs.Inner.Writing.{Wrote, Before, end_at, line_width, counted, CheckedAs, checked_cells, Checking, handed};
ghost use Rattle.sheets.specs.Calls as calls;

use crate::answer::{Refused, refused_at};
use crate::order::{Last, TALLY};
use crate::rule_lines::{HeldTable, RuleLine, TableLines};
use numerals::Refusal;

// One byte more than a text may have. Widths are counted up to it, so that no sum wraps.
const OVER_LONG: usize = numerals::TEXT_LIMIT + 1;

// The sum of two widths.
fn add_width(a: usize, b: usize) -> usize
    ensures { result ≡ counted (a + b) }
{
    a.saturating_add(b).min(OVER_LONG)
}

// How many bytes the text of a line has.
fn line_width(line: &RuleLine) -> usize
    ensures { result ≡ counted (line_width line.now.service line.now.len line.now.backend) }
{
    add_width(
        line.len,
        numerals::decimal_width(line.service as u64)
            + numerals::decimal_width(line.backend as u64)
            + 4,
    )
}

// How many bytes the text has that numbers make, whatever they are.
fn text_width(k: usize, total: u64, cells: &[usize]) -> usize
    ensures { result ≡ counted (length (calls.handed_text k total cells.now)) }
{
    let mut width = 9
        + numerals::decimal_width(k as u64)
        + numerals::decimal_width(cells.len().div_ceil(4) as u64)
        + numerals::decimal_width(total);
    let lines = cells.len() / 4;
    for i in 0..lines {
        width = add_width(width, line_width(&RuleLine::at(cells, i)));
    }
    if cells.len() % 4 == 0 {
        return width;
    }
    add_width(width, numerals::decimal_width(cells[4 * lines] as u64) + 1)
}

// A separator behind a text that was written; the position after it.
fn separate(out: &mut [u8], written: Result<usize, Refusal>, separator: u8) -> usize
    requires { Before written (length out.old) }
    ensures { Wrote out.old out.new (end_at written) result (separator ∷ []) }
{
    let end = written.unwrap();
    out[end] = separator;
    end + 1
}

// A number, and a separator behind it; the position after them.
fn put_number(out: &mut [u8], at: usize, n: u64, separator: u8) -> usize
    requires { at + length (decimal n) < length out.old }
    ensures { Wrote out.old out.new at result (decimal n ++ separator ∷ []) }
{
    let written = numerals::write_number(out, at, n);
    separate(out, written, separator)
}

// A suffix and a space behind it; the position after them.
fn put_suffix(out: &mut [u8], at: usize, len: usize, value: usize) -> usize
    requires { ((len ≤ most_bits) × (value < 2 ^ len)) × (at + (len + 1) < length out.old) }
    ensures { Wrote out.old out.new at result (suffix_text len value ++ 32 ∷ []) }
{
    let written = numerals::write_suffix(out, at, len, value);
    separate(out, written, 32)
}

// Line 1: TABLE k n total.
fn put_head(out: &mut [u8], k: usize, n: usize, total: u64) -> usize
    requires { length (head_text k n total) ≤ length out.old }
    ensures { Wrote out.old out.new 0 result (head_text k n total) }
{
    out[..6].copy_from_slice(b"TABLE ");
    let a = put_number(out, 6, k as u64, 32);
    let b = put_number(out, a, n as u64, 32);
    put_number(out, b, total, 10)
}

// A rule line: service suffix backend.
fn put_line(out: &mut [u8], at: usize, line: &RuleLine) -> usize
    requires { (is_line most_bits (line_of line.now) ≡ true)
        × (at + line_width line.now.service line.now.len line.now.backend ≤ length out.old) }
    ensures { Wrote out.old out.new at result (line_text (line_of line.now)) }
{
    let a = put_number(out, at, line.service as u64, 32);
    let b = put_suffix(out, a, line.len, line.value);
    put_number(out, b, line.backend as u64, 10)
}

// The text of a table, into a buffer that has room for it; how many bytes it has.
fn put_table(out: &mut [u8], table: &HeldTable) -> usize
    requires { length (table_text (table_of table.now)) ≤ length out.old }
    ensures { Wrote out.old out.new 0 result (table_text (table_of table.now)) }
{
    let n = table.lines.n;
    let mut at = put_head(out, table.k, n, table.total);
    for i in 0..n {
        at = put_line(out, at, &table.lines.line(i));
    }
    at
}

// Whether the text of a table fits into so many bytes. It never has more than a text may, so where there is room for
// that it isn't counted.
fn fits(table: &HeldTable, room: usize) -> bool
    ensures { result ≡ leb (length (table_text (table_of table.now))) room }
{
    if numerals::TEXT_LIMIT <= room {
        return true;
    }
    let lines = table.lines;
    text_width(table.k, table.total, &lines.cells[..4 * lines.n]) <= room
}

// The text of a table, into a lent buffer.
pub fn print(table: &HeldTable, out: &mut [u8]) -> Result<usize, Refused>
    ensures answer { result ≡ calls.print_text (table_text (table_of table.now)) (length out.old) }
    ensures buffer { out.new ≡ calls.afterwards (calls.is_value result) out.old
        (table_text (table_of table.now)) }
{
    if !fits(table, out.len()) {
        return Err(refused_at(Refusal::ShortLoan, 0));
    }
    Ok(put_table(out, table))
}

// A line of numbers has the form and the limits of a rule line.
fn is_line(k: usize, line: &RuleLine) -> bool
    requires { k ≤ most_bits }
    ensures { result ≡ is_line k (line_of line.now) }
{
    (1..=numerals::MOST_SERVICES).contains(&line.service)
        && line.len <= k
        && line.value < 1 << line.len
        && (1..=numerals::MOST_ID).contains(&line.backend)
}

// A table that is no text, whose k and number of whole lines keep their limits.
#[derive(Clone, Copy)]
struct HandedTable<'a> {
    k: usize,
    cells: &'a [usize],
    ghost few_bits: { k ≤ most_bits },
    ghost few: { length cells.now / 4 ≤ most_capacity },
}

// A line of it, behind those before it.
fn check_line(
    table: &HandedTable,
    line: &RuleLine,
    last: Last,
    tally: &mut [usize; TALLY],
) -> Result<Last, Refusal>
    requires { last.count ≤ most_capacity }
    ensures { Checking table.now.k last (line_of line.now) tally.old result tally.new }
{
    if !is_line(table.k, line) {
        return Err(Refusal::BadField);
    }
    crate::order::place_line(last, tally, line.service, line.len)
}

// Its lines, in their order; numbers left over are a last line of too few fields.
fn check_lines(table: &HandedTable) -> Result<(), Refusal>
    ensures { CheckedAs result (checked_cells table.now.k table.now.cells.now) (tt {0}) }
{
    let mut tally = [0usize; TALLY];
    let mut last = Last {
        count: 0,
        service: 0,
        len: 0,
    };
    for i in 0..table.cells.len() / 4 {
        last = check_line(table, &RuleLine::at(table.cells, i), last, &mut tally)?;
    }
    if table.cells.len() % 4 != 0 {
        return Err(Refusal::Malformed);
    }
    if last.len == 0 {
        Ok(())
    } else {
        Err(Refusal::Order)
    }
}

// A table that is no text, checked as its sheet would be.
fn check_table(k: usize, total: u64, table: &[usize]) -> Result<(), Refusal>
    ensures { CheckedAs result (calls.table_handed k total table.now) (handed k total table.now) }
{
    if numerals::TEXT_LIMIT < text_width(k, total, table) {
        return Err(Refusal::TooLong);
    }
    if !(1..=numerals::MOST_BITS).contains(&k) {
        return Err(Refusal::BadField);
    }
    // a last line of fewer than four numbers is one too
    let n = table.len().div_ceil(4);
    if !(1..=numerals::MOST_CAPACITY).contains(&n) {
        return Err(Refusal::BadField);
    }
    if numerals::TOTAL_LIMIT < total {
        return Err(Refusal::BadField);
    }
    check_lines(&HandedTable { k, cells: table })
}

// The rule sheet of a table: four numbers for each line, its service, the length and the value of its suffix, and the
// id of its backend.
pub fn write_table(k: usize, total: u64, table: &[usize], out: &mut [u8]) -> Result<usize, Refused>
    ensures answer { result ≡ calls.print_read (calls.table_handed k total table.now) table_text (length out.old) }
    ensures buffer { out.new ≡ calls.afterwards (calls.is_value result) out.old
        (calls.values_of (calls.table_handed k total table.now) table_text) }
{
    check_table(k, total, table)?;
    let table = HeldTable {
        k,
        total,
        lines: TableLines {
            cells: table,
            n: table.len() / 4,
        },
    };
    print(&table, out)
}

// The text of a rule line of at most 12 bits, written into a lent buffer at a position: 2 for a number out of its limits,
// then 7 where there is no room.
pub fn write_line(
    out: &mut [u8],
    at: usize,
    service: usize,
    len: usize,
    value: usize,
    backend: usize,
) -> Result<usize, Refusal>
    ensures answer { result ≡ put_line_end out.old at
        (record { service = service; rule = record { len = len; value = value; backend = backend } }) }
    ensures buffer { out.new ≡ put_line out.old at
        (record { service = service; rule = record { len = len; value = value; backend = backend } }) }
{
    let line = RuleLine {
        service,
        len,
        value,
        backend,
    };
    if !is_line(numerals::MOST_BITS, &line) {
        return Err(Refusal::BadField);
    }
    if out.len() < at {
        return Err(Refusal::ShortLoan);
    }
    if out.len() - at < line_width(&line) {
        return Err(Refusal::ShortLoan);
    }
    Ok(put_line(out, at, &line))
}
