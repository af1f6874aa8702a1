// The reader of the rule sheet, into memory of the library's own: four numbers for each line.
ghost use Rattle.std.specs.Prelude.{◌≡◌, List, [], ◌∷◌, ◌*◌, ◌<◌, ◌≤◌};
ghost use Rattle.std.proofs.lemmas.List.Edits.{sets};
ghost use Rattle.numerals.specs.Limits.{most_capacity};
ghost use Rattle.numerals.specs.Text.{split};
ghost use Rattle.packing.specs.Count.{Line as RuleOf};
ghost use Rattle.packing.specs.Answer.{cells};
ghost use Rattle.sheets.specs.RuleSheet.{read_table};
ghost use Rattle.sheets.specs.Inner.Order.{last_of};
ghost use Rattle.sheets.specs.Inner.TableReader.{line_of, LineAs, Passed, Taking, sheet_answer, Filled, whole_of, table_from};

use crate::answer::{Refused, refused_at};
use crate::fields::{field_at, number_in};
use crate::first_line::Form;
use crate::order::{Last, TALLY};
use crate::rule_lines::RuleLine;
use numerals::{MOST_ID, MOST_SERVICES, Refusal};

// The places of a table in numbers.
pub const CELLS: usize = 4 * numerals::MOST_CAPACITY;

// What line 1 says.
#[derive(Drop)]
pub struct TableHead {
    pub k: usize,
    pub n: usize,
    pub total: u64,
}

// A rule line by its fields: service suffix backend.
fn read_line(line: &[u8], k: usize) -> Result<RuleLine, Refusal>
    ensures { LineAs result k (split 32 line.now) }
{
    if numerals::count_fields(line, 0, line.len(), 32) != 3 {
        return Err(Refusal::Malformed);
    }
    let service = number_in(line, 0, 1, MOST_SERVICES as u64).ok_or(Refusal::BadField)?;
    let field = field_at(line, 1);
    let suffix = numerals::read_suffix(field, 0, field.len(), k).ok_or(Refusal::BadField)?;
    let backend = number_in(line, 2, 1, MOST_ID as u64).ok_or(Refusal::BadField)?;
    Ok(RuleLine {
        service: service as usize,
        len: suffix.len,
        value: suffix.value,
        backend: backend as usize,
    })
}

// The numbers of line i.
fn store_line(table: &mut [usize; CELLS], i: usize, line: RuleLine)
    requires { i < most_capacity }
    ensures { table.new ≡ sets table.old (4 * i) (cells (line_of line ∷ [])) }
{
    let at = 4 * i;
    table[at] = line.service;
    table[at + 1] = line.len;
    table[at + 2] = line.value;
    table[at + 3] = line.backend;
}

// A line behind those so far: read, placed and stored.
fn take_line(
    line: &[u8],
    k: usize,
    last: Last,
    tally: &mut [usize],
    table: &mut [usize; CELLS],
) -> Result<Last, Refusal>
    requires { (before : List RuleOf) × Passed k before last tally.old table.old }
    ensures { Taking k last (split 32 line.now) tally.old table.old result tally.new table.new }
{
    let rule = read_line(line, k)?;
    let next = crate::order::place_line(last, tally, rule.service, rule.len)?;
    store_line(table, last.count, rule);
    Ok(next)
}

// After the lines: no service, then another number of lines than n, then a last line without `*`.
fn finish(head: TableHead, last: Last) -> Result<TableHead, Refused>
    requires { last.count ≤ most_capacity }
    ensures { (all : List RuleOf) → last ≡ last_of all → result ≡ sheet_answer (whole_of head all) }
{
    if last.count == 0 {
        return Err(refused_at(Refusal::NoService, 1));
    }
    if last.count != head.n {
        return Err(refused_at(Refusal::Miscount, 1));
    }
    if last.len != 0 {
        return Err(refused_at(Refusal::Order, last.count + 1));
    }
    Ok(head)
}

// The rule lines.
fn read_lines(
    lines: &[u8],
    head: TableHead,
    table: &mut [usize; CELLS],
) -> Result<TableHead, Refused>
    ensures answer { result ≡ sheet_answer (table_from head [] (split 10 lines.now)) }
    ensures buffer { Filled (table_from head [] (split 10 lines.now)) table.new }
{
    let mut tally = [0usize; TALLY];
    let mut last = Last {
        count: 0,
        service: 0,
        len: 0,
    };
    let mut rest = lines;
    // each turn goes on behind the newline that ended its line
    while !rest.is_empty() {
        let end = numerals::find(rest, 0, rest.len(), 10);
        if rest.len() <= end {
            return Err(refused_at(Refusal::Malformed, last.count + 2));
        }
        let line = &rest[..end];
        let placed = take_line(line, head.k, last, &mut tally, table);
        match placed {
            Err(why) => {
                return Err(refused_at(why, last.count + 2));
            }
            Ok(next) => {
                last = next;
            }
        }
        rest = &rest[end + 1..];
    }
    finish(head, last)
}

// A rule sheet.
pub fn read_sheet_lines(text: &[u8], table: &mut [usize; CELLS]) -> Result<TableHead, Refused>
    ensures answer { result ≡ sheet_answer (read_table text.now) }
    ensures buffer { Filled (read_table text.now) table.new }
{
    let line = crate::first_line::read_first_line(
        text,
        b"TABLE",
        Form::Limits {
            least: 1,
            most: numerals::MOST_CAPACITY as u64,
        },
        Form::Limits {
            least: 0,
            most: numerals::TOTAL_LIMIT,
        },
    )?;
    let head = TableHead {
        k: line.k,
        n: line.second as usize,
        total: line.third,
    };
    read_lines(line.behind, head, table)
}
