// Calls on rule sheets: their table, lookup and churn.
ghost use Rattle.std.specs.Prelude.{◌≡◌, length};
ghost use Rattle.packing.specs.Answer.{cells};
ghost use Rattle.sheets.specs.RuleSheet.{read_table};
ghost use Rattle.sheets.specs.Calls as calls;
ghost use Rattle.sheets.specs.Inner.HeldTable.{lines_of, table_of};

use crate::answer::{Refused, TableRecord, refused_at};
use crate::rule_lines::{HeldTable, TableLines};
use crate::rule_sheet::CELLS;
use numerals::Refusal;

// The table of a rule sheet, four numbers for each line, into a lent buffer.
pub fn read_table(text: &[u8], table: &mut [usize]) -> Result<TableRecord, Refused>
    ensures answer { result ≡ calls.read_answer text.now (length table.old) }
    ensures buffer { table.new ≡ calls.afterwards (calls.is_table result) table.old
        (calls.values_of (read_table text.now) (λ t. cells t.lines)) }
{
    // what stands there first means nothing; ones are stored by the word, zeros by the byte
    let mut lines = [1usize; CELLS];
    let head = crate::rule_sheet::read_sheet_lines(text, &mut lines)?;
    let n = head.n;
    if table.len() < 4 * n {
        return Err(refused_at(Refusal::ShortLoan, 0));
    }
    table[..4 * n].copy_from_slice(&lines[..4 * n]);
    Ok(TableRecord {
        k: head.k,
        rules: n,
        total: head.total,
    })
}

// The id of the backend that the rule sheet gives a service's address to.
pub fn lookup(text: &[u8], service: usize, address: u32) -> Result<usize, Refused>
    ensures { result ≡ calls.lookup_answer text.now service address }
{
    let mut cells = [0usize; CELLS];
    let head = crate::rule_sheet::read_sheet_lines(text, &mut cells)?;
    let lines = TableLines {
        cells: &cells,
        n: head.n,
    };
    let b = lines.first_backend(service, address as usize);
    if b == 0 {
        return Err(refused_at(Refusal::UnknownService, 0));
    }
    Ok(b)
}

// How many of the suffixes below `all` the two tables give to backends of unlike ids.
fn count_moved(old: &TableLines, new: &TableLines, service: usize, all: usize) -> usize
    ensures { result ≡ calls.moved all (lines_of old.now) (lines_of new.now) service }
{
    let mut moved = 0;
    for s in 0..all {
        if old.first_backend(service, s) != new.first_backend(service, s) {
            moved += 1;
        }
    }
    moved
}

// What churn finds between two tables that were read.
fn compare(old: &HeldTable, new: &HeldTable, service: usize) -> Result<usize, Refused>
    ensures { result ≡ calls.churn_of (table_of old.now) (table_of new.now) service }
{
    if old.lines.first_backend(service, 0) == 0 {
        return Err(Refused {
            why: Refusal::UnknownService,
            line: 0,
            of: 1,
        });
    }
    if new.lines.first_backend(service, 0) == 0 {
        return Err(Refused {
            why: Refusal::UnknownService,
            line: 0,
            of: 2,
        });
    }
    if old.k != new.k {
        return Err(refused_at(Refusal::Depth, 0));
    }
    let all: usize = 1 << old.k;
    Ok(count_moved(&old.lines, &new.lines, service, all))
}

// How many suffixes of a service have another backend in the new rule sheet than in the old.
pub fn churn(old: &[u8], new: &[u8], service: usize) -> Result<usize, Refused>
    ensures { result ≡ calls.churn_answer old.now new.now service }
{
    let mut first = [0usize; CELLS];
    let a = crate::rule_sheet::read_sheet_lines(old, &mut first).map_err(|r| r.about(1))?;
    let mut second = [0usize; CELLS];
    let b = crate::rule_sheet::read_sheet_lines(new, &mut second).map_err(|r| r.about(2))?;
    let old = HeldTable {
        k: a.k,
        total: a.total,
        lines: TableLines {
            cells: &first,
            n: a.n,
        },
    };
    let new = HeldTable {
        k: b.k,
        total: b.total,
        lines: TableLines {
            cells: &second,
            n: b.n,
        },
    };
    compare(&old, &new, service)
}
