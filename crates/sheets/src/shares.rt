// The share of a backend of a service in a rule sheet, by the count by first match.
ghost use Rattle.std.specs.Prelude.{◌≡◌};
ghost use Rattle.expansion.specs.FirstMatch.{share};
ghost use Rattle.packing.specs.Count.{own_rules};
ghost use Rattle.sheets.specs.Shares.{share_answer};
ghost use Rattle.sheets.specs.Inner.HeldTable.{lines_of};

use crate::answer::{Refused, ShareRecord, refused_at};
use crate::rule_lines::{HeldTable, TableLines};
use crate::rule_sheet::CELLS;
use numerals::{MOST_ID, Refusal};

// How many of the k-bit suffixes a backend of a service is given: tallied from the service's first line on, so that the
// walk of each suffix starts behind the services before it.
fn tally(table: &HeldTable, service: usize, backend: usize) -> u64
    ensures { result ≡ share table.now.k (own_rules service (lines_of table.now.lines)) backend }
{
    let lines = table.lines.from_service(service);
    let all: usize = 1 << table.k;
    let mut held: u64 = 0;
    for s in 0..all {
        if lines.first_backend(service, s) == backend {
            held += 1;
        }
    }
    held
}

// The share of the backend with this id of a service of a rule sheet.
pub fn count_share(text: &[u8], service: usize, backend: usize) -> Result<ShareRecord, Refused>
    ensures { result ≡ share_answer text.now service backend }
{
    let mut cells = [0usize; CELLS];
    let head = crate::rule_sheet::read_sheet_lines(text, &mut cells)?;
    let table = HeldTable {
        k: head.k,
        total: head.total,
        lines: TableLines {
            cells: &cells,
            n: head.n,
        },
    };
    if table.lines.first_backend(service, 0) == 0 {
        return Err(refused_at(Refusal::UnknownService, 0));
    }
    if !(1..=MOST_ID).contains(&backend) {
        return Err(refused_at(Refusal::BadField, 0));
    }
    Ok(ShareRecord {
        k: table.k,
        share: tally(&table, service, backend),
    })
}
