// What an update reads: of a rule sheet the rules of a service, of a percentage sheet its new weights with their ids, and
// the tolerance.
ghost use Rattle.std.specs.Prelude.{◌≡◌, length};
ghost use Rattle.numerals.specs.Refusals.{no8};
ghost use Rattle.expansion.specs.OldList.{numbers_of};
ghost use Rattle.sheets.specs.PercentageSheet.{read_sheet};
ghost use Rattle.sheets.specs.RuleSheet.{read_table};
ghost use Rattle.sheets.specs.Calls as calls;
ghost use Rattle.sheets.specs.Update.{old_rules, new_ids, new_weights, update_in, update_read_answer, is_read};
ghost use Rattle.sheets.specs.Inner.HeldTable.{table_of};
ghost use Rattle.sheets.specs.Inner.Update.{judged, sheet_of};

use crate::answer::{Refused, UpdateRecord, refused_at};
use crate::held_sheet::HeldSheet;
use crate::planning::WEIGHTS;
use crate::rule_lines::{HeldTable, TableLines};
use crate::rule_sheet::CELLS;
use expansion::PER_RULE;
use numerals::Refusal;

// The rules of a service in numbers, three of each, the newest first, and its new weights with their ids, into lent
// buffers.
pub fn read_update(
    old: &[u8],
    sheet: &[u8],
    service: usize,
    rules: &mut [usize],
    ids: &mut [usize],
    weights: &mut [u64],
) -> Result<UpdateRecord, Refused>
    ensures answer { result ≡ update_read_answer old.now sheet.now service
        (length rules.old) (length ids.old) (length weights.old) }
    ensures rules { rules.new ≡ calls.afterwards (is_read result) rules.old
        (calls.values_of (read_table old.now) (λ t. numbers_of (old_rules t service))) }
    ensures ids { ids.new ≡ calls.afterwards (is_read result) ids.old
        (calls.values_of (read_sheet sheet.now) (λ S. new_ids S service)) }
    ensures weights { weights.new ≡ calls.afterwards (is_read result) weights.old
        (calls.values_of (read_sheet sheet.now) (λ S. new_weights S service)) }
{
    // what stands there first means nothing; ones are stored by the word, zeros by the byte
    let mut cells = [1usize; CELLS];
    let head = crate::rule_sheet::read_sheet_lines(old, &mut cells).map_err(|r| r.about(1))?;
    let table = HeldTable {
        k: head.k,
        total: head.total,
        lines: TableLines {
            cells: &cells,
            n: head.n,
        },
    };
    read_second(&table, sheet, service, rules, ids, weights)
}

// The same, once the rule sheet is in memory.
fn read_second(
    table: &HeldTable,
    sheet: &[u8],
    service: usize,
    rules: &mut [usize],
    ids: &mut [usize],
    weights: &mut [u64],
) -> Result<UpdateRecord, Refused>
    ensures answer { result ≡ calls.answered Err 2 (read_sheet sheet.now)
        (λ S. update_in (table_of table.now) S service
        (length rules.old) (length ids.old) (length weights.old)) }
    ensures rules { rules.new ≡ calls.afterwards (is_read result) rules.old
        (numbers_of (old_rules (table_of table.now) service)) }
    ensures ids { ids.new ≡ calls.afterwards (is_read result) ids.old
        (calls.values_of (read_sheet sheet.now) (λ S. new_ids S service)) }
    ensures weights { weights.new ≡ calls.afterwards (is_read result) weights.old
        (calls.values_of (read_sheet sheet.now) (λ S. new_weights S service)) }
{
    let mut volumes = [0u64; numerals::MOST_SERVICES];
    let mut sizes = [0usize; numerals::MOST_SERVICES];
    // what stands there first means nothing; ones are stored by the word
    let mut named = [1usize; WEIGHTS];
    let mut all = [1u64; WEIGHTS];
    let read = crate::percentage_sheet::read_sheet(
        sheet,
        &mut volumes,
        &mut sizes,
        &mut named,
        &mut all,
    ).map_err(|r| r.about(2))?;
    let new = HeldSheet {
        head: read.head,
        sizes: &sizes[..read.services],
        ids: &named[..read.row],
        weights: &all[..read.row],
    };
    select(table, &new, service, rules, ids, weights)
}

// The same, once both sheets are in memory: judged first, since a refusal writes nothing.
fn select(
    table: &HeldTable,
    new: &HeldSheet,
    service: usize,
    rules: &mut [usize],
    ids: &mut [usize],
    weights: &mut [u64],
) -> Result<UpdateRecord, Refused>
    ensures answer { result ≡ update_in (table_of table.now) (sheet_of new.now) service
        (length rules.old) (length ids.old) (length weights.old) }
    ensures rules { rules.new ≡ calls.afterwards (is_read result) rules.old
        (numbers_of (old_rules (table_of table.now) service)) }
    ensures ids { ids.new ≡ calls.afterwards (is_read result) ids.old (new_ids (sheet_of new.now) service) }
    ensures weights { weights.new ≡ calls.afterwards (is_read result) weights.old
        (new_weights (sheet_of new.now) service) }
{
    let backends = new.size_of(service);
    let found = UpdateRecord {
        k: table.k,
        tolerance: new.head.tolerance,
        rules: table.lines.count_of(service),
        backends,
    };
    let made = judge(
        found,
        new.head.k,
        new.sizes.len(),
        service,
        rules.len(),
        ids.len(),
        weights.len(),
    )?;
    table.lines.store_own(service, rules);
    let from: usize = new.sizes[..service - 1].iter().sum();
    let to = from + backends;
    ids[..backends].copy_from_slice(&new.ids[from..to]);
    weights[..backends].copy_from_slice(&new.weights[from..to]);
    Ok(made)
}

// What the measures come to: the service in each sheet, then the two k, then the places of the lent buffers.
fn judge(
    found: UpdateRecord,
    k: usize,
    services: usize,
    service: usize,
    rules: usize,
    ids: usize,
    weights: usize,
) -> Result<UpdateRecord, Refused>
    ensures { result ≡ judged found k services service rules ids weights }
{
    if found.rules == 0 {
        return Err(lacking(1));
    }
    if !(1..=services).contains(&service) {
        return Err(lacking(2));
    }
    if found.k != k {
        return Err(refused_at(Refusal::Depth, 0));
    }
    // a quotient never wraps, as the product might
    if rules / PER_RULE < found.rules || ids < found.backends || weights < found.backends {
        return Err(refused_at(Refusal::ShortLoan, 0));
    }
    Ok(found)
}

// The refusal of a sheet that lacks the service.
fn lacking(of: usize) -> Refused
    ensures { result ≡ calls.about of no8 0 }
{
    Refused {
        why: Refusal::UnknownService,
        line: 0,
        of,
    }
}
