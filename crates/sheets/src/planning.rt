// The one call, and the call that prints: a percentage sheet's text in, its table out.
ghost use Rattle.std.specs.Prelude.{◌≡◌, length};
ghost use Rattle.sheets.specs.PercentageSheet.{read_sheet};
ghost use Rattle.sheets.specs.Calls as calls;
ghost use Rattle.sheets.specs.Demand.{Demand3Of};
ghost use Rattle.sheets.specs.FourPlaces.{FourPlaces};

use crate::answer::{Plan, Refused};
use crate::rule_lines::{HeldTable, TableLines};
use crate::rule_sheet::CELLS;

// The backends of all services: as many ids, and as many weights.
pub const WEIGHTS: usize = numerals::MOST_SERVICES * numerals::MOST_BACKENDS;

// The figures of all services.
const FIGURES: usize = 3 * numerals::MOST_SERVICES;

// The table and the figures of a percentage sheet. `figures` takes three numbers for each service: its grant, the length
// of its list and how the list ended (within 0, no gain 1, budget 2). `table` takes four for each line.
pub fn plan(text: &[u8], figures: &mut [usize], table: &mut [usize]) -> Result<Plan, Refused>
    ensures answer { result ≡ calls.plan_answer text.now (length figures.old) (length table.old) }
    ensures figures { figures.new ≡ calls.afterwards (calls.is_plan result) figures.old
        (calls.values_of (read_sheet text.now) calls.figures_for) }
    ensures table { table.new ≡ calls.afterwards (calls.is_plan result) table.old
        (calls.values_of (read_sheet text.now) calls.cells_for) }
{
    let mut volumes = [0u64; numerals::MOST_SERVICES];
    let mut sizes = [0usize; numerals::MOST_SERVICES];
    // what stands there first means nothing; ones are stored by the word, zeros by the byte
    let mut ids = [1usize; WEIGHTS];
    let mut weights = [1u64; WEIGHTS];
    let sheet = crate::percentage_sheet::read_sheet(
        text,
        &mut volumes,
        &mut sizes,
        &mut ids,
        &mut weights,
    )?;
    let k = sheet.head.k;
    let services = sheet.services;
    let row = sheet.row;
    let packed = packing::pack(
        k,
        sheet.head.tolerance,
        sheet.head.capacity,
        &volumes[..services],
        &sizes[..services],
        &ids[..row],
        &weights[..row],
        figures,
        table,
    )?;
    Ok(Plan {
        k,
        services,
        rules: packed.rules,
        total: packed.total,
    })
}

// The rule sheet of a percentage sheet, into a lent buffer.
pub fn split_sheet(text: &[u8], out: &mut [u8]) -> Result<usize, Refused>
    ensures answer { result ≡ calls.print_read (read_sheet text.now) calls.sheet_text (length out.old) }
    ensures buffer { out.new ≡ calls.afterwards (calls.is_value result) out.old
        (calls.values_of (read_sheet text.now) calls.sheet_text) }
    ensures demand { Demand3Of result text.now out.new }
    ensures four_places { FourPlaces text.now result out.old out.new }
{
    let mut figures = [0usize; FIGURES];
    let mut table = [1usize; CELLS];
    let p = plan(text, &mut figures, &mut table)?;
    let table = HeldTable {
        k: p.k,
        total: p.total,
        lines: TableLines {
            cells: &table,
            n: p.rules,
        },
    };
    crate::printing::print(&table, out)
}
