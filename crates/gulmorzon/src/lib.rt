// The calls for C: each hands on the answer of a call of crate `sheets`, `gauges`, `update` or `stages` in plain numbers.
// `include/gulmorzon.h` declares them.
#![tactic(auto)]

mod answer;
mod gauge_answer;
mod update_answer;

ghost use Rattle.std.specs.Prelude.{◌≡◌, length, take};
ghost use Rattle.numerals.specs.Buffer.{filled};
ghost use Rattle.sheets.specs.PercentageSheet.{read_sheet};
ghost use Rattle.sheets.specs.Calls as calls;
ghost use Rattle.sheets.specs.Demand.{Demand3};
ghost use Rattle.sheets.specs.FourPlaces.{FourPlaces};
ghost use Rattle.sheets.specs.Reading.{got};
ghost use Rattle.sheets.specs.RuleSheet.{Table, read_table};
ghost use Rattle.gauges.specs.Gauges.{gauges_answer, ExactGauges};
ghost use Rattle.update.specs.Sheets as texts;
ghost use Rattle.stages.specs.Calls.{places_answer, places_written, lines_answer, lines_written};
ghost use Rattle.stages.specs.Promise.{PromisedRow, PromisedStage};
ghost use Rattle.gulmorzon.specs.Answers as answers;
ghost use Rattle.gulmorzon.specs.Gauges.{of_record, reading_called, ExactMarked};
ghost use Rattle.gulmorzon.specs.Update.{of_update};

pub use answer::{Answer, PlanAnswer};
pub use gauge_answer::{GaugesAnswer, ReadingAnswer};
use gauge_answer::{LOAD, SHARE};
use gauges::Gauge;
pub use update_answer::UpdateAnswer;

// The one call: the table and the figures of a percentage sheet.
#[unsafe(no_mangle)]
pub extern "C" fn gulmorzon_plan(
    text: &[u8],
    figures: &mut [usize],
    table: &mut [usize],
) -> PlanAnswer
    ensures answer { result ≡ answers.of_planned (calls.plan_answer text.now (length figures.old) (length table.old)) }
    ensures figures { figures.new ≡ calls.afterwards
        (calls.is_plan (calls.plan_answer text.now (length figures.old) (length table.old)))
        figures.old (calls.values_of (read_sheet text.now) calls.figures_for) }
    ensures table { table.new ≡ calls.afterwards
        (calls.is_plan (calls.plan_answer text.now (length figures.old) (length table.old)))
        table.old (calls.values_of (read_sheet text.now) calls.cells_for) }
{
    sheets::plan(text, figures, table).into()
}

// The rule sheet of a percentage sheet, into a lent buffer. The value is the number of bytes.
#[unsafe(no_mangle)]
pub extern "C" fn gulmorzon_split(text: &[u8], out: &mut [u8]) -> Answer
    ensures answer { result ≡ answers.of_answer (answers.split_answer text.now (length out.old)) }
    ensures buffer { out.new ≡ answers.split_filled text.now (length out.old) out.old }
    ensures demand { result.number ≡ 0 → Demand3 text.now (take result.value out.new) }
    ensures four_places { FourPlaces text.now (answers.split_answer text.now (length out.old))
        out.old out.new }
{
    sheets::split_sheet(text, out).into()
}

// The backend that a rule sheet gives a service's address to. The value is its id.
#[unsafe(no_mangle)]
pub extern "C" fn gulmorzon_lookup(text: &[u8], service: usize, address: u32) -> Answer
    ensures { result ≡ answers.of_answer (calls.lookup_answer text.now service address) }
{
    sheets::lookup(text, service, address).into()
}

// How many suffixes of a service have another backend in the new rule sheet than in the old. The value is their number.
#[unsafe(no_mangle)]
pub extern "C" fn gulmorzon_churn(old: &[u8], new: &[u8], service: usize) -> Answer
    ensures { result ≡ answers.of_answer (calls.churn_answer old.now new.now service) }
{
    sheets::churn(old, new, service).into()
}

// The share and the load of one backend of a service in a rule sheet.
#[unsafe(no_mangle)]
pub extern "C" fn gulmorzon_gauges(
    text: &[u8],
    service: usize,
    volume: u64,
    backend: usize,
) -> GaugesAnswer
    ensures answer { result ≡ of_record (gauges_answer text.now service volume backend) }
    ensures exact { result.number ≡ 0 → (t : Table) → read_table text.now ≡ got t
        → ExactGauges t service volume backend result.gauges }
{
    gauges::gauge_record(text, service, volume, backend).into()
}

// One of the two, by its number; a service that isn't there is marked as absent.
#[unsafe(no_mangle)]
pub extern "C" fn gulmorzon_reading(
    text: &[u8],
    service: usize,
    volume: u64,
    backend: usize,
    gauge: usize,
) -> ReadingAnswer
    ensures answer { result ≡ reading_called text.now service volume backend gauge }
    ensures exact { (t : Table) → read_table text.now ≡ got t → ExactMarked t service volume backend result }
{
    if gauge == SHARE {
        return gauges::gauge_reading(text, service, volume, backend, Gauge::Share).into();
    }
    if gauge == LOAD {
        return gauges::gauge_reading(text, service, volume, backend, Gauge::Load).into();
    }
    // No gauge has this number: whichever is read, its value is refused.
    gauge_answer::of_unnamed(gauges::gauge_reading(text, service, volume, backend, Gauge::Share))
}

// A service's new weights, from a percentage sheet, on its rules in a rule sheet. The new list in numbers, the newest rule
// first, into a lent buffer.
#[unsafe(no_mangle)]
pub extern "C" fn gulmorzon_update(
    old: &[u8],
    sheet: &[u8],
    service: usize,
    rules: &mut [usize],
) -> UpdateAnswer
    ensures answer { result ≡ of_update
        (texts.sheets_answer old.now sheet.now service (length rules.old)) }
    ensures rules { rules.new ≡ filled
        (texts.is_made (texts.sheets_answer old.now sheet.now service (length rules.old)))
        rules.old 0 (texts.sheets_numbers old.now sheet.now service) }
    ensures promise { texts.PromisedBoth old.now sheet.now service
        (texts.sheets_answer old.now sheet.now service (length rules.old)) rules.new }
{
    update::update_sheets(old, sheet, service, rules).into()
}

// The places at which a service's change from one rule sheet to another is cut into stages, into a lent buffer. The value is
// the number of stages.
#[unsafe(no_mangle)]
pub extern "C" fn gulmorzon_stages(
    old: &[u8],
    new: &[u8],
    service: usize,
    limit: usize,
    capacity: usize,
    places: &mut [usize],
) -> Answer
    ensures answer { result ≡ answers.of_answer
        (places_answer old.now new.now service limit capacity (length places.old)) }
    ensures buffer { places.new ≡ calls.afterwards
        (calls.is_value (places_answer old.now new.now service limit capacity (length places.old)))
        places.old (places_written old.now new.now service limit) }
    ensures promise { result.number ≡ 0
        → PromisedRow old.now new.now service limit (take result.value places.new) }
{
    stages::stage_places(old, new, service, limit, capacity, places).into()
}

// One of these stages by its number, from 1, as lines for the switch, into a lent buffer. The value is the number of bytes.
#[unsafe(no_mangle)]
pub extern "C" fn gulmorzon_stage(
    old: &[u8],
    new: &[u8],
    service: usize,
    limit: usize,
    capacity: usize,
    number: usize,
    out: &mut [u8],
) -> Answer
    ensures answer { result ≡ answers.of_answer
        (lines_answer old.now new.now service limit capacity number (length out.old)) }
    ensures buffer { out.new ≡ calls.afterwards
        (calls.is_value (lines_answer old.now new.now service limit capacity number (length out.old)))
        out.old (lines_written old.now new.now service limit number) }
    ensures promise { result.number ≡ 0
        → PromisedStage old.now new.now service limit number (take result.value out.new) }
{
    stages::stage_lines(old, new, service, limit, capacity, number, out).into()
}
