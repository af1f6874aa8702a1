// The two calls of a change in stages, on two rule sheets.
ghost use Rattle.std.specs.Prelude.{◌≡◌, ℕ, ◌-◌, length, get_or, take, Ok};
ghost use Rattle.sheets.specs.Calls as calls;
ghost use Rattle.stages.specs.Calls.{places_answer, places_written, lines_answer, lines_written};
ghost use Rattle.stages.specs.Promise.{PromisedRow, PromisedStage};
ghost use Rattle.stages.specs.Inner.Changes.{row_in, judged_in, text_in, ChangeOf};
ghost use Rattle.stages.specs.Inner.Handed.{handed};

use crate::change::Change;
use crate::reading::read_both;
use numerals::{MOST_SUFFIXES, Refusal};
use sheets::Refused;

// The row of a change, into a lent buffer. Stage 1 is in every row. It is cut a second time, straight into the buffer, once it
// is known to be answered: nothing lent is written on a refusal.
fn hand_row(
    change: Change,
    limit: usize,
    capacity: usize,
    places: &mut [usize],
) -> Result<usize, Refused>
    ensures answer { result ≡ handed (judged_in change.entry limit capacity 1) (row_in change.entry limit) (length places.old) }
    ensures buffer { places.new ≡ calls.afterwards (calls.is_value result) places.old (row_in change.entry limit) }
{
    let mut row = [1usize; MOST_SUFFIXES];
    let n = change.judge(limit, capacity, 1, &mut row)?;
    if places.len() < n {
        return Err(Refusal::ShortLoan.into());
    }
    change.cut(limit, places);
    Ok(n)
}

// The text of one stage of a change, into a lent buffer.
fn hand_stage(
    change: Change,
    service: usize,
    limit: usize,
    capacity: usize,
    number: usize,
    out: &mut [u8],
) -> Result<usize, Refused>
    requires { ChangeOf change service }
    ensures answer { result ≡ handed (judged_in change.entry limit capacity number)
        (text_in change.entry service (get_or (row_in change.entry limit) (number - 1) 0)) (length out.old) }
    ensures buffer { out.new ≡ calls.afterwards (calls.is_value result) out.old
        (text_in change.entry service (get_or (row_in change.entry limit) (number - 1) 0)) }
{
    let mut row = [1usize; MOST_SUFFIXES];
    change.judge(limit, capacity, number, &mut row)?;
    change.print_stage(service, row[number - 1], out)
}

// The places at which a change from one rule sheet's table to another's is cut into stages, for a service: each stage moves
// at most so many suffixes and has at most so many lines. How many stages there are.
pub fn stage_places(
    old: &[u8],
    new: &[u8],
    service: usize,
    limit: usize,
    capacity: usize,
    places: &mut [usize],
) -> Result<usize, Refused>
    ensures answer { result ≡ places_answer old.now new.now service limit capacity (length places.old) }
    ensures buffer { places.new ≡ calls.afterwards (calls.is_value result) places.old
        (places_written old.now new.now service limit) }
    ensures promise { (n : ℕ) → result ≡ Ok n
        → PromisedRow old.now new.now service limit (take n places.new) }
{
    // nobody has any suffix yet
    let mut before = [0u16; MOST_SUFFIXES];
    let mut after = [0u16; MOST_SUFFIXES];
    let k = read_both(old, new, service, &mut before, &mut after)?;
    let change = Change {
        old: &before,
        new: &after,
        k,
    };
    hand_row(change, limit, capacity, places)
}

// One of these stages by its number, from 1: a list for the switch, `service suffix backend` lines, into a lent buffer. How
// many bytes it has.
pub fn stage_lines(
    old: &[u8],
    new: &[u8],
    service: usize,
    limit: usize,
    capacity: usize,
    number: usize,
    out: &mut [u8],
) -> Result<usize, Refused>
    ensures answer { result ≡ lines_answer old.now new.now service limit capacity number (length out.old) }
    ensures buffer { out.new ≡ calls.afterwards (calls.is_value result) out.old
        (lines_written old.now new.now service limit number) }
    ensures promise { (n : ℕ) → result ≡ Ok n
        → PromisedStage old.now new.now service limit number (take n out.new) }
{
    // nobody has any suffix yet
    let mut before = [0u16; MOST_SUFFIXES];
    let mut after = [0u16; MOST_SUFFIXES];
    let k = read_both(old, new, service, &mut before, &mut after)?;
    let change = Change {
        old: &before,
        new: &after,
        k,
    };
    hand_stage(change, service, limit, capacity, number, out)
}
