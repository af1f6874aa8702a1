// stages OLD NEW SERVICE LIMIT CAPACITY, and stage OLD NEW SERVICE LIMIT CAPACITY NUMBER
ghost use Rattle.std.specs.Prelude.{◌≡◌, ◌≤◌, length, take};
ghost use Rattle.numerals.specs.Limits.{text_limit};
ghost use Rattle.sheets.specs.Inner.Writing.{Wrote};
ghost use Rattle.commands.specs.Said.{outcome, filled};
ghost use Rattle.commands.specs.Stages.{places_text, stages_text, one_stage_text, stages_says, stage_says};
ghost use Rattle.commands.specs.Inner.Stages.{Places, places_room};

use crate::answer::NoNumber;
use crate::numeral::{MOST_CAPACITY, MOST_SERVICE, MOST_SUFFIXES, word};
use crate::writing::{put_number, put_refused_of};

// The first n places, each as a line; the position after them.
fn put_places(out: &mut [u8], places: &[usize], n: usize) -> usize
    requires { Places places.now n × (places_room ≤ length out.old) }
    ensures { Wrote out.old out.new 0 result (places_text (take n places.now)) }
{
    let mut end = 0;
    for place in &places[..n] {
        end = put_number(out, end, *place as u64, 10);
    }
    end
}

// The places of the stages, or a refusal and its sheet.
fn cut(old: &[u8], new: &[u8], service: u64, limit: u64, capacity: u64, out: &mut [u8]) -> usize
    requires { places_room ≤ length out.old }
    ensures { Wrote out.old out.new 0 result (stages_text old.now new.now service limit capacity) }
{
    let mut places = [0usize; numerals::MOST_SUFFIXES];
    match stages::stage_places(
        old,
        new,
        service as usize,
        limit as usize,
        capacity as usize,
        &mut places,
    ) {
        Ok(n) => put_places(out, &places, n),
        Err(r) => put_refused_of(out, r),
    }
}

// The lines of one stage, or a refusal and its sheet.
fn list(
    old: &[u8],
    new: &[u8],
    service: u64,
    limit: u64,
    capacity: u64,
    number: u64,
    out: &mut [u8],
) -> usize
    requires { length out.old ≡ text_limit }
    ensures { Wrote out.old out.new 0 result
        (one_stage_text old.now new.now service limit capacity number) }
{
    match stages::stage_lines(
        old,
        new,
        service as usize,
        limit as usize,
        capacity as usize,
        number as usize,
        out,
    ) {
        Ok(n) => n,
        Err(r) => put_refused_of(out, r),
    }
}

// Where a change of a service is cut into stages of at most so many moved suffixes and so many lines.
pub fn stages(
    old: &[u8],
    new: &[u8],
    service: &[u8],
    limit: &[u8],
    capacity: &[u8],
    out: &mut [u8; crate::ROOM],
) -> Result<usize, NoNumber>
    ensures answer { result ≡ outcome
        (stages_says old.now new.now service.now limit.now capacity.now) }
    ensures buffer { out.new ≡ filled
        (stages_says old.now new.now service.now limit.now capacity.now) out.old }
{
    let n = word(service, MOST_SERVICE, 3)?;
    let l = word(limit, MOST_SUFFIXES, 4)?;
    let c = word(capacity, MOST_CAPACITY, 5)?;
    Ok(cut(old, new, n, l, c, out))
}

// One of these stages by its number, from 1: its lines for the switch.
pub fn stage(
    old: &[u8],
    new: &[u8],
    service: &[u8],
    limit: &[u8],
    capacity: &[u8],
    number: &[u8],
    out: &mut [u8; crate::ROOM],
) -> Result<usize, NoNumber>
    ensures answer { result ≡ outcome (stage_says old.now new.now service.now limit.now
        capacity.now number.now) }
    ensures buffer { out.new ≡ filled (stage_says old.now new.now service.now limit.now
        capacity.now number.now) out.old }
{
    let n = word(service, MOST_SERVICE, 3)?;
    let l = word(limit, MOST_SUFFIXES, 4)?;
    let c = word(capacity, MOST_CAPACITY, 5)?;
    let i = word(number, MOST_SUFFIXES, 6)?;
    Ok(list(old, new, n, l, c, i, out))
}
