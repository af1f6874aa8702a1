// The reader of the percentage sheet, into memory of the library's own: the volume of each service, how many backends it
// has, and the ids and the weights of all in a row each, at the same places.
ghost use Rattle.std.specs.Prelude.{◌≡◌, ◌+◌, ◌*◌, ◌≤◌, ◌<◌, length};
ghost use Rattle.numerals.specs.Limits.{most_backends, most_id, most_services};
ghost use Rattle.numerals.specs.Text.{split};
ghost use Rattle.sheets.specs.PercentageSheet.{read_sheet};
ghost use Rattle.sheets.specs.Inner.SheetReader.{BackendOf, WeightsOf, VolumeOf, ServiceOf, LineOf, SheetOf, sheet_from, finished};

use crate::answer::{Refused, refused_at};
use crate::first_line::Form;
use crate::planning::WEIGHTS;
use numerals::Refusal;

// The fields of a service's line: its word, its volume and the weights.
const MOST_FIELDS: usize = 2 + numerals::MOST_BACKENDS;

// What line 1 says.
#[derive(Drop)]
pub struct Head {
    pub k: usize,
    pub tolerance: u64,
    pub capacity: usize,
}

// A backend of a line.
#[derive(Clone, Copy)]
pub struct Backend {
    pub id: usize,
    pub weight: u64,
}

// The weights of a line: their number and their sum.
#[derive(Clone, Copy)]
pub struct LineWeights {
    pub count: usize,
    pub sum: u64,
}

// A line of a service in the text: how many weights it has, and the lines behind it.
#[derive(Clone, Copy)]
pub struct ServiceLine<'a> {
    pub count: usize,
    pub behind: &'a [u8],
}

// A whole sheet in memory: line 1, the number of services, and the number of all their backends.
#[derive(Drop)]
pub struct SheetInMemory {
    pub head: Head,
    pub services: usize,
    pub row: usize,
}

// The backend of a field, id:percentage (58 is ':'), behind one with the id `before`.
fn read_backend(field: &[u8], before: usize) -> Option<Backend>
    requires { before ≤ most_id }
    ensures { BackendOf result before field.now }
{
    let colon = numerals::find(field, 0, field.len(), 58);
    if field.len() <= colon {
        return None;
    }
    let least = (before + 1) as u64;
    let id = numerals::read_number(field, 0, colon, least, numerals::MOST_ID as u64)?;
    let weight = numerals::read_percentage(field, colon + 1, field.len())?;
    Some(Backend {
        id: id as usize,
        weight,
    })
}

// The backends of fields one after the other, each read into the two rows from place `at` on.
fn read_weights(
    fields: &[u8],
    ids: &mut [usize; WEIGHTS],
    weights: &mut [u64; WEIGHTS],
    at: usize,
) -> Result<LineWeights, Refusal>
    requires few { length (split 32 fields.now) ≤ most_backends }
    requires room { at + most_backends ≤ most_services * most_backends }
    ensures { WeightsOf result ids.old ids.new weights.old weights.new at (split 32 fields.now) }
{
    let mut start = 0;
    let mut before = 0;
    let mut count = 0;
    let mut sum: u64 = 0;
    // a `while`, since it goes from field to field by the position at which each ends
    while start <= fields.len() {
        let end = numerals::find(fields, start, fields.len(), 32);
        let backend = read_backend(&fields[start..end], before).ok_or(Refusal::BadField)?;
        ids[at + count] = backend.id;
        weights[at + count] = backend.weight;
        before = backend.id;
        sum += backend.weight;
        count += 1;
        start = end + 1;
    }
    Ok(LineWeights { count, sum })
}

// The line of service i up to its weights: SERVICE volume, and the number of its fields.
fn read_volume(line: &[u8], i: usize) -> Result<u64, Refusal>
    ensures { VolumeOf result i (split 32 line.now) }
{
    if crate::fields::field_at(line, 0) != b"SERVICE".as_slice() {
        return Err(Refusal::Malformed);
    }
    if numerals::MOST_SERVICES <= i {
        return Err(Refusal::TooMany);
    }
    let count = numerals::count_fields(line, 0, line.len(), 32);
    if count < 3 {
        return Err(Refusal::Malformed);
    }
    if MOST_FIELDS < count {
        return Err(Refusal::TooMany);
    }
    crate::fields::number_in(line, 1, 0, numerals::MOST_VOLUME).ok_or(Refusal::BadField)
}

// The line of service i: SERVICE volume id1:p1 .. idM:pM.
fn read_service(
    line: &[u8],
    i: usize,
    volumes: &mut [u64; numerals::MOST_SERVICES],
    ids: &mut [usize; WEIGHTS],
    weights: &mut [u64; WEIGHTS],
    at: usize,
) -> Result<usize, Refusal>
    requires { at ≤ most_backends * i }
    ensures { ServiceOf result volumes.old volumes.new ids.old ids.new
        weights.old weights.new at i (split 32 line.now) }
{
    let volume = read_volume(line, i)?;
    let read = read_weights(crate::fields::rest_after(line, 2), ids, weights, at)?;
    if read.sum != numerals::UNIT {
        return Err(Refusal::Unbalanced);
    }
    volumes[i] = volume;
    Ok(read.count)
}

// The line of service i, the first of these.
fn read_line<'a>(
    lines: &'a [u8],
    i: usize,
    volumes: &mut [u64; numerals::MOST_SERVICES],
    ids: &mut [usize; WEIGHTS],
    weights: &mut [u64; WEIGHTS],
    at: usize,
) -> Result<ServiceLine<'a>, Refusal>
    requires some { 0 < length lines.now }
    requires at_bound { at ≤ most_backends * i }
    ensures { LineOf result lines.now volumes.old volumes.new ids.old ids.new
        weights.old weights.new at i }
{
    let end = numerals::find(lines, 0, lines.len(), 10);
    if lines.len() <= end {
        return Err(Refusal::Malformed);
    }
    let count = read_service(&lines[..end], i, volumes, ids, weights, at)?;
    Ok(ServiceLine {
        count,
        behind: &lines[end + 1..],
    })
}

// After the lines: no service, then a capacity below their number.
fn finish(head: Head, services: usize, row: usize) -> Result<SheetInMemory, Refused>
    ensures { result ≡ finished head services row }
{
    if services == 0 {
        return Err(refused_at(Refusal::NoService, 1));
    }
    if head.capacity < services {
        return Err(refused_at(Refusal::TableShort, 1));
    }
    Ok(SheetInMemory {
        head,
        services,
        row,
    })
}

// The lines of the services.
fn read_services(
    lines: &[u8],
    head: Head,
    volumes: &mut [u64; numerals::MOST_SERVICES],
    sizes: &mut [usize; numerals::MOST_SERVICES],
    ids: &mut [usize; WEIGHTS],
    weights: &mut [u64; WEIGHTS],
) -> Result<SheetInMemory, Refused>
    ensures { SheetOf result (sheet_from head (split 10 lines.now))
        volumes.new sizes.new ids.new weights.new }
{
    let mut rest = lines;
    let mut i = 0;
    let mut at = 0;
    // a `while`, since each line that is read tells what stands behind it
    while !rest.is_empty() {
        let read = read_line(rest, i, volumes, ids, weights, at);
        match read {
            Err(why) => {
                return Err(refused_at(why, i + 2));
            }
            Ok(line) => {
                sizes[i] = line.count;
                at += line.count;
                rest = line.behind;
            }
        }
        i += 1;
    }
    finish(head, i, at)
}

// A percentage sheet.
pub fn read_sheet(
    text: &[u8],
    volumes: &mut [u64; numerals::MOST_SERVICES],
    sizes: &mut [usize; numerals::MOST_SERVICES],
    ids: &mut [usize; WEIGHTS],
    weights: &mut [u64; WEIGHTS],
) -> Result<SheetInMemory, Refused>
    ensures { SheetOf result (read_sheet text.now)
        volumes.new sizes.new ids.new weights.new }
{
    let line = crate::first_line::read_first_line(
        text,
        b"SHEET",
        Form::Percentage,
        Form::Limits {
            least: 1,
            most: numerals::MOST_CAPACITY as u64,
        },
    )?;
    let head = Head {
        k: line.k,
        tolerance: line.second,
        capacity: line.third as usize,
    };
    read_services(line.behind, head, volumes, sizes, ids, weights)
}
