// The two calls on a rule sheet's text: the record of a backend's gauges, and one gauge of it.
ghost use Rattle.std.specs.Prelude.{◌≡◌, Ok};
ghost use Rattle.sheets.specs.Reading.{got};
ghost use Rattle.sheets.specs.RuleSheet.{Table, read_table};
ghost use Rattle.gauges.specs.Gauges.{gauges_answer, reading_answer, reading_of, ExactGauges, ExactReading};
ghost use Rattle.gauges.specs.Inner.Absence.{in_place_of_8};

use crate::answer::{Gauge, Gauges, Reading};
use numerals::{MOST_VOLUME, Refusal};
use sheets::Refused;

// The share and the load of one backend of a service in a rule sheet.
pub fn gauge_record(
    text: &[u8],
    service: usize,
    volume: u64,
    backend: usize,
) -> Result<Gauges, Refused>
    ensures answer { result ≡ gauges_answer text.now service volume backend }
    ensures exact { (t : Table) → read_table text.now ≡ got t → (g : Gauges) → result ≡ Ok g
        → ExactGauges t service volume backend g }
{
    let held = sheets::count_share(text, service, backend)?;
    if MOST_VOLUME < volume {
        return Err(Refusal::BadField.into());
    }
    Ok(crate::exact::gauges_of(held.k, held.share, volume))
}

// The gauge that is read of a record.
fn read(gauge: Gauge, g: Gauges) -> Reading
    ensures { result ≡ reading_of gauge g }
{
    match gauge {
        Gauge::Share => Reading::Share(g.share),
        Gauge::Load => Reading::Load(g.load),
    }
}

// A service that isn't there is marked as absent, in place of 8.
fn refused_or_absent(r: Refused) -> Result<Reading, Refused>
    ensures { result ≡ in_place_of_8 r }
{
    if r.why == Refusal::UnknownService {
        return Ok(Reading::Absent);
    }
    Err(r)
}

// One gauge of a backend of a service in a rule sheet; a service that isn't there is absent.
pub fn gauge_reading(
    text: &[u8],
    service: usize,
    volume: u64,
    backend: usize,
    gauge: Gauge,
) -> Result<Reading, Refused>
    ensures answer { result ≡ reading_answer text.now service volume backend gauge }
    ensures exact { (t : Table) → read_table text.now ≡ got t → (x : Reading) → result ≡ Ok x
        → ExactReading t service volume backend x }
{
    match gauge_record(text, service, volume, backend) {
        Ok(g) => Ok(read(gauge, g)),
        Err(r) => refused_or_absent(r),
    }
}
