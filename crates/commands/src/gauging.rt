// gauge TABLE SERVICE VOLUME BACKEND
ghost use Rattle.std.specs.Prelude.{◌≡◌, [], ◌∷◌, ◌++◌, ◌+◌, ◌*◌, ◌≤◌, length};
ghost use Rattle.gauges.specs.Gauges.{gauges_answer};
ghost use Rattle.sheets.specs.Inner.Writing.{Wrote};
ghost use Rattle.commands.specs.Said.{outcome, filled};
ghost use Rattle.commands.specs.Gauge.{float_text, gauges_text, gauge_says, PrintsExactly};
ghost use Rattle.commands.specs.Inner.Gauge.{IsGauge, gauge_room};

use crate::answer::NoNumber;
use crate::numeral::{MOST_ID, MOST_SERVICE, word};

// A gauge as a decimal, and a separator behind it; the position after them.
fn put_gauge(out: &mut [u8], at: usize, x: f64, separator: u8) -> usize
    requires { (IsGauge x) × (at + gauge_room ≤ length out.old) }
    ensures text { Wrote out.old out.new at result (float_text x ++ separator ∷ []) }
    ensures end { result ≤ at + gauge_room }
{
    let parts = x * crate::dyadic::PARTS as f64;
    crate::dyadic::put_dyadic(out, at, parts as u64, separator)
}

// The gauges of a backend, or a refusal. A line has two gauges with their separators.
fn measure(table: &[u8], service: u64, volume: u64, backend: u64, out: &mut [u8]) -> usize
    requires { 2 * gauge_room ≤ length out.old }
    ensures { Wrote out.old out.new 0 result (gauges_text (gauges_answer table.now service volume backend)) }
{
    match gauges::gauge_record(table, service as usize, volume, backend as usize) {
        Ok(g) => {
            let at = put_gauge(out, 0, g.share, 32);
            put_gauge(out, at, g.load, 10)
        }
        Err(r) => crate::writing::put_refused(out, r),
    }
}

// The share and the load of one backend of a service in a rule sheet.
pub fn gauge(
    table: &[u8],
    service: &[u8],
    volume: &[u8],
    backend: &[u8],
    out: &mut [u8; crate::LINES_ROOM],
) -> Result<usize, NoNumber>
    ensures answer { result ≡ outcome (gauge_says table.now service.now volume.now backend.now) }
    ensures buffer { out.new
        ≡ filled (gauge_says table.now service.now volume.now backend.now) out.old }
    ensures exact { PrintsExactly table.now service.now volume.now backend.now result out.new }
{
    let n = word(service, MOST_SERVICE, 2)?;
    let v = word(volume, numerals::MOST_VOLUME, 3)?;
    let b = word(backend, MOST_ID, 4)?;
    Ok(measure(table, n, v, b, out))
}
