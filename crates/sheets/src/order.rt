// The order of the lines of a rule sheet: what a line may follow.
ghost use Rattle.std.specs.Prelude.{◌≡◌, List, ℕ, ◌+◌, ◌≤◌, length};
ghost use Rattle.numerals.specs.Limits.{most_services, most_capacity};
ghost use Rattle.packing.specs.Count.{Line};
ghost use Rattle.sheets.specs.RuleSheet.{in_order};
ghost use Rattle.sheets.specs.Inner.TableNumbers.{line};
ghost use Rattle.sheets.specs.Inner.Order.{last_of, Placing};

use numerals::Refusal;

// What the lines so far leave: how many there are, and the service and the suffix's length of the last.
#[derive(Clone, Copy)]
pub struct Last {
    pub count: usize,
    pub service: usize,
    pub len: usize,
}

// The places of a tally of lines by their service.
pub const TALLY: usize = 1 + numerals::MOST_SERVICES;

// The bound of the count is a clause, not a type: the count that is answered is one more.
// A line behind these: the 33rd rule of its service, in order or not, then the order. `tally` has the number of lines
// of each service.
pub fn place_line(
    last: Last,
    tally: &mut [usize],
    service: usize,
    len: usize,
) -> Result<Last, Refusal>
    requires { (service ≤ most_services) × ((last.count ≤ most_capacity) × (length tally.old ≡ 1 + most_services)) }
    ensures { Placing last service len tally.old result tally.new }
{
    let n = tally[service];
    if !in_order(last, service, len) && n < numerals::MOST_RULES {
        return Err(Refusal::Order);
    }
    if numerals::MOST_RULES <= n {
        return Err(Refusal::TooMany);
    }
    tally[service] = n + 1;
    Ok(Last {
        count: last.count + 1,
        service,
        len,
    })
}

// Services ascend, each ends in its only `*`, and within one the suffix doesn't lengthen.
fn in_order(last: Last, service: usize, len: usize) -> bool
    ensures { (before : List Line) (v b : ℕ) → last ≡ last_of before → result ≡ in_order before (line service len v b) }
{
    if last.count == 0 {
        return true;
    }
    if last.service == service {
        return 0 < last.len && len <= last.len;
    }
    last.service < service && last.len == 0
}
