// churn OLD NEW SERVICE
ghost use Rattle.std.specs.Prelude.{◌≡◌, ◌≤◌, length};
ghost use Rattle.sheets.specs.Calls.{churn_answer};
ghost use Rattle.sheets.specs.Inner.Writing.{Wrote};
ghost use Rattle.commands.specs.Said.{outcome, filled};
ghost use Rattle.commands.specs.Churn.{churned_text, churn_says};

use crate::answer::NoNumber;
use crate::numeral::{MOST_SERVICE, word};

// How many suffixes moved, or a refusal and its sheet.
fn compare(old: &[u8], new: &[u8], service: u64, out: &mut [u8]) -> usize
    requires { 71 ≤ length out.old }
    ensures { Wrote out.old out.new 0 result (churned_text (churn_answer old.now new.now service)) }
{
    match sheets::churn(old, new, service as usize) {
        Ok(n) => crate::writing::put_answer(out, n),
        Err(r) => crate::writing::put_refused_of(out, r),
    }
}

// How many suffixes of a service have another backend in the new rule sheet than in the old.
pub fn churn(
    old: &[u8],
    new: &[u8],
    service: &[u8],
    out: &mut [u8; crate::LINES_ROOM],
) -> Result<usize, NoNumber>
    ensures answer { result ≡ outcome (churn_says old.now new.now service.now) }
    ensures buffer { out.new ≡ filled (churn_says old.now new.now service.now) out.old }
{
    let n = word(service, MOST_SERVICE, 3)?;
    Ok(compare(old, new, n, out))
}
