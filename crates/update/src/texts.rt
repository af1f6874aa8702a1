// The update on two texts: the old list from a rule sheet, the new weights and the tolerance from a percentage sheet.
ghost use Rattle.std.specs.Prelude.{◌≡◌, length};
ghost use Rattle.numerals.specs.Buffer.{filled};
ghost use Rattle.update.specs.Sheets as texts;

use crate::answer::Update;
use expansion::{MOST_NUMBERS, PER_RULE};
use numerals::MOST_BACKENDS;
use sheets::Refused;

// A service's new weights on its rules in a rule sheet. The new list in numbers, the newest rule first, into a lent buffer.
pub fn update_sheets(
    old: &[u8],
    sheet: &[u8],
    service: usize,
    rules: &mut [usize],
) -> Result<Update, Refused>
    ensures answer { result ≡ texts.sheets_answer old.now sheet.now service (length rules.old) }
    ensures rules { rules.new ≡ filled (texts.is_made result) rules.old 0
        (texts.sheets_numbers old.now sheet.now service) }
    ensures promise { texts.PromisedBoth old.now sheet.now service result rules.new }
{
    let mut list = [0usize; MOST_NUMBERS];
    let mut ids = [0usize; MOST_BACKENDS];
    let mut weights = [0u64; MOST_BACKENDS];
    let m = sheets::read_update(old, sheet, service, &mut list, &mut ids, &mut weights)?;
    let n = PER_RULE * m.rules;
    let made = crate::updating::update(
        m.k,
        m.tolerance,
        &list[..n],
        &ids[..m.backends],
        &weights[..m.backends],
        rules,
    )?;
    Ok(made)
}
