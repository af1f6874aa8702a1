// Two rule sheets read, a service of each by its suffixes.
ghost use Rattle.std.specs.Prelude.{◌≡◌, replicate, Err};
ghost use Rattle.numerals.specs.Limits.{most_suffixes};
ghost use Rattle.expansion.specs.FirstMatch.{nobody};
ghost use Rattle.sheets.specs.Calls.{about};
ghost use Rattle.stages.specs.Inner.Spread.{LoadedAs};
ghost use Rattle.stages.specs.Inner.Both.{compared, BothAs};

use numerals::{MOST_CAPACITY, MOST_SUFFIXES, Refusal};
use sheets::Refused;

// The numbers of the largest table, four for each line.
const CELLS: usize = 4 * MOST_CAPACITY;

// A rule sheet read, and a service's suffixes in it spread over a listing in which nobody has any.
fn load(text: &[u8], service: usize, holder: &mut [u16; MOST_SUFFIXES]) -> Result<usize, Refused>
    requires { holder.old ≡ replicate most_suffixes nobody }
    ensures { LoadedAs text.now service result holder.new }
{
    // what stands there first means nothing; ones are stored by the word, zeros by the byte
    let mut table = [1usize; CELLS];
    let made = sheets::read_table(text, &mut table)?;
    let places = numerals::all_places();
    crate::spreading::spread(holder, &table, made.rules, service, made.k, &places);
    Ok(made.k)
}

// A refusal at no line.
fn refused(why: Refusal, of: usize) -> Result<usize, Refused>
    ensures { result ≡ Err (about of why 0) }
{
    Err(Refused { why, line: 0, of })
}

// The service in each table, by who has the suffix at place 0, where 0 is nobody, then the two k.
fn compare(first: u16, second: u16, k: usize, m: usize) -> Result<usize, Refused>
    ensures { result ≡ compared first second k m }
{
    if first == 0 {
        return refused(Refusal::UnknownService, 1);
    }
    if second == 0 {
        return refused(Refusal::UnknownService, 2);
    }
    if k != m {
        return refused(Refusal::Depth, 0);
    }
    Ok(k)
}

// Both sheets read, the first wholly before the second, and the service's suffixes in them spread.
pub fn read_both(
    old: &[u8],
    new: &[u8],
    service: usize,
    before: &mut [u16; MOST_SUFFIXES],
    after: &mut [u16; MOST_SUFFIXES],
) -> Result<usize, Refused>
    requires { (before.old ≡ replicate most_suffixes nobody) × (after.old ≡ replicate most_suffixes nobody) }
    ensures { BothAs old.now new.now service result before.new after.new }
{
    let k = load(old, service, before).map_err(|r| r.about(1))?;
    let m = load(new, service, after).map_err(|r| r.about(2))?;
    compare(before[0], after[0], k, m)
}
