// Who has each suffix of a service, in the order of tree places.
ghost use Rattle.std.specs.Prelude.{◌≡◌, ◌^◌, ◌≤◌, ◌<◌, replicate};
ghost use Rattle.numerals.specs.Limits.{most_bits, most_suffixes};
ghost use Rattle.numerals.specs.Suffix.{Places};
ghost use Rattle.expansion.specs.FirstMatch.{nobody};
ghost use Rattle.packing.specs.Count.{own_rules};
ghost use Rattle.sheets.specs.Inner.TableNumbers.{lines_in};
ghost use Rattle.stages.specs.Inner.Spread.{Spread, Covered, LinesOf};

use numerals::{MOST_BITS, MOST_SUFFIXES};

// The suffixes that a rule matches go to its backend: their places are one run. The listing of places is a clause: the type that carries
// it in expansion has a call with a `requires`, so it isn't handed out.
fn cover(
    holder: &mut [u16; MOST_SUFFIXES],
    places: &[u16; MOST_SUFFIXES],
    k: usize,
    len: usize,
    value: usize,
    backend: usize,
)
    requires k_le_most_bits { (k ≤ most_bits) × ((len ≤ k) × ((value < 2 ^ len) × (backend < 2 ^ 16))) }
    requires places { Places most_bits places.now }
    ensures { Covered k (record { len = len; value = value; backend = backend }) holder.old holder.new }
{
    let size: usize = 1 << (k - len);
    let at = ((places[value] as usize) >> (MOST_BITS - len)) * size;
    holder[at..at + size].fill(backend as u16);
}

// The backend of each k-bit suffix by first match over the lines of a service, by its tree place, into a lent listing in
// which nobody has any: the lines cover one another, the last first.
pub fn spread(
    holder: &mut [u16; MOST_SUFFIXES],
    table: &[usize],
    n: usize,
    service: usize,
    k: usize,
    places: &[u16; MOST_SUFFIXES],
)
    requires k_le_most_bits { (k ≤ most_bits) × (LinesOf k table.now n × Places most_bits places.now) }
    requires holder_value { holder.old ≡ replicate most_suffixes nobody }
    ensures { Spread k (own_rules service (lines_in table.now n)) holder.new }
{
    for i in (0..n).rev() {
        let c = 4 * i;
        if table[c] == service {
            cover(holder, places, k, table[c + 1], table[c + 2], table[c + 3]);
        }
    }
}
