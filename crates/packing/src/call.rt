// The packing of services into one table, into lent buffers.
ghost use Rattle.std.specs.Prelude.{◌≡◌, length, IfOk};
ghost use Rattle.numerals.specs.Buffer.{filled};
ghost use Rattle.packing.specs.Answer as specified;

use crate::answer::{NotPacked, Packed};
use crate::grants::Priced;
use crate::lists::PLACES;

// The services' grants and table. `figures` takes three numbers for each service: its grant, the length of its list
// and how the list ended (within 0, no gain 1, budget 2). `table` takes four for each line: the number of its service,
// from 1, the length and the value of its suffix, and the id of its backend.
pub fn pack(
    k: usize,
    tolerance: u64,
    capacity: usize,
    volumes: &[u64],
    sizes: &[usize],
    ids: &[usize],
    weights: &[u64],
    figures: &mut [usize],
    table: &mut [usize],
) -> Result<Packed, NotPacked>
    ensures answer { result ≡ specified.answer k tolerance capacity
        volumes.now sizes.now ids.now weights.now
        (length figures.old) (length table.old) }
    ensures figures { figures.new ≡ filled (specified.is_made result) figures.old 0
        (specified.figures_of k tolerance capacity
        volumes.now sizes.now ids.now weights.now) }
    ensures table { table.new ≡ filled (specified.is_made result) table.old 0
        (specified.cells_of k tolerance capacity
        volumes.now sizes.now ids.now weights.now) }
    ensures demand { IfOk result (λ p.
        specified.Demanded k tolerance capacity
        volumes.now sizes.now ids.now weights.now p.total) }
{
    crate::check::check_all(k, tolerance, capacity, volumes, sizes, ids, weights)?;
    // what stands there first means nothing; ones are stored by the word, zeros by the byte
    let mut lens = [1usize; PLACES];
    let mut values = [1usize; PLACES];
    let mut backends = [1usize; PLACES];
    let mut stairs = [1u64; PLACES];
    let mut counts = [0usize; numerals::MOST_SERVICES];
    let mut ends = [0usize; numerals::MOST_SERVICES];
    crate::lists::make_lists(
        k,
        tolerance,
        sizes,
        ids,
        weights,
        &mut lens,
        &mut values,
        &mut backends,
        &mut stairs,
        &mut counts,
        &mut ends,
    );
    let mut grants = [1usize; numerals::MOST_SERVICES]; // each service is granted one rule
    let priced = Priced {
        volumes,
        lens: &lens,
        values: &values,
        backends: &backends,
        stairs: &stairs,
        counts: &counts,
        ends: &ends,
    };
    priced.grant_all(capacity, &mut grants);
    crate::output::write_out(figures, table, &priced, &grants)
}
