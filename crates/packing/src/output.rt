// What is written into the lent buffers: three figures for each service, four numbers for each line of the table.
// Into lent buffers, not through Display: no heap, and each byte is proved.
ghost use Rattle.std.specs.Prelude.{◌≡◌, [], ◌∷◌, ◌+◌, ◌*◌, ◌≤◌, ◌<◌, length};
ghost use Rattle.std.proofs.lemmas.List.Edits.{sets};
ghost use Rattle.numerals.specs.Limits.{most_services, most_rules};
ghost use Rattle.numerals.specs.Sums.{sum_to};
ghost use Rattle.numerals.specs.Buffer.{filled};
ghost use Rattle.packing.specs.Answer.{written, is_made};
ghost use Rattle.packing.specs.Inner.Stored.{stored_total, stored_figures, stored_lines, stored_cells, stored_table};

use crate::answer::{NotPacked, Packed};
use crate::grants::Priced;
use crate::lists::STRIDE;
use numerals::{MOST_SERVICES, Refusal};

// Three numbers from position `at` on.
fn write_three(out: &mut [usize], at: usize, a: usize, b: usize, c: usize)
    requires { at + 3 ≤ length out.old }
    ensures { out.new ≡ sets out.old at (a ∷ b ∷ c ∷ []) }
{
    out[at] = a;
    out[at + 1] = b;
    out[at + 2] = c;
}

// Of each service its grant, the length of its list and how the list ended.
fn write_figures(figures: &mut [usize], priced: &Priced<'_>, grants: &[usize; MOST_SERVICES])
    requires { 3 * length priced.now.volumes.now ≤ length figures.old }
    ensures { figures.new ≡ sets figures.old 0
        (stored_figures grants.now priced.now.counts.now priced.now.ends.now (length priced.now.volumes.now)) }
{
    for s in 0..priced.volumes.len() {
        write_three(figures, 3 * s, grants[s], priced.counts[s], priced.ends[s]);
    }
}

// So many lines of one service from position `at` on, the newest rule first.
fn write_service(table: &mut [usize], at: usize, s: usize, lines: usize, priced: &Priced<'_>)
    requires { (at + 4 * lines ≤ length table.old) × (s < most_services) × (lines ≤ most_rules) }
    ensures { table.new ≡ sets table.old at
        (stored_cells priced.now.lens.now priced.now.values.now priced.now.backends.now s lines) }
{
    for line in 0..lines {
        let from = STRIDE * s + (lines - line);
        let i = at + 4 * line;
        table[i] = s + 1;
        write_three(
            table,
            i + 1,
            priced.lens[from],
            priced.values[from],
            priced.backends[from],
        );
    }
}

// The lines of all services, ascending.
fn write_lines(table: &mut [usize], priced: &Priced<'_>, grants: &[usize; MOST_SERVICES])
    requires { 4 * sum_to (length priced.now.volumes.now) (stored_lines grants.now priced.now.counts.now)
        ≤ length table.old }
    ensures { table.new ≡ sets table.old 0
        (stored_table (stored_lines grants.now priced.now.counts.now)
        priced.now.lens.now priced.now.values.now priced.now.backends.now (length priced.now.volumes.now)) }
{
    let mut at = 0;
    for s in 0..priced.volumes.len() {
        let lines = grants[s].min(priced.counts[s]);
        write_service(table, at, s, lines, priced);
        at += 4 * lines;
    }
}

// The figures and the table, where both lent buffers have room for them; else 7, and nothing is written.
pub fn write_out(
    figures: &mut [usize],
    table: &mut [usize],
    priced: &Priced<'_>,
    grants: &[usize; MOST_SERVICES],
) -> Result<Packed, NotPacked>
    ensures answer { result ≡ written
        (record {
          rules = sum_to (length priced.now.volumes.now) (stored_lines grants.now priced.now.counts.now);
          total = stored_total priced.now.volumes.now
              priced.now.stairs.now priced.now.counts.now grants.now;
        })
        (length priced.now.volumes.now) (length figures.old) (length table.old) }
    ensures figures { figures.new ≡ filled (is_made result) figures.old 0
        (stored_figures grants.now priced.now.counts.now priced.now.ends.now (length priced.now.volumes.now)) }
    ensures table { table.new ≡ filled (is_made result) table.old 0
        (stored_table (stored_lines grants.now priced.now.counts.now)
        priced.now.lens.now priced.now.values.now priced.now.backends.now (length priced.now.volumes.now)) }
{
    let rules = priced.all_lines(grants);
    let total = priced.total_cost(grants);
    if figures.len() < 3 * priced.volumes.len() {
        return Err(NotPacked {
            why: Refusal::ShortLoan,
            buffer: 1,
        });
    }
    if table.len() < 4 * rules {
        return Err(NotPacked {
            why: Refusal::ShortLoan,
            buffer: 2,
        });
    }
    write_figures(figures, priced, grants);
    write_lines(table, priced, grants);
    Ok(Packed { rules, total })
}
