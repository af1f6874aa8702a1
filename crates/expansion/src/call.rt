// The expansion without a text, into lent buffers.
ghost use Rattle.std.specs.Prelude.{◌≡◌, map, suc, ◌+◌, ◌≤◌, min, leb, length, take};
ghost use Rattle.std.proofs.lemmas.List.Edits.{sets};
ghost use Rattle.numerals.specs.Limits.{most_id, unit};
ghost use Rattle.numerals.specs.Pick.{both};
ghost use Rattle.numerals.specs.Buffer.{filled};
ghost use Rattle.expansion.specs.Answer.{in_limits, check_weights, check_call, answer, is_made, lens_made, values_made, backends_made, stairs_made};

use crate::list::RuleList;
use crate::rule::Record;
use crate::service::Service;
use numerals::{MOST_BACKENDS, MOST_BITS, MOST_ID, MOST_RULES, Refusal, UNIT};

// The backends: 1 to MOST_BACKENDS of them, an id for each weight; ids ascend, and each weight is at most the unit, which they
// sum to.
#[tactic(auto, unfolding(crate::specs::Answer::check_weights, numerals::specs::Limits::unit))]
pub fn check_weights(ids: &[usize], weights: &[u64]) -> Result<(), Refusal>
    ensures { result ≡ check_weights ids.now weights.now }
{
    let n = weights.len();
    if n == 0 {
        return Err(Refusal::BadField);
    }
    if MOST_BACKENDS < n {
        return Err(Refusal::TooMany);
    }
    if ids.len() != n {
        return Err(Refusal::Malformed);
    }
    let mut sum: u64 = 0;
    let mut before = 0;
    for (b, w) in weights.iter().enumerate() {
        let id = ids[b];
        if !is_backend(before, id, *w) {
            return Err(Refusal::BadField);
        }
        before = id;
        sum += *w;
    }
    if sum == UNIT {
        Ok(())
    } else {
        Err(Refusal::Unbalanced)
    }
}

// Whether a backend may stand behind one with the id `before`.
#[tactic(auto, unfolding(crate::specs::Answer::in_limits, numerals::specs::Limits::unit))]
fn is_backend(before: usize, id: usize, weight: u64) -> bool
    ensures { result ≡ both (in_limits (suc before) most_id id) (leb weight unit) }
{
    before < id && id <= MOST_ID && weight <= UNIT
}

// k, tolerance and budget, then the backends.
#[tactic(auto, unfolding(crate::specs::Answer::check_call, crate::specs::Answer::in_limits, numerals::specs::Limits::unit))]
fn check_call(
    k: usize,
    tolerance: u64,
    budget: usize,
    ids: &[usize],
    weights: &[u64],
) -> Result<(), Refusal>
    ensures { result ≡ check_call k tolerance budget ids.now weights.now }
{
    if !(1..=MOST_BITS).contains(&k) {
        return Err(Refusal::BadField);
    }
    if UNIT < tolerance {
        return Err(Refusal::BadField);
    }
    if !(1..=MOST_RULES).contains(&budget) {
        return Err(Refusal::BadField);
    }
    check_weights(ids, weights)
}

// The rules and stairs of a list, copied into lent buffers from a position on; there is room for them.
fn copy_out(
    list: RuleList,
    at: usize,
    lens: &mut [usize],
    values: &mut [usize],
    backends: &mut [usize],
    stairs: &mut [u64],
)
    requires { (at + list.count ≤ length lens.old) × ((at + list.count ≤ length values.old)
        × ((at + list.count ≤ length backends.old) × (at + list.count ≤ length stairs.old))) }
    ensures lens { lens.new ≡ sets lens.old at (map (λ r. r.len) (take list.count list.rules)) }
    ensures values { values.new ≡ sets values.old at (map (λ r. r.value) (take list.count list.rules)) }
    ensures backends { backends.new ≡ sets backends.old at (map (λ r. r.backend) (take list.count list.rules)) }
    ensures stairs { stairs.new ≡ sets stairs.old at (take list.count list.stairs) }
{
    let n = list.count;
    for i in 0..n {
        let rule = list.rules[i];
        lens[at + i] = rule.len;
        values[at + i] = rule.value;
        backends[at + i] = rule.backend;
    }
    stairs[at..at + n].copy_from_slice(&list.stairs[..n]);
}

// Whether a buffer of `len` places has room for n more from a position on.
fn has_room(len: usize, at: usize, n: usize) -> bool
    ensures { result ≡ leb (at + n) len }
{
    at <= len && n <= len - at
}

// The list of one service: its rules, the oldest first, by length, value and id of the backend, and the
// imbalance after each, into lent buffers from a position on.
pub fn expand(
    k: usize,
    tolerance: u64,
    budget: usize,
    ids: &[usize],
    weights: &[u64],
    at: usize,
    lens: &mut [usize],
    values: &mut [usize],
    backends: &mut [usize],
    stairs: &mut [u64],
) -> Result<Record, Refusal>
    ensures answer { result ≡ answer k tolerance budget ids.now weights.now at
        (min (min (length lens.old) (length values.old)) (min (length backends.old) (length stairs.old))) }
    ensures lens { lens.new ≡ filled (is_made result) lens.old at
        (lens_made k tolerance budget ids.now weights.now) }
    ensures values { values.new ≡ filled (is_made result) values.old at
        (values_made k tolerance budget ids.now weights.now) }
    ensures backends { backends.new ≡ filled (is_made result) backends.old at
        (backends_made k tolerance budget ids.now weights.now) }
    ensures stairs { stairs.new ≡ filled (is_made result) stairs.old at
        (stairs_made k tolerance budget ids.now weights.now) }
{
    check_call(k, tolerance, budget, ids, weights)?;
    let service = Service {
        k,
        tolerance,
        labels: ids,
        weights,
    };
    let made = crate::run::make_list(&service, budget);
    let list = made.list;
    let ended = made.ended;
    let n = list.count;
    let rules = lens.len().min(values.len());
    let ends = backends.len().min(stairs.len());
    if !has_room(rules.min(ends), at, n) {
        return Err(Refusal::ShortLoan);
    }
    copy_out(list, at, lens, values, backends, stairs);
    Ok(Record { ended, rules: n })
}
