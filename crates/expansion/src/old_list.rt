// An old list in numbers, as its rule sheet would have it: the newest rule first, of each the length and the value of its
// suffix and the id of its backend. It is checked as its sheet would be.
ghost use Rattle.std.specs.Prelude.{◌≡◌, ◌*◌, ◌/◌, ◌≤◌, ◌<◌, length};
ghost use Rattle.std.proofs.lemmas.List.Edits.{sets};
ghost use Rattle.numerals.specs.Limits.{most_bits};
ghost use Rattle.expansion.specs.OldList.{numbers_of, is_proper, check_rules};
ghost use Rattle.expansion.specs.Resume.{check_old};
ghost use Rattle.expansion.specs.Inner.Lists.{newest_first};
ghost use Rattle.expansion.specs.Inner.OldList.{rule_at};

use crate::list::RuleList;
use crate::rule::Rule;
use numerals::{MOST_BITS, MOST_ID, MOST_RULES, Refusal, UNIT};

// The numbers of a rule.
pub const PER_RULE: usize = 3;
// The numbers of the longest list.
pub const MOST_NUMBERS: usize = PER_RULE * MOST_RULES;

// Rule i of those in numbers.
pub fn rule_at(old: &[usize], i: usize) -> Rule
    requires { i < length old.now / 3 }
    ensures { result ≡ rule_at old.now i }
{
    let at = PER_RULE * i;
    Rule {
        len: old[at],
        value: old[at + 1],
        backend: old[at + 2],
    }
}

// The numbers of a rule are within the limits of a rule line.
fn is_proper(k: usize, rule: Rule) -> bool
    requires { k ≤ most_bits }
    ensures { result ≡ is_proper k rule }
{
    rule.len <= k && rule.value < 1 << rule.len && (1..=MOST_ID).contains(&rule.backend)
}

// Rule by rule, then the end: numbers left over are a last rule of too few.
fn check_rules(k: usize, old: &[usize]) -> Result<(), Refusal>
    requires { k ≤ most_bits }
    ensures { result ≡ check_rules k 0 k old.now }
{
    let mut last = k;
    for i in 0..old.len() / PER_RULE {
        let rule = rule_at(old, i);
        if !is_proper(k, rule) {
            return Err(Refusal::BadField);
        }
        if MOST_RULES <= i {
            return Err(Refusal::TooMany);
        }
        if last == 0 {
            return Err(Refusal::Order);
        }
        if last < rule.len {
            return Err(Refusal::Order);
        }
        last = rule.len;
    }
    if old.len() % PER_RULE != 0 {
        return Err(Refusal::Malformed);
    }
    if last == 0 {
        Ok(())
    } else {
        Err(Refusal::Order)
    }
}

// k, tolerance, the old list, then the ids and weights.
#[tactic(auto, unfolding(crate::specs::Resume::check_old, crate::specs::OldList::check_list, crate::specs::Answer::in_limits, numerals::specs::Limits::unit))]
pub fn check_old(
    k: usize,
    tolerance: u64,
    old: &[usize],
    ids: &[usize],
    weights: &[u64],
) -> Result<(), Refusal>
    ensures { result ≡ check_old k tolerance old.now ids.now weights.now }
{
    if !(1..=MOST_BITS).contains(&k) {
        return Err(Refusal::BadField);
    }
    if UNIT < tolerance {
        return Err(Refusal::BadField);
    }
    if old.len() == 0 {
        return Err(Refusal::BadField);
    }
    check_rules(k, old)?;
    crate::call::check_weights(ids, weights)
}

// The rules of a list in numbers, the newest first, into a lent buffer that has room for them.
pub fn store_rules(list: RuleList, out: &mut [usize])
    requires { 3 * list.count ≤ length out.old }
    ensures { out.new ≡ sets out.old 0 (numbers_of (newest_first list.rules list.count)) }
{
    let n = list.count;
    for i in 0..n {
        let rule = list.rules[n - 1 - i];
        let at = PER_RULE * i;
        out[at] = rule.len;
        out[at + 1] = rule.value;
        out[at + 2] = rule.backend;
    }
}
