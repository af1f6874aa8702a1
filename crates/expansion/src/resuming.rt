// The expansion from kept rules: of an old list the oldest rules are kept, and the steps go on for new weights.
ghost use Rattle.std.specs.Prelude.{List, ◌≡◌, ℕ, ◌≤◌, length, Ok};
ghost use Rattle.numerals.specs.Buffer.{filled};
ghost use Rattle.expansion.specs.Steps.{oldest, list_of};
ghost use Rattle.expansion.specs.KeptShares.{SharesKept};
ghost use Rattle.expansion.specs.Known.{targets_known};
ghost use Rattle.expansion.specs.OldList.{rules_from};
ghost use Rattle.expansion.specs.Resume.{frame_from, check_old, numbers_resumed, resume_answer, is_resumed};
ghost use Rattle.expansion.specs.Inner.Holders.{Holds};
ghost use Rattle.expansion.specs.Inner.Lists.{newest_first};
ghost use Rattle.expansion.specs.Inner.OldList.{Proper};
ghost use Rattle.expansion.specs.Inner.Known.{Ascending};
ghost use Rattle.expansion.specs.Inner.Run.{Made};
ghost use Rattle.expansion.specs.Inner.Service.{targets_for};
ghost use Rattle.expansion.specs.Inner.Laying.{Held, LaidTo, Starts};
ghost use Rattle.expansion.specs.Inner.Resume.{Found, Tried, is_lower};
ghost use Rattle.expansion.specs.declared.ledger.Ledger as ledger;
ghost use Rattle.expansion.specs.declared.rule.Rule as rule;

use crate::list::RuleList;
use crate::old_list::PER_RULE;
use crate::places::TreePlaces;
use crate::rule::Ended;
use crate::run::Run;
use crate::service::Service;
use numerals::{MOST_KNOWN, MOST_RULES, MOST_SUFFIXES, Refusal};

// How many of the oldest rules were kept, how many rules the new list has, and how many of the 2^k suffixes it gives to
// another backend than the old one.
#[derive(Drop)]
pub struct Kept {
    pub kept: usize,
    pub rules: usize,
    pub churn: usize,
}

// The rules of an old list, the oldest first, and for each but the `*` the backend that had its suffix before.
#[derive(Drop)]
pub struct Laid {
    pub list: RuleList,
    pub had: [usize; MOST_RULES],
}

// A number of kept rules that was tried and ended within tolerance: the list that it came to and its churn.
#[derive(Drop)]
pub struct Attempt {
    pub kept: usize,
    pub churn: usize,
    pub list: RuleList,
}

// The list from kept rules on, for numbers that were checked. Who holds which suffix goes along.
fn run_kept(
    holder: &mut [u16; MOST_SUFFIXES],
    shares: &[u64; MOST_KNOWN],
    places: &TreePlaces,
    service: &Service,
    kept: RuleList,
    budget: usize,
) -> Run
    requires { Starts service.now kept holder.old shares.now budget }
    ensures made { Made (frame_from (targets_for service.now) service.now.tolerance (newest_first kept.rules kept.count)) budget result }
    ensures shares { let F = frame_from (targets_for service.now) service.now.tolerance
        (newest_first kept.rules kept.count) in (L : ledger.Ledger) × SharesKept F.targets (list_of F budget) kept.count L result.kept }
    ensures holds { let F = frame_from (targets_for service.now) service.now.tolerance
        (newest_first kept.rules kept.count) in (low : List ℕ) × Holds F.targets (list_of F budget) holder.new low }
{
    let mut list = kept;
    let mut low = [0u16; MOST_KNOWN];
    let cap = crate::laying::cap_from(service, kept);
    let last = kept.count - 1;
    let newest = list.rules[last];
    let state = crate::run::begin(service, shares, cap, newest);
    list.stairs[last] = state.imbalance;
    crate::run::go_on(holder, &mut low, places, service, state, list, budget)
}

// One number of kept rules. Where too many backends are beyond the tolerance, the list can't end within and isn't run. The
// holders go by value: the next try starts from them again.
fn try_kept(
    whole: &[u16; MOST_SUFFIXES],
    holder: [u16; MOST_SUFFIXES],
    shares: &[u64; MOST_KNOWN],
    places: &TreePlaces,
    service: &Service,
    list: RuleList,
    budget: usize,
) -> Option<Attempt>
    requires { Starts service.now list holder shares.now budget }
    ensures { (old : List rule.Rule) (held : List ℕ) → Held service.now.k service.now.labels.now old whole.now held
        → Tried (frame_from (targets_for service.now) service.now.tolerance (newest_first list.rules list.count)) budget
        list.count old result }
{
    let kept = list.count;
    if crate::hopeless::is_hopeless(service, shares, budget - kept) {
        return None;
    }
    let mut work = holder;
    let run = run_kept(&mut work, shares, places, service, list, budget);
    let ended = run.ended;
    match ended {
        Ended::Within => {
            let churn = crate::churning::count_unlike(whole, &work, service.k);
            let list = run.list;
            Some(Attempt { kept, churn, list })
        }
        Ended::NoGain | Ended::Budget => None,
    }
}

// Whether an attempt with such a churn is better than the best of those that keep more rules: there is none of these or its
// churn is higher.
fn is_better(churn: usize, best: &Option<Attempt>) -> bool
    ensures { result ≡ is_lower churn best.now }
{
    match best {
        Some(best) => churn < best.churn,
        None => true,
    }
}

// All rules of an old list laid on top of its `*`.
fn lay_all(
    holder: &mut [u16; MOST_SUFFIXES],
    shares: &mut [u64; MOST_KNOWN],
    places: &TreePlaces,
    service: &Service,
    old: &[usize],
) -> Laid
    requires ascending { Ascending service.now.labels.now }
    requires proper { Proper service.now.k service.now.labels.now (rules_from old.now) }
    requires held { Held service.now.k service.now.labels.now (oldest 1 (rules_from old.now)) holder.old shares.old }
    ensures count { result.list.count ≡ length (rules_from old.now) }
    ensures laid { let R = rules_from old.now
        in LaidTo service.now.k service.now.labels.now R (length R) holder.new shares.new result.list.rules result.had }
{
    let n = old.len() / PER_RULE;
    let star = crate::old_list::rule_at(old, n - 1);
    let mut list = crate::list::of_one(star, 0);
    let mut had = [0usize; MOST_RULES];
    for i in 1..n {
        let rule = crate::old_list::rule_at(old, n - 1 - i);
        had[i] = crate::laying::lay(holder, shares, places, service, rule);
        list.push(rule, 0);
    }
    Laid { list, had }
}

// Of the numbers of kept rules whose lists end within tolerance, the one with the lowest churn, the largest if equal. All rules
// are laid, and the newest is taken back before each further try. Nothing is lower than a churn of 0.
fn search(service: &Service, old: &[usize]) -> Option<Attempt>
    requires ascending { Ascending service.now.labels.now }
    requires proper { Proper service.now.k service.now.labels.now (rules_from old.now) }
    ensures { Found (targets_for service.now) service.now.tolerance (rules_from old.now) result }
{
    let k = service.k;
    let ids = service.labels;
    let n = old.len() / PER_RULE;
    let all = numerals::all_places();
    let places = TreePlaces { of_twelve: &all };
    let star = crate::old_list::rule_at(old, n - 1);
    let first = crate::known::place_of(ids, ids.len(), star.backend);
    let mut holder = [first as u16; MOST_SUFFIXES];
    let mut shares = [0u64; MOST_KNOWN];
    shares[first] = 1 << k;
    let laid = lay_all(&mut holder, &mut shares, &places, service, old);
    let mut list = laid.list;
    let had = laid.had;
    let whole = holder;
    let mut best = None;
    for left in (0..n).rev() {
        let tried = try_kept(&whole, holder, &shares, &places, service, list, n);
        if let Some(tried) = tried {
            let churn = tried.churn;
            if is_better(churn, &best) {
                best = Some(tried);
                if churn == 0 {
                    return best;
                }
            }
        }
        if left == 0 {
            return best;
        }
        let rule = list.rules[left];
        crate::laying::take_back(&mut holder, &mut shares, &places, service, rule, had[left]);
        list.keep(left);
    }
    best
}

// The same for an old list and new weights: first the backends that are known, then the search among them.
fn find_best(
    k: usize,
    tolerance: u64,
    old: &[usize],
    ids: &[usize],
    weights: &[u64],
) -> Option<Attempt>
    requires { check_old k tolerance old.now ids.now weights.now ≡ Ok tt }
    ensures { let R = rules_from old.now in Found (targets_known k R ids.now weights.now) tolerance R result }
{
    let mut known = [0usize; MOST_KNOWN];
    let mut wanted = [0u64; MOST_KNOWN];
    let n = crate::known::know(old, ids, weights, &mut known, &mut wanted);
    let service = Service {
        k,
        tolerance,
        labels: &known[..n],
        weights: &wanted[..n],
    };
    search(&service, old)
}

// Of an old list in numbers, the newest rule first, the oldest rules are kept, and the steps of document 01 go on from there,
// for new weights, to a list that is within tolerance and has no more rules than the old one: of all numbers of kept rules for
// which this can be had, the one with the lowest churn, the largest if equal. Backends are matched by id. The new list in
// numbers, the newest rule first, into a lent buffer.
pub fn resume(
    k: usize,
    tolerance: u64,
    old: &[usize],
    ids: &[usize],
    weights: &[u64],
    rules: &mut [usize],
) -> Result<Kept, Refusal>
    ensures answer { result ≡ resume_answer k tolerance ids.now weights.now old.now (length rules.old) }
    ensures rules { rules.new ≡ filled (is_resumed result) rules.old 0
        (numbers_resumed k tolerance ids.now weights.now old.now) }
{
    crate::old_list::check_old(k, tolerance, old, ids, weights)?;
    let best = find_best(k, tolerance, old, ids, weights).ok_or(Refusal::Stuck)?;
    let kept = best.kept;
    let list = best.list;
    let n = list.count;
    if rules.len() < PER_RULE * n {
        return Err(Refusal::ShortLoan);
    }
    crate::old_list::store_rules(list, rules);
    Ok(Kept {
        kept,
        rules: n,
        churn: best.churn,
    })
}
