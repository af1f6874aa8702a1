// The run of the expansion: rule after rule, until the list is within tolerance, gains nothing or has used its budget.
ghost use Rattle.std.specs.Prelude.{List, ◌∷◌, ◌≡◌, ℕ, suc, ◌≤◌, ◌<◌, length, get_or};
ghost use Rattle.numerals.specs.Limits.{most_bits, most_known, most_rules, most_suffixes};
ghost use Rattle.numerals.specs.Sums.{argmax};
ghost use Rattle.expansion.specs.Steps.{after, list_of};
ghost use Rattle.expansion.specs.KeptShares.{SharesKept};
ghost use Rattle.expansion.specs.declared.rule.Rule as rule;
ghost use Rattle.expansion.specs.declared.ledger.Ledger as ledger;
ghost use Rattle.expansion.specs.Inner.Ledger.{Sized};
ghost use Rattle.expansion.specs.Inner.Terms.{next_for};
ghost use Rattle.expansion.specs.Inner.Holders.{Holds};
ghost use Rattle.expansion.specs.Inner.Lists.{Listed};
ghost use Rattle.expansion.specs.Inner.Run.{framed, Fits, Shared, in_budget, Stands, Adds, Made};
ghost use Rattle.expansion.specs.Inner.Service.{frame_of, frame_for};

use crate::ledger::{Extreme, Ledger};
use crate::list::RuleList;
use crate::places::TreePlaces;
use crate::rule::{Ended, Move, Rule};
use crate::service::Service;
use numerals::{MOST_KNOWN, MOST_SUFFIXES};
use std::ops::ControlFlow;

// A list, how it ended, and the ledger kept after its last rule.
#[derive(Drop)]
pub struct Run {
    pub list: RuleList,
    pub ended: Ended,
    pub kept: Ledger,
}

// The ledger after the rules so far, the newest of them, the imbalance after them, and what comes next.
#[derive(Drop)]
pub struct State {
    pub ledger: Ledger,
    pub rule: Rule,
    pub imbalance: u64,
    pub next: ControlFlow<Ended, Move>,
}

// The backend of the largest weight, the lowest place if equal, which is the lowest id.
fn heaviest(service: &Service) -> usize
    ensures { let weights = service.now.weights.now in result ≡ argmax (λ b. get_or weights b 0) (length weights) }
{
    let weights = service.weights;
    let mut best = 0;
    for b in 1..weights.len() {
        if weights[best] < weights[b] {
            best = b;
        }
    }
    best
}

// Steps 2 to 4, for the largest excess and the largest shortfall: whether the list stops here, or the move that comes next.
fn decide(give: Extreme, take: Extreme, service: &Service, cap: usize) -> ControlFlow<Ended, Move>
    requires cap_le_most_bits { cap ≤ most_bits }
    requires sized { Sized give × Sized take }
    ensures { result ≡ next_for give take service.now.k service.now.tolerance cap }
{
    let slack = (service.tolerance * (1 << service.k)) as i64;
    let o = give.size;
    let u = take.size;
    if o <= slack && u <= slack {
        return ControlFlow::Break(Ended::Within);
    }
    let term = crate::term::best_term(u, o, cap);
    if term.reduction <= 0 {
        return ControlFlow::Break(Ended::NoGain);
    }
    ControlFlow::Continue(Move {
        giver: give.backend,
        receiver: take.backend,
        index: term.index,
    })
}

// Step 6: the move is made, and its rule is the newest. Of the ledger only the entries of giver and receiver change. What a state stands for
// is a clause: it depends on two lent buffers beside it.
fn advance(
    holder: &mut [u16; MOST_SUFFIXES],
    low: &mut [u16; MOST_KNOWN],
    places: &TreePlaces,
    service: &Service,
    state: State,
    m: Move,
) -> State
    requires by_index { (cap : ℕ) × (x : ℕ) × (start : List rule.Rule)
        × Stands (frame_for service.now cap start) x holder.old low.old state }
    requires next { state.next ≡ ControlFlow.Continue m }
    ensures { (cap x : ℕ) (start : List rule.Rule) → let F = frame_for service.now cap start
        in Stands F x holder.old low.old state → Stands F (suc x) holder.new low.new result
        × Adds F x result.rule × SharesKept F.targets (result.rule ∷ after F x) (length (after F x)) state.ledger result.ledger }
{
    let k = service.k;
    let receiver = m.receiver;
    let label = service.labels[receiver];
    let value = crate::holders::hand_over(holder, low, places, k, m);
    let before = state.ledger;
    let ledger = crate::ledger::moved(before, m.giver, m.receiver, 1 << m.index);
    let seen = crate::ledger::survey_of(ledger, service);
    State {
        ledger,
        rule: Rule {
            len: k - m.index,
            value,
            backend: label,
        },
        imbalance: seen.imbalance,
        // terms never grow along a list
        next: decide(seen.give, seen.take, service, m.index),
    }
}

// The state at a start: rules, the newest of them `newest`, after which each backend holds its share. A call that LLVM doesn't
// inline copies the state once more.
#[inline]
pub fn begin(service: &Service, shares: &[u64; MOST_KNOWN], cap: usize, newest: Rule) -> State
    requires { (labels : List ℕ) × (start : List rule.Rule)
        × let F = framed service.now.k cap service.now.tolerance labels service.now.weights.now start in Fits F × Shared F shares.now }
    ensures stands { (labels : List ℕ) (start : List rule.Rule) (holder low : List ℕ)
        → let F = framed service.now.k cap service.now.tolerance labels service.now.weights.now start in Fits F → Shared F shares.now
        → Holds F.targets start holder low → length holder ≡ most_suffixes → length low ≡ most_known → Stands F 0 holder low result }
    ensures newest { result.rule ≡ newest }
{
    let ledger = crate::ledger::opened(service, shares);
    let seen = crate::ledger::survey_of(ledger, service);
    State {
        ledger,
        rule: newest,
        imbalance: seen.imbalance,
        next: decide(seen.give, seen.take, service, cap),
    }
}

// Step 5: a move that comes after `count` rules is made only if the budget has room for its rule. A list that stopped before
// step 5 stays as it ended.
fn in_budget(
    next: ControlFlow<Ended, Move>,
    count: usize,
    budget: usize,
) -> ControlFlow<Ended, Move>
    ensures { result ≡ in_budget next count budget }
{
    if count < budget {
        return next;
    }
    match next {
        ControlFlow::Break(ended) => ControlFlow::Break(ended),
        ControlFlow::Continue(_) => ControlFlow::Break(Ended::Budget),
    }
}

// The list from where it stands to its end: turn after turn, as long as the budget has room, the shares kept as it goes.
pub fn go_on(
    holder: &mut [u16; MOST_SUFFIXES],
    low: &mut [u16; MOST_KNOWN],
    places: &TreePlaces,
    service: &Service,
    mut state: State,
    mut list: RuleList,
    budget: usize,
) -> Run
    requires by_index { (cap : ℕ) × (x : ℕ) × (start : List rule.Rule) × let F = frame_for service.now cap start
        in Stands F x holder.old low.old state × Listed F x list }
    requires count_le_budget { (list.count ≤ budget) × (budget ≤ most_rules) }
    ensures { (cap x : ℕ) (start : List rule.Rule) → let F = frame_for service.now cap start
        in Stands F x holder.old low.old state → Listed F x list → Made F budget result
        × (SharesKept F.targets (list_of F budget) list.count state.ledger result.kept
        × Holds F.targets (list_of F budget) holder.new low.new) }
{
    // no index is counted: the state says when the list ends
    loop {
        let n = list.count;
        let wanted = state.next;
        let next = in_budget(wanted, n, budget);
        match next {
            ControlFlow::Break(ended) => {
                let kept = state.ledger;
                return Run { list, ended, kept };
            }
            ControlFlow::Continue(m) => {
                state = advance(holder, low, places, service, state, m);
                let rule = state.rule;
                list.push(rule, state.imbalance);
            }
        }
    }
}

// The list of a budget, for numbers that were checked. Step 1: everything goes to the largest weight.
pub fn make_list(service: &Service, budget: usize) -> Run
    requires { (1 ≤ budget) × (budget ≤ most_rules) }
    ensures made { Made (frame_of service.now) budget result }
    ensures kept { let F = frame_of service.now
        in (L : ledger.Ledger) × SharesKept F.targets (list_of F budget) 1 L result.kept }
{
    let k = service.k;
    let all = numerals::all_places();
    let places = TreePlaces { of_twelve: &all };
    let first = heaviest(service);
    let star = Rule {
        len: 0,
        value: 0,
        backend: service.labels[first],
    };
    let mut shares = [0u64; MOST_KNOWN];
    shares[first] = 1 << k;
    let mut holder = [first as u16; MOST_SUFFIXES];
    let mut low = [0u16; MOST_KNOWN];
    let state = begin(service, &shares, k - 1, star);
    let list = crate::list::of_one(star, state.imbalance);
    go_on(&mut holder, &mut low, &places, service, state, list, budget)
}
