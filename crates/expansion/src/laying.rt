// Kept rules laid on the tree, the oldest first, and taken back: who holds which suffix after them and how many each backend
// holds, and the largest term that they allow.
ghost use Rattle.std.specs.Prelude.{List, ◌∷◌, ◌≡◌, true, ℕ, ◌-◌, ◌*◌, ◌^◌, ◌≤◌};
ghost use Rattle.numerals.specs.Suffix.{place};
ghost use Rattle.expansion.specs.FirstMatch.{is_rule};
ghost use Rattle.expansion.specs.Resume.{longest, cap_from};
ghost use Rattle.expansion.specs.Inner.Holders.{Given};
ghost use Rattle.expansion.specs.Inner.Known.{Ascending};
ghost use Rattle.expansion.specs.Inner.Laying.{passed_on, Passable, Held, Had};
ghost use Rattle.expansion.specs.Inner.Lists.{newest_first};
ghost use Rattle.expansion.specs.Inner.OldList.{Known};
ghost use Rattle.expansion.specs.Inner.Sound.{Lengths};
ghost use Rattle.expansion.specs.declared.rule.Rule as rules;

use crate::list::RuleList;
use crate::places::TreePlaces;
use crate::rule::Rule;
use crate::service::Service;
use numerals::{MOST_KNOWN, MOST_SUFFIXES};

// The places of a suffix go from one backend to another, and the counts with them.
fn pass_on(
    holder: &mut [u16; MOST_SUFFIXES],
    shares: &mut [u64; MOST_KNOWN],
    at: usize,
    size: usize,
    from: usize,
    to: usize,
)
    requires { Passable holder.old shares.old at size from to }
    ensures holder { Given at size to holder.old holder.new }
    ensures shares { shares.new ≡ passed_on shares.old from to size }
{
    crate::holders::give(holder, at, size, to as u16);
    shares[from] -= size as u64;
    shares[to] += size as u64;
}

// The first tree place of a rule's suffix.
fn first_place(places: &TreePlaces, service: &Service, rule: Rule) -> usize
    requires { is_rule service.now.k rule ≡ true }
    ensures { result ≡ place rule.len rule.value * 2 ^ (service.now.k - rule.len) }
{
    let size: usize = 1 << (service.k - rule.len);
    places.suffix(rule.len, rule.value) * size
}

// One rule more: its suffix goes to its backend. Answers the one that had it wholly: no rule behind has a longer suffix.
pub fn lay(
    holder: &mut [u16; MOST_SUFFIXES],
    shares: &mut [u64; MOST_KNOWN],
    places: &TreePlaces,
    service: &Service,
    rule: Rule,
) -> usize
    requires held { (rs : List rules.Rule) × (Held service.now.k service.now.labels.now rs holder.old shares.old × Lengths rule.len rs) }
    requires ascending { Ascending service.now.labels.now }
    requires known { Known service.now.k service.now.labels.now rule }
    ensures { let s = service.now in (rs : List rules.Rule) → Held s.k s.labels.now rs holder.old shares.old → Lengths rule.len rs
        → Held s.k s.labels.now (rule ∷ rs) holder.new shares.new × Had s.k s.labels.now rs rule result }
{
    let k = service.k;
    let ids = service.labels;
    let to = crate::known::place_of(ids, ids.len(), rule.backend);
    let at = first_place(places, service, rule);
    let had = holder[at] as usize;
    pass_on(holder, shares, at, 1 << (k - rule.len), had, to);
    had
}

// The newest rule is taken back: its suffix goes to the backend that had it.
pub fn take_back(
    holder: &mut [u16; MOST_SUFFIXES],
    shares: &mut [u64; MOST_KNOWN],
    places: &TreePlaces,
    service: &Service,
    rule: Rule,
    had: usize,
)
    requires by_index { let k = service.now.k in (labels : List ℕ) × (rs : List rules.Rule)
        × (Ascending labels × (Held k labels (rule ∷ rs) holder.old shares.old × Had k labels rs rule had)) }
    requires formed { is_rule service.now.k rule ≡ true }
    ensures { let k = service.now.k in (labels : List ℕ) (rs : List rules.Rule) → Ascending labels
        → Held k labels (rule ∷ rs) holder.old shares.old → Had k labels rs rule had → Held k labels rs holder.new shares.new }
{
    let k = service.k;
    let at = first_place(places, service, rule);
    let from = holder[at] as usize;
    pass_on(holder, shares, at, 1 << (k - rule.len), from, had);
}

// The length of the longest suffix of a list's rules.
fn longest_of(list: RuleList) -> usize
    ensures { result ≡ longest (newest_first list.rules list.count) }
{
    list.rules[..list.count]
        .iter()
        .map(|rule| rule.len)
        .max()
        .unwrap_or(0)
}

// No term may exceed the smallest kept suffix or half the tree.
pub fn cap_from(service: &Service, list: RuleList) -> usize
    requires { longest (newest_first list.rules list.count) ≤ service.now.k }
    ensures { result ≡ cap_from service.now.k (newest_first list.rules list.count) }
{
    let k = service.k;
    let longest = longest_of(list);
    if longest == 0 {
        return k - 1;
    }
    k - longest
}
