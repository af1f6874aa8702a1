// The ledger of a service: weight, share and error of each backend.
ghost use Rattle.std.specs.Prelude.{◌≡◌, ℕ, ◌≤◌, ◌<◌, pos, length, get_or};
ghost use Rattle.numerals.specs.Limits.{most_bits, most_suffixes, unit};
ghost use Rattle.expansion.specs.KeptShares.{entry_at, entry_of};
ghost use Rattle.expansion.specs.Inner.Ledger as kept;

use crate::service::Service;
use numerals::{MOST_KNOWN, UNIT};

// The ledger goes by value, so an entry is no wider than it must be.
#[derive(Clone, Copy)]
pub struct Backend {
    pub weight: u32,
    pub share: u32,
    pub error: i64,
}

#[derive(Clone, Copy)]
pub struct Ledger {
    pub at: [Backend; MOST_KNOWN],
}

// The backend of the largest excess or shortfall, and its size.
#[derive(Clone, Copy)]
pub struct Extreme {
    pub backend: usize,
    pub size: i64,
}

// The largest excess, the largest shortfall, each of the lowest place if equal, which is the lowest id, and the sum of the excesses.
#[derive(Drop)]
pub struct Survey {
    pub give: Extreme,
    pub take: Extreme,
    pub imbalance: u64,
}

// A backend that holds `share` of the 2^k suffixes.
pub fn entry(weight: u64, share: u64, k: usize) -> Backend
    requires { (k ≤ most_bits) × ((share ≤ most_suffixes) × (weight ≤ unit)) }
    ensures { result ≡ entry_of unit k weight share }
{
    Backend {
        weight: weight as u32,
        share: share as u32,
        error: (share * UNIT) as i64 - (weight * (1 << k)) as i64,
    }
}

// The ledger where each backend holds its share of the 2^k suffixes.
pub fn opened(service: &Service, shares: &[u64; MOST_KNOWN]) -> Ledger
    requires { (b : ℕ) → b < length service.now.weights.now → get_or shares.now b 0 ≤ most_suffixes }
    ensures { let s = service.now in (b : ℕ) → b < length s.weights.now → entry_at result b
        ≡ entry_of unit s.k (get_or s.weights.now b 0) (get_or shares.now b 0) }
{
    let mut ledger = Ledger {
        at: [entry(0, 0, 0); MOST_KNOWN],
    };
    for (b, w) in service.weights.iter().enumerate() {
        ledger.at[b] = entry(*w, shares[b], service.k);
    }
    ledger
}

// The extreme of the first b backends, made that of one more, whose size is given. The earlier one stays if equal.
fn raised(best: Extreme, b: usize, size: i64) -> Extreme
    requires { best.size ≡ pos (kept.over best.size) }
    ensures { kept.Raised best b size result }
{
    if best.size < size {
        Extreme { backend: b, size }
    } else {
        best
    }
}

// One walk over the backends. An error that is above zero is an excess, and otherwise a shortfall.
pub fn survey_of(ledger: Ledger, service: &Service) -> Survey
    requires { (b : ℕ) → b < length service.now.weights.now → kept.Small (kept.error_at ledger b) }
    ensures { kept.Surveyed ledger (length service.now.weights.now) result }
{
    let n = service.weights.len();
    let mut give = Extreme {
        backend: 0,
        size: 0,
    };
    let mut take = give;
    let mut imbalance: u64 = 0;
    for b in 0..n {
        let e = ledger.at[b].error;
        if 0 < e {
            imbalance += e as u64;
            give = raised(give, b, e);
        } else {
            take = raised(take, b, -e);
        }
    }
    Survey {
        give,
        take,
        imbalance,
    }
}

// A backend that lost some suffixes and gained others.
fn changed(b: Backend, lost: u64, gained: u64) -> Backend
    requires { kept.Changeable b lost gained }
    ensures { result ≡ kept.changed_by b lost gained }
{
    Backend {
        weight: b.weight,
        share: b.share - lost as u32 + gained as u32,
        error: b.error - (lost * UNIT) as i64 + (gained * UNIT) as i64,
    }
}

// In a lent ledger, `count` suffixes go from the giver to the receiver.
fn shift(ledger: &mut [Backend], giver: usize, receiver: usize, count: u64)
    requires { kept.Movable ledger.old giver receiver count }
    ensures { ledger.new ≡ kept.moved_of ledger.old giver receiver count }
{
    let from = ledger[giver];
    let to = ledger[receiver];
    ledger[giver] = changed(from, count, 0);
    ledger[receiver] = changed(to, 0, count);
}

// The ledger after `count` suffixes went from the giver to the receiver.
pub fn moved(ledger: Ledger, giver: usize, receiver: usize, count: u64) -> Ledger
    requires { kept.Movable ledger.at giver receiver count }
    ensures { result.at ≡ kept.moved_of ledger.at giver receiver count }
{
    let mut at = ledger.at;
    shift(&mut at, giver, receiver, count);
    Ledger { at }
}
