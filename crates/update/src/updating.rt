// The update without a text: new weights on an old list in numbers.
ghost use Rattle.std.specs.Prelude.{◌≡◌, length};
ghost use Rattle.numerals.specs.Buffer.{filled};
ghost use Rattle.expansion.specs.Resume.{numbers_resumed};
ghost use Rattle.update.specs.Update.{update_answer, is_made};
ghost use Rattle.update.specs.Promise.{PromisedFor};

use crate::answer::Update;
use numerals::Refusal;

// New weights on an old list in numbers, the newest rule first: the answer of `expansion::resume`, with k, and what is promised
// of it. The new list in numbers, the newest rule first, into a lent buffer.
pub fn update(
    k: usize,
    tolerance: u64,
    old: &[usize],
    ids: &[usize],
    weights: &[u64],
    rules: &mut [usize],
) -> Result<Update, Refusal>
    ensures answer { result ≡ update_answer k tolerance ids.now weights.now old.now (length rules.old) }
    ensures rules { rules.new ≡ filled (is_made result) rules.old 0
        (numbers_resumed k tolerance ids.now weights.now old.now) }
    ensures promise { PromisedFor k tolerance ids.now weights.now old.now result rules.new }
{
    let m = expansion::resume(k, tolerance, old, ids, weights, rules)?;
    Ok(Update {
        k,
        kept: m.kept,
        rules: m.rules,
        churn: m.churn,
    })
}
