// What an expansion is made for: the backends of one service, by label and weight, in 2^k suffixes, and how near it has to come to them.
ghost use Rattle.expansion.specs.Inner.Run.{Valid};

// A service whose numbers were checked. Where none is at hand, k comes with its bound as a clause: a type for one number would be unwrapped
// at each use.
#[derive(Clone, Copy)]
pub struct Service<'a> {
    pub k: usize,
    pub tolerance: u64,
    pub labels: &'a [usize],
    pub weights: &'a [u64],
    ghost valid: { Valid k tolerance labels.now weights.now },
}
