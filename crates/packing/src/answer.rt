// What the packing answers.
ghost use Rattle.std.specs.Prelude.{◌≡◌};
ghost use Rattle.packing.specs.Answer.{about, no_buffer};

use numerals::Refusal;

// The number of rules in a table, and its total.
#[derive(Drop)]
pub struct Packed {
    pub rules: usize,
    pub total: u64,
}

// Why a packing is refused, and the lent buffer that this is about: figures 1, table 2, or 0 for none, the numbers that C is told.
#[derive(Drop)]
pub struct NotPacked {
    pub why: Refusal,
    pub buffer: usize,
}

// A refusal that is about no buffer.
impl From<Refusal> for NotPacked {
    ghost from_gives = { λ why r. r ≡ about no_buffer why };

    fn from(why: Refusal) -> NotPacked {
        NotPacked { why, buffer: 0 }
    }
}
