// Why a sheet, a call or a buffer is turned back (document 01, "Turned-back work"; document 02).
ghost use Rattle.std.specs.Prelude.{◌≡◌};
ghost use Rattle.numerals.specs.Refusals.{number_of};

// Each by its number there.
#[derive(Clone, Copy, PartialEq, Eq)]
pub enum Refusal {
    Malformed = 1,
    BadField = 2,
    Unbalanced = 3,
    TooMany = 4,
    NoService = 5,
    TableShort = 6,
    ShortLoan = 7,
    UnknownService = 8,
    Order = 9,
    Miscount = 10,
    TooLong = 11,
    Depth = 12,
    Stuck = 13,
    Crowded = 14,
}

impl From<Refusal> for u64 {
    ghost from_gives = { λ why n. n ≡ number_of why };

    #[tactic(auto, unfolding(crate::specs::Refusals::number_of))]
    fn from(why: Refusal) -> u64 {
        why as u64
    }
}
