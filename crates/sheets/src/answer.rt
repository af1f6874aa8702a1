// What the calls answer.
ghost use Rattle.std.specs.Prelude.{◌≡◌};
ghost use Rattle.sheets.specs.Calls.{about, refused_at};

use numerals::Refusal;
use packing::NotPacked;

// Why a sheet, a call or a buffer is refused; the line from 1, or 0 where the line isn't the reason; and of two sheets, or
// of the one call's two lent buffers (figures 1, table 2), the one that it is about, or 0 where it is about neither. Numbers, as C
// and the printed refusal have them.
#[derive(Clone, Copy)]
pub struct Refused {
    pub why: Refusal,
    pub line: usize,
    pub of: usize,
}

impl Refused {
    // The same, about one of two sheets.
    pub fn about(self, of: usize) -> Refused
        ensures { result ≡ about of self.why self.line }
    {
        Refused {
            why: self.why,
            line: self.line,
            of,
        }
    }
}

// The measures of a table that was planned.
#[derive(Drop)]
pub struct Plan {
    pub k: usize,
    pub services: usize,
    pub rules: usize,
    pub total: u64,
}

// The measures of a table that was read.
#[derive(Drop)]
pub struct TableRecord {
    pub k: usize,
    pub rules: usize,
    pub total: u64,
}

// The share of a backend: how many suffixes of k bits it is given.
#[derive(Drop)]
pub struct ShareRecord {
    pub k: usize,
    pub share: u64,
}

// The measures of what an update reads: the rules of the old list and the new weights.
#[derive(Drop)]
pub struct UpdateRecord {
    pub k: usize,
    pub tolerance: u64,
    pub rules: usize,
    pub backends: usize,
}

// A refusal of numbers is at no line.
impl From<Refusal> for Refused {
    ghost from_gives = { λ why r. r ≡ refused_at why 0 };

    fn from(why: Refusal) -> Refused {
        refused_at(why, 0)
    }
}

// One of the packing is about one of its two buffers, or about neither.
impl From<NotPacked> for Refused {
    ghost from_gives = { λ n r. r ≡ about n.buffer n.why 0 };

    fn from(n: NotPacked) -> Refused {
        Refused {
            why: n.why,
            line: 0,
            of: n.buffer,
        }
    }
}

// A refusal that is about neither of two.
pub fn refused_at(why: Refusal, line: usize) -> Refused
    ensures { result ≡ refused_at why line }
{
    Refused { why, line, of: 0 }
}
