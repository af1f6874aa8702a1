// Numbers of the command line: numerals of any length.
ghost use Rattle.std.specs.Prelude.{◌≡◌, ◌≤◌, None, Some, MatchResult};
ghost use Rattle.numerals.specs.Decimal.{is_numeral};
ghost use Rattle.commands.specs.Address.{address_limit};
ghost use Rattle.commands.specs.Numeral.{numeral};
ghost use Rattle.commands.specs.Inner.Numeral.{capped};

use crate::answer::NoNumber;

// The largest number of a service.
pub const MOST_SERVICE: u64 = numerals::MOST_SERVICES as u64;
// The largest id of a backend.
pub const MOST_ID: u64 = numerals::MOST_ID as u64;
// The most suffixes: the largest limit of a stage, and more stages no change has.
pub const MOST_SUFFIXES: u64 = numerals::MOST_SUFFIXES as u64;
// The largest capacity.
pub const MOST_CAPACITY: u64 = numerals::MOST_CAPACITY as u64;
// The largest address of 32 bits.
pub const MOST_ADDRESS: u64 = u32::MAX as u64;

// Whether a text is a numeral, however long.
pub fn is_numeral(s: &[u8]) -> bool
    ensures { result ≡ is_numeral s.now }
{
    if s.is_empty() {
        return false;
    }
    if s[0] == 48 && 1 < s.len() {
        return false;
    }
    s.iter().all(|c| c.is_ascii_digit())
}

// The number that a numeral is, or one more than `most` where it is above that, so that nothing wraps.
pub fn read_numeral(s: &[u8], most: u64) -> Option<u64>
    requires { most ≤ address_limit }
    ensures { result ≡ capped most (numeral s.now) }
{
    if !is_numeral(s) {
        return None;
    }
    let above = most + 1;
    Some(numerals::read_number(s, 0, s.len(), 0, most).unwrap_or(above))
}

// The same for the word at a place of the call, or the place where it is no numeral.
pub fn word(s: &[u8], most: u64, place: usize) -> Result<u64, NoNumber>
    requires { most ≤ address_limit }
    ensures { MatchResult result (λ v. capped most (numeral s.now) ≡ Some v)
        (λ e. (capped most (numeral s.now) ≡ None) × (e ≡ record { place = place })) }
{
    read_numeral(s, most).ok_or(NoNumber { place })
}
