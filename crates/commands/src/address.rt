// Addresses as an operator writes them.
ghost use Rattle.std.specs.Prelude.{◌≡◌};
ghost use Rattle.numerals.specs.Text.{split};
ghost use Rattle.commands.specs.Inner.Numeral.{capped};
ghost use Rattle.commands.specs.Address.{quad, address_limit, address_of};

// The address that a dotted quad is, the last byte lowest.
fn read_quad(s: &[u8]) -> Option<u64>
    ensures { result ≡ quad (split 46 s.now) }
{
    let to = s.len();
    if numerals::count_fields(s, 0, to, 46) != 4 {
        return None;
    }
    let mut v: u64 = 0;
    let mut at = 0;
    // it jumps from a field to the next
    while at <= to {
        let dot = numerals::find(s, at, to, 46);
        let b = numerals::read_number(s, at, dot, 0, 255)?;
        v = v * 256 + b;
        at = dot + 1;
    }
    Some(v)
}

// The address that a text is, a numeral or a dotted quad, or 2^32 for every number above the largest address.
pub fn read_address(s: &[u8]) -> Option<u64>
    ensures { result ≡ capped address_limit (address_of s.now) }
{
    match crate::numeral::read_numeral(s, crate::numeral::MOST_ADDRESS) {
        Some(v) => Some(v),
        None => read_quad(s),
    }
}
