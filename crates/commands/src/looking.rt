// lookup TABLE SERVICE ADDRESS
ghost use Rattle.std.specs.Prelude.{◌≡◌, ◌≤◌, length};
ghost use Rattle.sheets.specs.Inner.Writing.{Wrote};
ghost use Rattle.commands.specs.Said.{outcome, filled};
ghost use Rattle.commands.specs.Lookup.{lookup_text, lookup_says};

use crate::answer::NoNumber;
use crate::numeral::{MOST_ADDRESS, MOST_SERVICE, word};
use crate::writing::{put_answer, put_refused};
use numerals::Refusal;

// The addresses of 32 bits.
const ADDRESSES: u64 = MOST_ADDRESS + 1;

// The backend of an address, or a refusal; an address above 32 bits is refused once the sheet is read and has the service.
fn look(table: &[u8], service: u64, address: u64, out: &mut [u8]) -> usize
    requires { 50 ≤ length out.old }
    ensures { Wrote out.old out.new 0 result (lookup_text table.now service address) }
{
    match sheets::lookup(table, service as usize, (address % ADDRESSES) as u32) {
        Ok(_) if MOST_ADDRESS < address => put_refused(out, Refusal::BadField.into()),
        Ok(b) => put_answer(out, b),
        Err(r) => put_refused(out, r),
    }
}

// The backend that a rule sheet gives a service's address to.
pub fn lookup(
    table: &[u8],
    service: &[u8],
    address: &[u8],
    out: &mut [u8; crate::LINES_ROOM],
) -> Result<usize, NoNumber>
    ensures answer { result ≡ outcome (lookup_says table.now service.now address.now) }
    ensures buffer { out.new ≡ filled (lookup_says table.now service.now address.now) out.old }
{
    let n = word(service, MOST_SERVICE, 2)?;
    let a = crate::address::read_address(address).ok_or(NoNumber { place: 3 })?;
    Ok(look(table, n, a, out))
}
