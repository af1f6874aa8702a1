// The header line of a record.
ghost use Rattle.std.specs.Prelude.{◌≡◌};
ghost use Rattle.vectors.specs.Header.{header, payload};

use crate::walk;

// The header line's fields: the layer and the kind of the vector, each by its first letter, and numbers. What the line
// lacks is 0.
#[derive(Drop)]
pub struct Header {
    pub layer: u8,
    pub kind: u8,
    pub first: u64,
    pub second: u64,
    pub third: u64,
    pub fourth: u64,
}

pub fn read(s: &[u8]) -> Header
    ensures { result ≡ header s.now }
{
    let line = walk::part(s, 0, 10);
    let kind = walk::after(line, 0, 32);
    let first = walk::after(line, kind, 32);
    let second = walk::after(line, first, 32);
    let third = walk::after(line, second, 32);
    let fourth = walk::after(line, third, 32);
    Header {
        layer: walk::letter(line, 0),
        kind: walk::letter(line, kind),
        first: walk::number(line, first),
        second: walk::number(line, second),
        third: walk::number(line, third),
        fourth: walk::number(line, fourth),
    }
}

// What stands behind the header line.
pub fn payload(s: &[u8]) -> &[u8]
    ensures { result.now ≡ payload s.now }
{
    walk::rest(s, walk::after(s, 0, 10))
}
