// Fields of a line, by their number.
ghost use Rattle.std.specs.Prelude.{◌≡◌};
ghost use Rattle.numerals.specs.Decimal.{number};
ghost use Rattle.numerals.specs.Text.{split};
ghost use Rattle.sheets.specs.Reading.{field};
ghost use Rattle.sheets.specs.Inner.Fields.{IsRest};

// What a line has from the field on that has n fields before it: nothing if it has no such field.
pub fn rest_after(line: &[u8], n: usize) -> &[u8]
    ensures { IsRest line.now n result.now }
{
    let mut rest = line;
    for _ in 0..n {
        let end = numerals::find(rest, 0, rest.len(), 32);
        if rest.len() <= end {
            return &[];
        }
        rest = &rest[end + 1..];
    }
    rest
}

// The field of a line that has n fields before it: empty if the line has no such field.
pub fn field_at(line: &[u8], n: usize) -> &[u8]
    ensures { result.now ≡ field (split 32 line.now) n }
{
    let rest = rest_after(line, n);
    let end = numerals::find(rest, 0, rest.len(), 32);
    &rest[..end]
}

// A number in a field of a line.
pub fn number_in(line: &[u8], n: usize, least: u64, most: u64) -> Option<u64>
    ensures { result ≡ number least most (field (split 32 line.now) n) }
{
    let field = field_at(line, n);
    numerals::read_number(field, 0, field.len(), least, most)
}
