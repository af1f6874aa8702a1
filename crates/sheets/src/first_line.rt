// Line 1 of both sheets: a word, k, and two fields with a form of their own.
ghost use Rattle.std.specs.Prelude.{◌≡◌};
ghost use Rattle.sheets.specs.FirstLine.{first_line};
ghost use Rattle.sheets.specs.Inner.FirstLine.{read_as, FieldsAs, OpenedAs};

use crate::answer::{Refused, refused_at};
use crate::fields::{field_at, number_in};
use numerals::Refusal;

// The form of a field: a number in its limits, or a percentage. An enum and no closure: `read_as` of specs/Inner names both forms.
#[derive(Drop)]
pub enum Form {
    Limits { least: u64, most: u64 },
    Percentage,
}

// What line 1 says, and the lines behind it.
#[derive(Drop)]
pub struct FirstLine<'a> {
    pub k: usize,
    pub second: u64,
    pub third: u64,
    pub behind: &'a [u8],
}

// A field, read by its form.
fn read_form(field: &[u8], form: Form) -> Option<u64>
    ensures { result ≡ read_as form field.now }
{
    match form {
        Form::Limits { least, most } => numerals::read_number(field, 0, field.len(), least, most),
        Form::Percentage => numerals::read_percentage(field, 0, field.len()),
    }
}

// The fields of line 1, which has lines behind it.
fn read_fields<'a>(
    line: &[u8],
    behind: &'a [u8],
    word: &[u8],
    second: Form,
    third: Form,
) -> Result<FirstLine<'a>, Refused>
    ensures { FieldsAs result line.now behind.now word.now second third }
{
    if field_at(line, 0) != word {
        return Err(refused_at(Refusal::Malformed, 1));
    }
    if numerals::count_fields(line, 0, line.len(), 32) != 4 {
        return Err(refused_at(Refusal::Malformed, 1));
    }
    let k = number_in(line, 1, 1, numerals::MOST_BITS as u64).ok_or(refused_at(
        Refusal::BadField,
        1,
    ))?;
    let x = read_form(field_at(line, 2), second).ok_or(refused_at(Refusal::BadField, 1))?;
    let y = read_form(field_at(line, 3), third).ok_or(refused_at(Refusal::BadField, 1))?;
    Ok(FirstLine {
        k: k as usize,
        second: x,
        third: y,
        behind,
    })
}

// The text's length, then its line 1.
pub fn read_first_line<'a>(
    text: &'a [u8],
    word: &[u8],
    second: Form,
    third: Form,
) -> Result<FirstLine<'a>, Refused>
    ensures { OpenedAs result (first_line word.now (read_as second) (read_as third) text.now) }
{
    if numerals::TEXT_LIMIT < text.len() {
        return Err(refused_at(Refusal::TooLong, 0));
    }
    let end = numerals::find(text, 0, text.len(), 10);
    if text.len() <= end {
        return Err(refused_at(Refusal::Malformed, 1));
    }
    read_fields(&text[..end], &text[end + 1..], word, second, third)
}
