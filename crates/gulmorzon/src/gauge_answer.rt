// The answers of the two calls for the load screen, in plain numbers and laid out as C lays them out.
ghost use Rattle.std.specs.Prelude.{◌≡◌};
ghost use Rattle.gulmorzon.specs.Gauges as answers;
ghost use Rattle.gulmorzon.specs.Inner.Unnamed as inner;

use gauges::{Gauges, Reading};
use numerals::Refusal;
use sheets::Refused;

// The gauges by their numbers, which also mark what was read: C knows no enum of ours.
pub const SHARE: usize = 1;

pub const LOAD: usize = 2;

// Number 0 and the record; or the number of a refusal, its line, and a record of zeros.
#[repr(C)]
#[derive(Drop)]
pub struct GaugesAnswer {
    pub number: usize,
    pub line: usize,
    pub gauges: Gauges,
}

// Number 0, the mark of what was read (share 1, load 2, absent 8, in place of refusal 8) and its value; or the number of a
// refusal, its line, mark 0 and value 0.
#[repr(C)]
#[derive(Drop)]
pub struct ReadingAnswer {
    pub number: usize,
    pub line: usize,
    pub mark: usize,
    pub value: f64,
}

impl From<Result<Gauges, Refused>> for GaugesAnswer {
    ghost from_gives = { λ x a. a ≡ answers.of_record x };

    fn from(x: Result<Gauges, Refused>) -> GaugesAnswer {
        match x {
            Ok(gauges) => GaugesAnswer {
                number: 0,
                line: 0,
                gauges,
            },
            Err(r) => GaugesAnswer {
                number: u64::from(r.why) as usize,
                line: r.line,
                gauges: Gauges {
                    share: 0.0,
                    load: 0.0,
                },
            },
        }
    }
}

fn reading_refused(r: Refused) -> ReadingAnswer
    ensures { result ≡ answers.reading_refused r }
{
    ReadingAnswer {
        number: u64::from(r.why) as usize,
        line: r.line,
        mark: 0,
        value: 0.0,
    }
}

impl From<Reading> for ReadingAnswer {
    ghost from_gives = { λ x a. a ≡ answers.read x };

    fn from(x: Reading) -> ReadingAnswer {
        let (mark, value) = match x {
            Reading::Share(value) => (SHARE, value),
            Reading::Load(value) => (LOAD, value),
            Reading::Absent => (u64::from(Refusal::UnknownService) as usize, 0.0),
        };
        ReadingAnswer {
            number: 0,
            line: 0,
            mark,
            value,
        }
    }
}

impl From<Result<Reading, Refused>> for ReadingAnswer {
    ghost from_gives = { λ x a. a ≡ answers.of_reading x };

    fn from(x: Result<Reading, Refused>) -> ReadingAnswer {
        match x {
            Ok(v) => v.into(),
            Err(r) => reading_refused(r),
        }
    }
}

// Read for a number that names no gauge: absent stays, any other value is refused with 2.
pub fn of_unnamed(x: Result<Reading, Refused>) -> ReadingAnswer
    ensures { result ≡ inner.of_unnamed x }
{
    match x {
        Ok(Reading::Absent) => Reading::Absent.into(),
        Ok(_) => reading_refused(Refusal::BadField.into()),
        Err(r) => reading_refused(r),
    }
}
