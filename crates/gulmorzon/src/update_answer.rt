// The answer of the call for new weights, in plain numbers and laid out as C lays it out.
ghost use Rattle.std.specs.Prelude.{◌≡◌};
ghost use Rattle.gulmorzon.specs.Update as answers;

use sheets::Refused;
use update::Update;

// Number 0 and the update; or the number of a refusal, its line, and which of two sheets it is about.
#[repr(C)]
#[derive(Drop)]
pub struct UpdateAnswer {
    pub number: usize,
    pub line: usize,
    pub sheet: usize,
    pub k: usize,
    pub kept: usize,
    pub rules: usize,
    pub churn: usize,
}

impl From<Result<Update, Refused>> for UpdateAnswer {
    ghost from_gives = { λ x a. a ≡ answers.of_update x };

    fn from(x: Result<Update, Refused>) -> UpdateAnswer {
        match x {
            Ok(u) => UpdateAnswer {
                number: 0,
                line: 0,
                sheet: 0,
                k: u.k,
                kept: u.kept,
                rules: u.rules,
                churn: u.churn,
            },
            Err(r) => UpdateAnswer {
                number: u64::from(r.why) as usize,
                line: r.line,
                sheet: r.of,
                k: 0,
                kept: 0,
                rules: 0,
                churn: 0,
            },
        }
    }
}
