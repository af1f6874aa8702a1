// The answers of the exported calls, in plain numbers and laid out as C lays them out.
ghost use Rattle.std.specs.Prelude.{◌≡◌};
ghost use Rattle.gulmorzon.specs.Answers as answers;

use sheets::{Plan, Refused};

// Number 0 and a value; or the number of a refusal, its line, and which of two sheets it is about.
#[repr(C)]
#[derive(Drop)]
pub struct Answer {
    pub number: usize,
    pub line: usize,
    pub sheet: usize,
    pub value: usize,
}

// Number 0 and the measures of a table; or the number of a refusal, its line, and which lent buffer is too short.
#[repr(C)]
#[derive(Drop)]
pub struct PlanAnswer {
    pub number: usize,
    pub line: usize,
    pub buffer: usize,
    pub k: usize,
    pub services: usize,
    pub rules: usize,
    pub total: u64,
}

impl From<Result<usize, Refused>> for Answer {
    ghost from_gives = { λ x a. a ≡ answers.of_answer x };

    fn from(x: Result<usize, Refused>) -> Answer {
        match x {
            Ok(value) => Answer {
                number: 0,
                line: 0,
                sheet: 0,
                value,
            },
            Err(r) => Answer {
                number: u64::from(r.why) as usize,
                line: r.line,
                sheet: r.of,
                value: 0,
            },
        }
    }
}

impl From<Result<Plan, Refused>> for PlanAnswer {
    ghost from_gives = { λ x a. a ≡ answers.of_planned x };

    fn from(x: Result<Plan, Refused>) -> PlanAnswer {
        match x {
            Ok(p) => PlanAnswer {
                number: 0,
                line: 0,
                buffer: 0,
                k: p.k,
                services: p.services,
                rules: p.rules,
                total: p.total,
            },
            Err(r) => {
                let number = u64::from(r.why) as usize;
                PlanAnswer {
                    number,
                    line: r.line,
                    buffer: r.of,
                    k: 0,
                    services: 0,
                    rules: 0,
                    total: 0,
                }
            }
        }
    }
}
