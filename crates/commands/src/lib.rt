// The commands of the program: the bytes that each prints, from the bytes of its files and of its other words.
#![tactic(auto)]

mod address;
mod answer;
mod churning;
mod dyadic;
mod gauging;
mod helping;
mod looking;
mod numeral;
mod splitting;
mod staging;
mod updating;
mod writing;

pub use answer::{Command, NoNumber};
pub use churning::churn;
pub use gauging::gauge;
pub use helping::{command, help, usage};
pub use looking::lookup;
pub use splitting::split;
pub use staging::{stage, stages};
pub use updating::update;

// The bytes of a buffer that is lent for a text, and the limit of a text: no answer is longer.
pub const ROOM: usize = numerals::TEXT_LIMIT;
// The bytes of a buffer that is lent for a few lines: a first line and 32 rule lines are the most.
pub const LINES_ROOM: usize = 2048;
