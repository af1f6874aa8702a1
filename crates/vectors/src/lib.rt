// What the test program stands on: the records of the Rust twin's vectors, read and taken apart, and parts of the answers,
// printed.
#![tactic(auto)]

pub mod header;
pub mod print;
pub mod record;
pub mod walk;
