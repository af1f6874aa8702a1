// What a command is, and what it comes to.

#[derive(Clone, Copy)]
pub enum Command {
    Split,
    Lookup,
    Churn,
    Update,
    Stages,
    Stage,
    Gauge,
    Help,
    Unknown,
}

// A word of the call that is no numeral, by its place among the command's words from 1. What a command comes to otherwise is
// how many bytes of the lent buffer are its answer, for standard output.
#[derive(Clone, Copy)]
pub struct NoNumber {
    pub place: usize,
}
