// Rules, and what a list of them comes to.

// A rule sends the suffix of `len` bits with this value to the backend with this label.
#[derive(Clone, Copy)]
pub struct Rule {
    pub len: usize,
    pub value: usize,
    pub backend: usize,
}

// A term of 2^index suffixes from giver to receiver, both by their place in the weights.
#[derive(Clone, Copy)]
pub struct Move {
    pub giver: usize,
    pub receiver: usize,
    pub index: usize,
}

// How a list of rules ended.
#[derive(Clone, Copy)]
pub enum Ended {
    Within,
    NoGain,
    Budget,
}

// How a list ended, with its number of rules.
#[derive(Drop)]
pub struct Record {
    pub ended: Ended,
    pub rules: usize,
}
