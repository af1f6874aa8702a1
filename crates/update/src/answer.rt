// What the calls answer.

// An update: k, how many of the oldest rules were kept, how many rules the new list has, and how many of the 2^k suffixes
// have another backend than before.
#[derive(Clone, Copy)]
pub struct Update {
    pub k: usize,
    pub kept: usize,
    pub rules: usize,
    pub churn: usize,
}
