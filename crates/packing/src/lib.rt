// One table for all services: which service is granted how many rules, the table's lines, and its total.
#![tactic(auto)]

mod answer;
mod call;
mod check;
mod grants;
mod lists;
mod output;
mod tournament;

pub use answer::{NotPacked, Packed};
pub use call::pack;
