// The expansion of one service: its weights approximated by suffix rules, one after the other.
#![tactic(auto)]

mod call;
mod churning;
mod holders;
mod hopeless;
mod known;
mod laying;
mod ledger;
mod list;
mod old_list;
mod places;
mod resuming;
mod rule;
mod run;
mod service;
mod term;

pub use call::{check_weights, expand};
pub use old_list::{MOST_NUMBERS, PER_RULE};
pub use resuming::{Kept, resume};
pub use rule::{Ended, Record, Rule};
