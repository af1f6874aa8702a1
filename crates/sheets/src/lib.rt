// The percentage sheet, the rule sheet, the one call, lookup, churn, the count of a share and what an update reads.
#![tactic(auto)]

mod answer;
mod fields;
mod first_line;
mod held_sheet;
mod order;
mod percentage_sheet;
mod planning;
mod printing;
mod rule_lines;
mod rule_sheet;
mod shares;
mod tables;
mod update_read;

pub use answer::{Plan, Refused, ShareRecord, TableRecord, UpdateRecord};
pub use planning::{plan, split_sheet};
pub use printing::{write_line, write_table};
pub use shares::count_share;
pub use tables::{churn, lookup, read_table};
pub use update_read::read_update;
