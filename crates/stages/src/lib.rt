// A change in stages: the row of places at which it is cut, and one stage as lines for the switch.
#![tactic(auto)]

mod calls;
mod change;
mod nodes;
mod printing;
mod reading;
mod row;
mod spreading;
mod tree;

pub use calls::{stage_lines, stage_places};
