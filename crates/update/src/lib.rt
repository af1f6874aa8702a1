// New weights on a loaded table: the oldest rules of a list are kept, and the expansion goes on from there, so that least moves.
#![tactic(auto)]

mod answer;
mod texts;
mod updating;

pub use answer::Update;
pub use texts::update_sheets;
pub use updating::update;
