// Gauges for the load screen: a backend's share and load as exact binary64 numbers.
#![tactic(auto)]

mod answer;
mod calls;
mod exact;

pub use answer::{Gauge, Gauges, Reading};
pub use calls::{gauge_reading, gauge_record};
