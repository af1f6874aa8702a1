// Decimal numbers, percentages, suffixes and their tree places, and the fields of a text: read and written.
#![tactic(auto)]

mod digits;
mod limits;
mod numbers;
mod percentages;
mod places;
mod refusal;
mod suffixes;
mod text;

pub use limits::{
    DECIMALS, MOST_BACKENDS, MOST_BITS, MOST_CAPACITY, MOST_ID, MOST_KNOWN, MOST_RULES,
    MOST_SERVICES, MOST_SUFFIXES, MOST_VOLUME, TEXT_LIMIT, TOTAL_LIMIT, UNIT,
};
pub use numbers::{decimal_width, read_number, write_number};
pub use percentages::read_percentage;
pub use places::all_places;
pub use refusal::Refusal;
pub use suffixes::{Suffix, read_suffix, suffix_place, write_suffix};
pub use text::{count_fields, find};
