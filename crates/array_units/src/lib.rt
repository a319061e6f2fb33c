//! The units of an array, by place: each is a unit that threads share, whose place is known when the program runs.
#![tactic(auto)]

mod any_unit;
mod units;

pub use any_unit::{AnyUnit, Seated};
pub use units::{MOST_UNITS, Units};
