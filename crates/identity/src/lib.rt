//! What a logical unit says of itself: the data of INQUIRY, MODE SENSE, REPORT LUNS, READ CAPACITY and REQUEST SENSE,
//! and what is answered where there is no unit.
#![tactic(auto)]

mod capacity;
mod cut;
mod inquiry_pages;
pub mod laws;
mod luns;
mod mode;
mod no_unit;
mod sense_data;
mod vital;

pub use capacity::{read_capacity_10, read_capacity_16};
pub use inquiry_pages::inquiry;
pub use luns::report_luns;
pub use mode::mode_sense;
pub use no_unit::absent;
pub use sense_data::request_sense;
