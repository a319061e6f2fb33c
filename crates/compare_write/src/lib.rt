//! READ, WRITE, COMPARE AND WRITE and SYNCHRONIZE CACHE on a range of a device's blocks, without memory.
#![tactic(auto)]

mod compare;
mod end;
pub mod laws;
mod medium;

pub use compare::{MOST_COMPARED, compare_and_write};
pub use end::MediumEnd;
pub use medium::{read_range, read_range_into, sync, write_range};
