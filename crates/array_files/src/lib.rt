//! The units of an array over files, with the preparers of their disks and the locks of both files of each, before it is served: by calls
//! that end as the system ends them, or by calls that have a deadline.
#![tactic(auto)]

mod disks;
mod timed;

pub use disks::{FileArray, OpenArray, name_units, open};
pub use timed::{FileParts, Parts, TimedArray, open_files, start_timed};
