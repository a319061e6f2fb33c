//! What tests of disks share: files in a folder of a test, runs of blocks, the rows of scripts that make calls on a device, devices whose
//! calls have a deadline, and registrations that are to last.
#![tactic(auto)]

mod calls;
mod registrations;
mod rows;
mod runs;
mod with_deadline;

pub use calls::is_done_on;
pub use registrations::registered;
pub use rows::{Row, row_of};
pub use runs::{clean, folder, given, path_of, reads, sized, writes};
pub use with_deadline::{timed, watch};
