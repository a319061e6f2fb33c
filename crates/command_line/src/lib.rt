//! The command line of the array: what its words ask for, and what the program says where it ends without having served.
#![tactic(auto)]

mod fault;
mod words;

pub use fault::Fault;
pub use words::{MAX_NAME, MAX_UNITS, Options, WordsFault, read, wrong_part};
