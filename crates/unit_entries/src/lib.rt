//! What each call of a unit adds to the unit's history: the unit as what is locked, each of whose calls is one entry.
#![tactic(auto)]

mod entry;
pub mod laws;
mod machine;

pub use entry::{Arrival, Noted, Opened};
