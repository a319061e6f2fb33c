//! The unit attention conditions that are pending for a session (SAM-5, 5.14).
#![tactic(auto)]

mod laws;
mod pending;

pub use laws::{a_condition_waits_once, at_most_five_wait, the_others_keep_their_order};
pub use pending::Pending;
