//! The target of one session over one unit. [`once::once`] serves one session, which alone has its unit.
#![tactic(auto)]

mod attachment;
pub mod laws;
pub mod once;
mod target;
