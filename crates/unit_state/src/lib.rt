//! One logical unit: a state, and one step for each command.
#![tactic(auto)]

mod commands;
mod devices;
pub mod laws;
mod ops;
pub mod reserve;
mod rules;
mod unit;

pub use unit::{MoveFault, StepEnd, Unit};
pub use unit_control::{AttachFault, Gone, SessionId, UnitRow};
