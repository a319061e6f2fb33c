//! Registrations and reservations: scripts of PERSISTENT RESERVE OUT, as lines of text, and what each step must leave.
mod actions;
mod data_bytes;
mod row;
pub mod run;
mod steps;
