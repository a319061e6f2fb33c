//! What a command is known by on its way to the desk of a controller and back: an answer is for the ticket whose names are its own.
#![tactic(auto)]

mod names;

pub use names::Names;
