//! What is done with both controllers of an array by whoever administers it: by the console, the control socket and the window.
#![tactic(auto)]

mod administered;
mod operated;
mod registrations;

pub use administered::AdministeredServer;
pub use operated::Operated;
