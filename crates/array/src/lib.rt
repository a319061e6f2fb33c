//! The array: its units over files, its portals, its console.
#![tactic(auto)]

mod portals;
mod served;

pub use array_administration::{
    Administration, Attended, Operations, bind_window, console, give_to_owner,
};
pub use array_files::{FileArray, FileParts, OpenArray, Parts, open, open_files};
pub use array_operations::Operated;
pub use served::{serve, serve_timed, tell_want};
