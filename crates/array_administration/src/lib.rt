//! How an array that is served is administered: by the lines of its console, at its control socket, and by what its window collects.
//! Who asks knows the array by a trait alone.
#![tactic(auto)]

mod administered;
mod answers;
mod attended;
mod collector;
mod control;
mod lines;
mod sockets;

pub use administered::Administered;
pub use attended::Attended;
pub use control::{give_to_owner, remove};
pub use lines::{Operations, console, say_status};
pub use sockets::{Administration, Sockets, answer, bind_window, control_path, open};
