//! A command on its way to the desk of a controller and back: what it is known by, the queue in which it waits, its job, its ticket
//! and its answer, and the desk.
#![tactic(auto)]

mod desk;
mod job;
mod names;
mod queue;

pub use desk::{Desk, DeskFault, LONGEST_COPY};
pub use desk_jobs::Names;
pub use job::{Answer, Job, Ticket};
pub use queue::{MOST_JOBS, NotQueued, Queue};
