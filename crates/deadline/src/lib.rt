//! A disk, its opener and its preparer whose calls have a deadline. Each is handed to a thread of its own (`timed_calls`), so whoever asks
//! it waits for no call that never comes back: what lands late is never seen to change anything.
#![tactic(auto)]

mod ahead;
mod blocks;
mod opener;
mod prepared;
mod preparer_request;
mod request;

pub use blocks::Deadlined;
pub use opener::DeadlinedOpener;
pub use prepared::DeadlinedPreparer;
