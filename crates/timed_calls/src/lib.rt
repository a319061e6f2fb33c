//! Calls that are made by a thread of their own, and answered in time or as failed. A call of the system may never come back, as where a
//! file system is frozen or a link to a disk is cut: whoever made it would wait with it. So a request is handed to a thread, which makes
//! the call, and whoever asks waits no longer than the deadline. One that has not come by then failed, and so does each later call on
//! that file, at once, until that one has come back.
#![tactic(auto)]

mod asker;
mod handing;
mod spent;
mod waiting;
mod watch;

pub use asker::{Asker, FOR_REQUESTS, Turn};
pub use handing::{
    ANSWERED, ASKED, AWAITED, Asked, AskingEnd, Handing, Handover, Known, LATE, OVER, RESTING,
    ServingEnd, TURN, ends,
};
pub use spent::Spent;
pub use waiting::{Looks, Runner, left};
pub use watch::Watch;
