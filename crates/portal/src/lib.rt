//! The portals of an array: sessions of iSCSI over sockets, each served by a worker of its own through its passes of all
//! units.
#![tactic(auto)]

mod counted;
mod flushers;
mod keepalive;
mod lanes;
mod log_words;
mod logged_target;
mod login_limit;
mod logins;
mod observer;
mod server;
mod stacks;
mod wire;
mod worker;

pub use flushers::start_flushers;
pub use lanes::{AtDesk, Lane, start_lanes};
pub use logged_target::{LoggedTarget, Visitor};
pub use logins::Logins;
pub use observer::Observer;
pub use server::{Server, Socket, Stop, accept, listen};
pub use stacks::{SmallStacks, Stacks};
pub use wire::{KeptSource, ObservedSink};
pub use worker::serve_session;
