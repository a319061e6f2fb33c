//! The log of an array: what happened, one line an event, for who runs it; the thread that writes them, and the one that looks at the
//! clock for what is counted. Telling holds nobody up: what cannot be kept at once is dropped and counted.
#![tactic(auto)]

mod log;
mod strangers;
mod ticks;
mod writer;

pub use log::Log;
pub use strangers::Strangers;
pub use ticks::start_ticks;
pub use writer::{Page, close, start};
