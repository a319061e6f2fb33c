//! What tests of the portals share: an array whose portals are served by threads while the hosts of a script perform before them
//! (`serving`), what each line of a script has them do and how what comes to them is compared (`stage`), and what they meet: units
//! before threads share them, a gate at whose doors commands and flushes wait, stacks for which there is no room, and the portals with
//! what is behind them.
#![tactic(auto)]

mod doors;
mod forms;
mod no_room;
mod prompter;
mod scene;
mod serving;
mod stage;
mod units;

pub use serving::{Machine, Script, Story};
