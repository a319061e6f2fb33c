//! A window on an array: a page, and what is seen of it, for whoever asks by HTTP. It only tells; nothing that is asked of it changes
//! anything.
#![tactic(auto)]

mod answer;
mod handler;
mod html;
mod script;
mod serving;

pub use answer::{Seen, Wanted, asked_for};
pub use handler::{Collector, Handler};
pub use serving::open;
