//! The array as a pure world: its units, the jobs at its two desks, and the sessions that hand them in. Over every list of
//! events, in whatever order threads may bring them, each unit has one legal history, and each session hears of its own
//! commands alone.
#![tactic(auto)]

mod desk;
mod event;
mod hearing;
mod late;
mod note;
mod records;
mod session;
mod world;

pub use event::Event;
pub use note::{Note, What};
pub use session::{Flush, Session, Stage};
pub use world::World;
