//! What an array tells of itself: what happened, and the line that tells it, which has `key=value` fields. What an initiator or a path
//! names is quoted and escaped, so that none of them can begin a line of its own or reach a terminal.
#![tactic(auto)]

mod event;
pub mod laws;
mod line;
mod spelling;
mod stamp;
mod words;

pub use event::{By, Event, Initiator, Path, Place, Reservation};
pub use line::{escape, escape_by};
pub use spelling::{put_line, spell};
pub use stamp::Stamp;
pub use words::{
    Access, Action, Call, Cause, Operation, Part, Resource, Sense, SessionType, Stayed, Unusable,
    Why, error_text,
};
