//! A logical unit that threads share: every command of any session is one step of one sequential unit.
//!
//! [`SharedUnit`] has the unit under its lock. A session attaches and is used through its [`Pass`], which knows the history that
//! the session has seen, and alone may add its entries. What a call promises is said of that history, by the words of specs/
//! `Calls`: it is legal, it begins with all that the pass had seen, and it ends with the call's entry, whose reply is the
//! answer. Nothing of a history is stored. A status board shows the row of each, for which no reader takes the lock.
#![tactic(auto)]

mod new_unit;
mod shared;

pub use new_unit::NewUnit;
pub use shared::{Board, LegalHistory, Pass, Seat, SharedUnit};
pub use unit_entries::{Arrival, Noted, Opened};
pub use unit_lock::Refused;
