//! A unit under its lock, each call of which is one entry of one history.
//!
//! [`Machine`] is what is locked: a state whose calls are the entries of a history, by definitions of its own. [`LockedUnit`]
//! is one of them, which all threads share. A session is used through its [`Pass`], which is the one right to add the
//! session's entries and knows the history that the session has seen. What a call promises is said of that history: it is
//! legal, it begins with all that the pass had seen, and it ends with the call's entry. Nothing of a history is stored.
#![tactic(auto)]

mod entries;
mod locked;
mod machine;
mod pass;
mod records;
mod unit;
mod visit;

pub use machine::{Machine, Refused};
pub use pass::{LegalHistory, Pass, PassAt, merge_seen};
pub use unit::{LockedUnit, NewLocked};
