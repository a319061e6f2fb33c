//! The word that counts the entries of a history, and the one right to number an entry.
//!
//! A history is a list of entries that only grows. Nothing of it is stored: in memory stands its length, in one atomic word.
//! Who holds a [`History`] has seen the entries so far, as contracts see them, and two of them can be compared for nothing.
//! The [`Recorder`] has seen all of them, and alone may add one: the word's rule lets nobody change it without the right that
//! the recorder keeps, so that its exchange always succeeds.
#![tactic(auto)]

mod history;
mod naming;
mod recorder;
mod right;

pub use history::{AnyHistory, History};
pub use naming::{ArrayNaming, At, Naming};
pub use recorder::{HistoryWord, NewHistory, Recorder};
pub use right::{Answer, Counted, Law, Right, start, take};
