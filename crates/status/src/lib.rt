//! The status board of a unit, and the rights of its sessions to add entries to the unit's history.
//!
//! A [`Board`] shows the [`Row`] of the history so far. Its one [`Publisher`] has seen all that was published, and writes a row
//! after each entry; a reader's [`Seat`] reads whole rows, none older than one that it read, without a lock and without
//! memory. What is known at a seat has no bytes. By the same rule each session's [`SessionRight`] has counted all of the
//! session's own entries: who publishes one of them needs it in hand. Generic in the entry, in the state that a history opens
//! in, and in what a row says of them.
#![tactic(auto)]

mod board;
mod law;
mod moves;
mod publisher;
mod right;
mod row;

pub use board::{Board, MOST_SEATS, NewBoard, Seat};
pub use law::{Cell, Law, Now, Origin, Published, Token, View, Words};
pub use publisher::{Holder, Publisher};
pub use right::{AnySessionRight, SessionRight};
pub use row::Row;
