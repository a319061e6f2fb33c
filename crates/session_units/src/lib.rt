//! How one session reaches the units of an array: its commands pass a gate, and come by a controller's desk to the unit's history.
#![tactic(auto)]

mod controllers;
mod gate;
mod late;
pub mod laws;
mod memory;
mod unit_session;
mod units;

pub use controllers::Controllers;
pub use gate::{Disks, Gate, Prepared};
pub use memory::{Rooms, Spares};
pub use unit_session::UnitSession;
pub use units::{LogicalUnits, Pass, Unserved};
