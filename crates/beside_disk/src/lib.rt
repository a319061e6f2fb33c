//! The files that lie beside a disk: its registration file, and the one that says as which unit it was served. Each is begun under another
//! name and gets its own when it is whole, so that a stop leaves none or a whole one; and its name is made to last at each start.
#![tactic(auto)]

mod begun;
mod fault;
mod registrations;
mod unit_file;

pub use fault::RegistrationsFault;
pub use registrations::{Registrations, open_registrations};
pub use unit_file::{UnitFileFault, UnitName, look_as, open_as};
