//! The registration file: what outlasts a loss of power of a unit's persistent reservations (SPC-4, 5.13.5), on a device
//! of its own. A save that is done has made its record last; one that is not leaves the record before, or the new one.
#![tactic(auto)]

mod fault;
mod file;
pub mod laws;
mod reading;
mod writing;

pub use aptpl_format::{FILE_BLOCKS, FileVersion, OpenFault, Slot};
pub use fault::SaveFault;
pub use file::RegFile;
