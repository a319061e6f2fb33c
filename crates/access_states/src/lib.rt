//! Asymmetric logical unit access (SPC-4, 5.15.2) of one unit with two target port groups: the access state of each, what
//! is served in it, and how a SET TARGET PORT GROUPS changes it.
#![tactic(auto)]

mod access_map;
mod change;
pub mod laws;
mod list;
mod report;
mod state;

pub use access_map::AccessMap;
pub use change::Change;
pub use list::{AsetFault, Named, named_by};
pub use state::{AccessState, Cause, GroupAccess, permits};
