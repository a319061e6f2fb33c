//! What tests of the array over its files share: its files and portals, the hosts and the administrators that come to it, and what they
//! find. Whatever fails is what a call returns.
#![tactic(auto)]

mod administrators;
mod hosts;
mod site;
mod stories;
mod visits;

pub use site::Site;
pub use stories::{Paths, Scripts, begun, compare_end, new_paths, new_scripts, sites, story};
pub use visits::{Lines, Visited, console_lines};
