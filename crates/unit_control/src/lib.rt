//! The control of a logical unit, which is all of it but its devices: who is attached and what each is to be told, who is
//! registered, and what state each target port group is in. And what commands do with it and with the devices below: work on
//! the medium, a save of what is registered, an open for another owner.
#![tactic(auto)]

mod control;
pub mod groups;
pub mod medium;
mod records;
mod refusal;
mod row;
pub mod saving;
mod sessions;

pub use control::{AttachFault, Control, Gone, Route, preferred};
pub use refusal::Refusal;
pub use row::UnitRow;
pub use sessions::{Sender, SessionId};
