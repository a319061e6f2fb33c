//! The sessions that live at a target device, each over a connection and with a handle of its own, and the target of each: how it begins
//! at all units, what it asks of them, and how it is over.
#![tactic(auto)]

mod connection;
mod device;
mod handles;
mod live;
mod sessions;
mod target;

pub use connection::Connection;
pub use device::TargetDevice;
pub use handles::{Handled, LAST_NUMBER, LAST_TSIH, next_tsih};
pub use live::{EnterFault, LiveSession, NewSession, Table};
pub use sessions::{Living, Sessions};
pub use target::{BeginFault, SessionTarget};
