//! Full feature phase of a session, without a stream: what a PDU, a fault or an answer of the target calls for.
//!
//! [`Session`] reads and writes nothing: a PDU goes in, and [`Actions`] come out, PDUs to write or one call of the target. A
//! write whose data does not all come with it waits for the rest, which it asks for by R2T; any other command is answered in
//! the turn in which it comes. [`feature_turn`] does one turn, with the target and the outbox.
//!
//! Of specs/, `Counters` says what a session keeps between two turns, `Step` what a PDU calls for, as data, `Machine` which
//! step a session makes of what comes, and `MakesTurn` what a turn makes of target and outbox. That a transcript stays legal
//! turn by turn is proved in `session`.
#![tactic(auto)]

mod actions;
mod logout;
mod management_response;
mod nop;
mod requests;
mod response;
mod session;
mod text;
mod turn;
mod verdict;

pub use actions::{Actions, Call, CommandData, OpenTask, ResetCall, Sending, ServeCall};
pub use response::Completion;
pub use session::Session;
pub use text::MadeText;
pub use turn::{fault_turn, feature_turn};
