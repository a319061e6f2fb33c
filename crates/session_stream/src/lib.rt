//! PDUs that go out on a byte stream, and what they are written to.
//!
//! The [`Pdus`] of a turn go into the [`Outbox`], which writes them to a [`Sink`]: those of many turns leave together. `session`
//! reads what comes from a [`Source`].
//!
//! Of specs/, `Source` says how bytes come and leave, `Pdus` which PDUs go out, `Outbox` how their bytes leave.
#![tactic(auto)]

mod data_in;
mod outbox;
mod pdus;
mod source;

pub use data_in::{NO_TRANSFER_TAG, count, segment_at};
pub use outbox::{ENOUGH_TO_WRITE, Outbox, SENSE_LENGTH, SENSE_SEGMENT_LENGTH};
pub use pdus::{DataInPdu, DataIns, Pdus, ResponsePdu};
pub use source::{Failed, Sink, Source, Unread};
