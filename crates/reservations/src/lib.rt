//! Persistent reservations (SPC-4, 5.13): what a PERSISTENT RESERVE OUT makes of who is registered with a logical unit and of
//! who holds its reservation, what a PERSISTENT RESERVE IN reads of it, and who may use the medium beside it.
#![tactic(auto)]

mod access;
mod laws;
mod notice;
mod out;
mod reading;
mod register;
mod registry;
mod remove;
mod request;
mod reserve;
mod table;
mod transport_id;

pub use laws::{
    a_preempted_key_is_gone, soundness_stays, the_generation_counts, the_sender_is_not_told,
};
pub use notice::{Notice, Telling};
pub use registrants::{Lasting, Nexus, Record, Registrant, Reservation, ReservationType};
pub use registry::Registry;
pub use request::{PrEnd, PrOut};
pub use scsi_types::Access;
