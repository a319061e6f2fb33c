//! Who is registered with a logical unit for persistent reservations (SPC-4, 5.13), who holds its reservation, and what of
//! both outlasts a loss of power.
#![tactic(auto)]

mod kind;
mod nexus;
mod record;
mod registrant;
mod slots;

pub use kind::ReservationType;
pub use nexus::Nexus;
pub use record::{Lasting, Record};
pub use registrant::{
    Registrant, Reservation, are_listed, copy_registrants, copy_reservation, set_registrants,
};
pub use slots::{
    insert_registrant, key_of, register_nexus, rekey, retain_only, retain_others,
    retain_without_key, retain_without_others_of_key,
};
