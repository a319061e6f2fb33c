//! Registrants, and reservations.
ghost use Rattle.std.specs.Prelude.{◌≡◌, ◌≤◌, ◌<◌, IfOk, length, vec_capacity};
ghost use Rattle.std.specs.List.{AllByRecursion};
ghost use Rattle.registrants.specs.Registry.{IsListed};

use crate::{Nexus, ReservationType};
use std::alloc::{AllocError, Global};

/// A registered nexus and its reservation key, which is never 0 (SPC-4, 5.13.7).
#[derive(Drop)]
pub struct Registrant {
    pub nexus: Nexus,
    pub key: u64,
}

/// A persistent reservation (SPC-4, 5.13.9): its type, and the nexus that holds it. Of types 7 and 8 every
/// registrant is a holder, and none is named.
#[derive(Drop)]
pub struct Reservation {
    pub kind: ReservationType,
    pub holder: Option<Nexus>,
}

impl Registrant {
    /// Another value of the same registrant. Takes no memory.
    pub fn copy(&self) -> Registrant
        ensures equal { result ≡ self.now }
        ensures listed { IsListed result }
    {
        listed(self.nexus.copy(), self.key)
    }
}

impl Reservation {
    /// Another value of the same reservation. Takes no memory.
    pub fn copy(&self) -> Reservation
        ensures { result ≡ self.now }
    {
        let holder = match &self.holder {
            Some(nexus) => Some(nexus.copy()),
            None => None,
        };
        Reservation {
            kind: self.kind,
            holder,
        }
    }
}

// A registrant by its parts: its port is named as iSCSI names one, and its key has 8 bytes.
fn listed(nexus: Nexus, key: u64) -> Registrant
    ensures is { result ≡ record { nexus = nexus; key = key } }
    ensures listed { IsListed result }
{
    let _isid = nexus.isid();
    Registrant { nexus, key }
}

/// What the types of registrants say of each.
pub fn are_listed(registrants: &[Registrant])
    ensures { AllByRecursion IsListed registrants.now }
{
    for x in registrants {
        let _listed = x.copy();
    }
}

/// Makes registrants equal to others, of which there is room for as many. Takes no memory.
pub fn set_registrants(kept: &mut Vec<Registrant>, registrants: &[Registrant])
    requires room { length registrants.now ≤ vec_capacity kept.old }
    ensures equal { kept.new.items ≡ registrants.now }
    ensures listed { AllByRecursion IsListed registrants.now }
    ensures capacity { vec_capacity kept.new ≡ vec_capacity kept.old }
{
    kept.clear();
    for x in registrants {
        kept.push_reserved(x.copy());
    }
}

/// Another value of the same registrants.
pub fn copy_registrants(
    alloc: Global,
    registrants: &[Registrant],
) -> Result<Vec<Registrant>, AllocError>
    ensures equal { IfOk result (λ v. v.items ≡ registrants.now) }
    ensures listed { IfOk result (λ v. AllByRecursion IsListed registrants.now) }
{
    let mut copies = Vec::with_capacity(alloc, registrants.len())?;
    set_registrants(&mut copies, registrants);
    Ok(copies)
}

/// Another value of the same reservation, if there is one. Takes no memory.
pub fn copy_reservation(reservation: &Option<Reservation>) -> Option<Reservation>
    ensures { result ≡ reservation.now }
{
    match reservation {
        Some(held) => Some(held.copy()),
        None => None,
    }
}
