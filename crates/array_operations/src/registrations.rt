//! The registrations of a unit, as the window and the control socket show them.

use array_units::Units;
use array_view::Registration;
use block_file::{Blocks, Opener};
use registrants::{Registrant, Reservation};
use reservations::Registry;
use std::alloc::{AllocError, Global};
use unit_history::Opened;
use unit_sequence::ArrayNaming;

// The type of the reservation, where this registrant holds it (SPC-4, 5.13.9): of types 7 and 8 every registrant does.
// 0 where it holds none.
fn held_type(registrant: &Registrant, reservation: &Option<Reservation>) -> u64 {
    let Some(held) = reservation else {
        return 0;
    };
    let is_holder = match &held.holder {
        Some(nexus) => nexus.same(&registrant.nexus),
        None => true,
    };
    if is_holder {
        u64::from(held.kind.code())
    } else {
        0
    }
}

// A registration as it is shown.
fn registration_of(
    alloc: Global,
    registrant: &Registrant,
    reservation: &Option<Reservation>,
) -> Result<Registration, AllocError> {
    let (nexus, key) = (&registrant.nexus, registrant.key);
    let (isid, kind) = (nexus.isid(), held_type(registrant, reservation));
    Ok(Registration {
        initiator: array_view::named(alloc, nexus.name())?,
        spelled: array_view::spelled(alloc, nexus.name())?,
        isid: format!(in alloc; "0x{isid:x}")?,
        key: format!(in alloc; "0x{key:x}")?,
        controller: u64::from(nexus.group().number()),
        is_holder: kind != 0,
        reservation_type: kind,
    })
}

// All registrations of a registry, in the order of READ FULL STATUS.
fn all_of(alloc: Global, registry: &Registry) -> Result<Vec<Registration>, AllocError> {
    let mut found = Vec::new(alloc);
    for registrant in registry.registrants() {
        found.push(registration_of(alloc, registrant, registry.held())?)?;
    }
    Ok(found)
}

/// Those of the unit at a place. None: there is no such unit, a command has the unit for long, or there was no memory.
pub(crate) fn registrations<B: Blocks, F: Blocks, O: Opener<B>, N: ArrayNaming<Opened>>(
    alloc: Global,
    units: &Units<B, F, O, N>,
    place: usize,
) -> Option<Vec<Registration>> {
    if place >= units.count() {
        return None;
    }
    let registry = units.registry(place)?;
    all_of(alloc, &registry).ok()
}
