//! RESERVE (SPC-4, 5.13.9) and RELEASE (SPC-4, 5.13.11.2).
ghost use Rattle.std.specs.Prelude.{◌≡◌, vec_capacity};
ghost use Rattle.registrants.specs.Kind.{type_of};
ghost use Rattle.registrants.specs.Registry.{made_by};
ghost use Rattle.reservations.specs.Seen.{Does};
ghost use Rattle.reservations.specs.Table.{releasing, reserving};

use crate::notice::good;
use crate::table::Table;
use crate::{Nexus, Notice, PrEnd, PrOut, Reservation, ReservationType};
use scsi_types::{Sense, UnitAttention};

/// A reservation of this type that a nexus makes.
pub fn reservation_by(nexus: &Nexus, kind: ReservationType) -> Reservation
    ensures { result ≡ made_by nexus.now kind }
{
    if kind.is_of_all_registrants() {
        return Reservation { kind, holder: None };
    }
    Reservation {
        kind,
        holder: Some(nexus.copy()),
    }
}

impl Table {
    /// Makes a reservation. The scope, the type and the key have been looked at.
    pub fn reserve(&mut self, nexus: &Nexus, request: PrOut, kind: ReservationType) -> PrEnd
        requires kind { type_of request.kind ≡ Some kind }
        ensures does { Does reserving self.old self.new nexus.now request result }
        ensures room { vec_capacity self.new.registrants ≡ vec_capacity self.old.registrants }
    {
        if self.reservation.is_some() {
            if self.is_held_by(nexus) && self.is_of_code(request.kind) {
                return good(nexus, Notice::Nothing);
            }
            return PrEnd::Conflict;
        }
        self.reservation = Some(reservation_by(nexus, kind));
        good(nexus, Notice::Nothing)
    }

    /// Ends the reservation, if the nexus holds it.
    pub fn release(&mut self, nexus: &Nexus, request: PrOut) -> PrEnd
        ensures does { Does releasing self.old self.new nexus.now request result }
        ensures room { vec_capacity self.new.registrants ≡ vec_capacity self.old.registrants }
    {
        if !self.is_held_by(nexus) {
            return good(nexus, Notice::Nothing);
        }
        if request.scope != 0 || !self.is_of_code(request.kind) {
            return PrEnd::Illegal(Sense::INVALID_RELEASE_OF_PERSISTENT_RESERVATION);
        }
        let notice = self.notice_of_end(Notice::ToAll(UnitAttention::ReservationsReleased));
        self.reservation = None;
        good(nexus, notice)
    }
}
