//! How registrations are removed: CLEAR, PREEMPT, and PREEMPT AND ABORT (SPC-4, 5.13.11.2 to 5.13.11.5).
ghost use Rattle.std.specs.Prelude.{◌≡◌, vec_capacity};
ghost use Rattle.registrants.specs.Kind.{type_of};
ghost use Rattle.reservations.specs.Seen.{Does};
ghost use Rattle.reservations.specs.Table.{clearing, preempting, preempting_all, preempting_holder, preempting_registrants};

use crate::notice::good;
use crate::request::type_asked;
use crate::reserve::reservation_by;
use crate::table::Table;
use crate::{Nexus, Notice, PrEnd, PrOut, ReservationType};
use registrants::{retain_only, retain_without_key, retain_without_others_of_key};
use scsi_types::{Sense, UnitAttention};

impl Table {
    /// Ends the reservation and all registrations.
    pub fn clear(&mut self, nexus: &Nexus, request: PrOut) -> PrEnd
        ensures does { Does clearing self.old self.new nexus.now request result }
        ensures room { vec_capacity self.new.registrants ≡ vec_capacity self.old.registrants }
    {
        let notice = Notice::ToAll(UnitAttention::ReservationsPreempted);
        self.reservation = None;
        self.registrants.clear();
        self.count();
        good(nexus, notice)
    }

    /// Takes registrations away, and with the holder's the reservation over. The key has been looked at.
    pub fn preempt(&mut self, nexus: &Nexus, request: PrOut) -> PrEnd
        ensures does { Does preempting self.old self.new nexus.now request result }
        ensures room { vec_capacity self.new.registrants ≡ vec_capacity self.old.registrants }
    {
        let is_of_holder = self.is_holders_key(request.sakey);
        if is_of_holder || self.is_held_by_all() && request.sakey == 0 {
            let Some(kind) = type_asked(request) else {
                return PrEnd::Illegal(Sense::INVALID_FIELD_IN_CDB);
            };
            if is_of_holder {
                return self.preempt_holder(nexus, request, kind);
            }
            return self.preempt_all(nexus, request, kind);
        }
        if request.sakey == 0 {
            return PrEnd::Illegal(Sense::INVALID_FIELD_IN_PARAMETER_LIST);
        }
        if !self.is_key(request.sakey) {
            return PrEnd::Conflict;
        }
        self.preempt_registrants(nexus, request)
    }

    // The only holder and all with its key go, and the sender holds.
    fn preempt_holder(&mut self, nexus: &Nexus, request: PrOut, kind: ReservationType) -> PrEnd
        requires kind { type_of request.kind ≡ Some kind }
        ensures does { Does preempting_holder self.old self.new nexus.now request result }
        ensures room { vec_capacity self.new.registrants ≡ vec_capacity self.old.registrants }
    {
        let notice = Notice::OfPreempted {
            key: request.sakey,
            type_changed: !self.is_of_code(request.kind),
        };
        retain_without_others_of_key(&mut self.registrants, nexus, request.sakey);
        self.reservation = Some(reservation_by(nexus, kind));
        self.count();
        good(nexus, notice)
    }

    // All others go, and the sender holds.
    fn preempt_all(&mut self, nexus: &Nexus, request: PrOut, kind: ReservationType) -> PrEnd
        requires kind { type_of request.kind ≡ Some kind }
        ensures does { Does preempting_all self.old self.new nexus.now request result }
        ensures room { vec_capacity self.new.registrants ≡ vec_capacity self.old.registrants }
    {
        let notice = Notice::ToAll(UnitAttention::RegistrationsPreempted);
        retain_only(&mut self.registrants, nexus);
        self.reservation = Some(reservation_by(nexus, kind));
        self.count();
        good(nexus, notice)
    }

    // All with a key go, and the reservation stays while it has a holder.
    fn preempt_registrants(&mut self, nexus: &Nexus, request: PrOut) -> PrEnd
        ensures does { Does preempting_registrants self.old self.new nexus.now request result }
        ensures room { vec_capacity self.new.registrants ≡ vec_capacity self.old.registrants }
    {
        let notice = Notice::OfPreempted {
            key: request.sakey,
            type_changed: false,
        };
        retain_without_key(&mut self.registrants, request.sakey);
        self.end_if_left();
        self.count();
        good(nexus, notice)
    }
}
