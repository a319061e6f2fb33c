//! REGISTER, and REGISTER AND IGNORE EXISTING KEY (SPC-4, 5.13.7, 5.13.11.2 and, with ALL_TG_PT, 6.16.3).
ghost use Rattle.std.specs.Prelude.{◌≡◌, ◌<◌, ◌≤◌, ◌+◌, false, not, if◌then◌else◌, length, nat_eq, nat_lt, vec_capacity};
ghost use Rattle.registrants.specs.Registry.{IsAscending, counted, is_registered, most_registrants};
ghost use Rattle.reservations.specs.declared.request.PrEnd.TheVariants.{Good};
ghost use Rattle.reservations.specs.Seen.{Does, IsReady, value_of};
ghost use Rattle.reservations.specs.Table.{if_ended, registering, registering_one, registering_port, registration, unregistered};

use crate::notice::good;
use crate::table::{MOST_REGISTRANTS, Table};
use crate::{Nexus, Notice, PrEnd, PrOut};
use registrants::{register_nexus, retain_others};
use scsi_types::{Sense, UnitAttention};

impl Table {
    /// Registers a nexus, or each nexus of its port, changes the key or takes the registration away. The reservation key has
    /// been looked at.
    pub fn register(&mut self, nexus: &Nexus, request: PrOut) -> PrEnd
        requires ready { IsReady self.old }
        ensures does { Does registering self.old self.new nexus.now request result }
        ensures room { vec_capacity self.new.registrants ≡ vec_capacity self.old.registrants }
    {
        if request.all_tg_pt {
            return self.register_port(nexus, request);
        }
        self.register_one(nexus, request)
    }

    // The sender's nexus by itself.
    fn register_one(&mut self, nexus: &Nexus, request: PrOut) -> PrEnd
        requires ready { IsReady self.old }
        ensures does { Does registering_one self.old self.new nexus.now request result }
        ensures room { vec_capacity self.new.registrants ≡ vec_capacity self.old.registrants }
    {
        if request.sakey != 0 && !self.has_room_for(self.missing(nexus)) {
            return PrEnd::Illegal(Sense::INSUFFICIENT_REGISTRATION_RESOURCES);
        }
        let notice = self.notice_of_end(Notice::ToAll(UnitAttention::ReservationsReleased));
        self.set_registration(nexus, request);
        self.registered(nexus, notice)
    }

    // With ALL_TG_PT: the nexus of each target port group with the sender's port.
    fn register_port(&mut self, nexus: &Nexus, request: PrOut) -> PrEnd
        requires ready { IsReady self.old }
        ensures does { Does registering_port self.old self.new nexus.now request result }
        ensures room { vec_capacity self.new.registrants ≡ vec_capacity self.old.registrants }
    {
        let other = nexus.through_other();
        if request.sakey != 0 && !self.has_room_for(self.missing(nexus) + self.missing(&other)) {
            return PrEnd::Illegal(Sense::INSUFFICIENT_REGISTRATION_RESOURCES);
        }
        let notice = self.notice_of_end(Notice::ToOtherPorts(UnitAttention::ReservationsReleased));
        self.set_registration(nexus, request);
        self.set_registration(&other, request);
        self.registered(nexus, notice)
    }

    // Gives a nexus the key of the request, or takes its registration away if that is 0.
    fn set_registration(&mut self, nexus: &Nexus, request: PrOut)
        requires ascending { nat_eq request.sakey 0 ≡ false → IsAscending self.old.registrants.items }
        requires space { nat_eq request.sakey 0 ≡ false → is_registered self.old.registrants.items nexus.now ≡ false
            → length self.old.registrants.items < vec_capacity self.old.registrants }
        ensures set { value_of self.new ≡ registration (value_of self.old) nexus.now request }
        ensures room { vec_capacity self.new.registrants ≡ vec_capacity self.old.registrants }
    {
        if request.sakey != 0 {
            register_nexus(&mut self.registrants, nexus, request.sakey);
            self.aptpl = request.aptpl;
        } else if self.is_registered(nexus) {
            self.unregister(nexus);
            self.aptpl = request.aptpl;
        }
    }

    // Takes a nexus out, and the reservation with it if it alone holds that.
    fn unregister(&mut self, nexus: &Nexus)
        ensures out { value_of self.new ≡ unregistered (value_of self.old) nexus.now }
        ensures room { vec_capacity self.new.registrants ≡ vec_capacity self.old.registrants }
    {
        let holds = self.is_sole_holder(nexus);
        retain_others(&mut self.registrants, nexus);
        if holds {
            self.reservation = None;
        } else {
            self.end_if_left();
        }
    }

    // Counts a registration that was made; the notice is of a reservation that it may have ended.
    fn registered(&mut self, nexus: &Nexus, notice: Notice) -> PrEnd
        ensures end { result ≡ Good (record { sender = nexus.now; notice = if_ended (value_of self.old) notice }) }
        ensures counted { value_of self.new ≡ counted (value_of self.old) }
        ensures room { vec_capacity self.new.registrants ≡ vec_capacity self.old.registrants }
    {
        self.count();
        if self.reservation.is_some() {
            return good(nexus, Notice::Nothing);
        }
        good(nexus, notice)
    }

    // Whether there is room for so many registrants more.
    fn has_room_for(&self, more: usize) -> bool
        requires { more ≤ 2 }
        ensures { result ≡ not (nat_lt most_registrants (length self.now.registrants.items + more)) }
    {
        self.registrants.len() <= MOST_REGISTRANTS - more
    }

    // How many registrants a nexus adds that registers.
    fn missing(&self, nexus: &Nexus) -> usize
        ensures { result ≡ (if is_registered self.now.registrants.items nexus.now then 0 else 1) }
    {
        if self.is_registered(nexus) { 0 } else { 1 }
    }
}
