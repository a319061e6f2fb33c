//! PERSISTENT RESERVE OUT.
ghost use Rattle.std.specs.Prelude.{◌≡◌, IsFalse, vec_capacity};
ghost use Rattle.reservations.specs.Seen.{Does, IsReady};
ghost use Rattle.reservations.specs.Table.{effect_of, effect_of_action, is_bad_reserve};

use crate::request::{is_bad_reserve, shows_key, type_asked};
use crate::table::Table;
use crate::{Nexus, PrEnd, PrOut};
use scsi_types::{PrOutAction, Sense};

impl Table {
    /// Does what the nexus asks.
    pub fn out(&mut self, nexus: &Nexus, request: PrOut) -> PrEnd
        requires ready { IsReady self.old }
        ensures does { Does effect_of self.old self.new nexus.now request result }
        ensures room { vec_capacity self.new.registrants ≡ vec_capacity self.old.registrants }
    {
        if is_bad_reserve(request) {
            return PrEnd::Illegal(Sense::INVALID_FIELD_IN_CDB);
        }
        if request.spec_i_pt {
            return PrEnd::Illegal(Sense::INVALID_FIELD_IN_PARAMETER_LIST);
        }
        if !shows_key(request.action, self.key_of(nexus), request.key) {
            return PrEnd::Conflict;
        }
        self.act(nexus, request)
    }

    // Does what the action says, once the fields and the key have been looked at.
    fn act(&mut self, nexus: &Nexus, request: PrOut) -> PrEnd
        requires ready { IsReady self.old }
        requires reserve { IsFalse (is_bad_reserve request.action request) }
        ensures does { Does (effect_of_action request.action) self.old self.new nexus.now request result }
        ensures room { vec_capacity self.new.registrants ≡ vec_capacity self.old.registrants }
    {
        match request.action {
            PrOutAction::Register | PrOutAction::RegisterAndIgnoreExistingKey => {
                self.register(nexus, request)
            }
            PrOutAction::Reserve => match type_asked(request) {
                Some(kind) => self.reserve(nexus, request, kind),
                None => PrEnd::Illegal(Sense::INVALID_FIELD_IN_CDB),
            },
            PrOutAction::Release => self.release(nexus, request),
            PrOutAction::Clear => self.clear(nexus, request),
            PrOutAction::Preempt | PrOutAction::PreemptAndAbort => { self.preempt(nexus, request) }
        }
    }
}
