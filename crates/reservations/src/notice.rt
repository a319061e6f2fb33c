//! Who is told what.
ghost use Rattle.std.specs.Prelude.{◌≡◌, if◌then◌else◌, Some, None};
ghost use Rattle.reservations.specs.declared.request.PrEnd.TheVariants.{Good};
ghost use Rattle.reservations.specs.Notice.{code_of};

use crate::{Nexus, PrEnd, Registrant};
use scsi_types::UnitAttention;

/// What the registrants but the sender are told of a change (SPC-4, 5.13.11).
#[derive(Clone, Copy, PartialEq, Eq)]
pub enum Notice {
    /// Nothing.
    Nothing,
    /// All of them this.
    ToAll(UnitAttention),
    /// All of them this that are of another port than the sender's.
    ToOtherPorts(UnitAttention),
    /// Those that had the key lost their registration; the others are told that the reservation's type changed, if it
    /// did.
    OfPreempted { key: u64, type_changed: bool },
}

/// Who is told what by a PERSISTENT RESERVE OUT that was GOOD: the registrants that there were when it came, but the one
/// that sent it. `Registry::told` reads it. It names nobody else, so it takes no memory.
#[derive(Drop)]
pub struct Telling {
    pub sender: Nexus,
    pub notice: Notice,
}

impl Telling {
    /// What a registrant is told.
    pub(crate) fn code_for(&self, x: &Registrant) -> Option<UnitAttention>
        ensures { result ≡ code_of self.now.sender self.now.notice x.now }
    {
        if x.nexus.same(&self.sender) {
            return None;
        }
        match self.notice {
            Notice::Nothing => None,
            Notice::ToAll(code) => Some(code),
            Notice::ToOtherPorts(code) => {
                if x.nexus.is_of_port(&self.sender) {
                    None
                } else {
                    Some(code)
                }
            }
            Notice::OfPreempted { key, type_changed } => of_preempted(x.key == key, type_changed),
        }
    }
}

// What a registrant is told of a preempted key.
fn of_preempted(has_key: bool, type_changed: bool) -> Option<UnitAttention>
    ensures { result ≡ (if has_key then Some UnitAttention.RegistrationsPreempted
        else if type_changed then Some UnitAttention.ReservationsReleased else None) }
{
    if has_key {
        Some(UnitAttention::RegistrationsPreempted)
    } else if type_changed {
        Some(UnitAttention::ReservationsReleased)
    } else {
        None
    }
}

/// GOOD, of a request by this nexus.
pub(crate) fn good(nexus: &Nexus, notice: Notice) -> PrEnd
    ensures { result ≡ Good (record { sender = nexus.now; notice = notice }) }
{
    let sender = nexus.copy();
    PrEnd::Good(Telling { sender, notice })
}
