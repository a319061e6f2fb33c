//! Who may use the medium beside a reservation.
ghost use Rattle.std.specs.Prelude.{◌≡◌, if◌then◌else◌};
ghost use Rattle.reservations.specs.Access.{is_let_through, party_of, permits, Neither, Registered};
ghost use Rattle.registrants.specs.Nexus.{through};
ghost use Rattle.registrants.specs.Registry.{key_of};
ghost use Rattle.reservations.specs.Seen.{value_of};

use crate::table::Table;
use crate::{Access, ReservationType};
use scsi_types::{Group, PortName};

// Whether a reservation of this type lets in a nexus that doesn't hold it (SPC-4, 5.13.1).
fn lets_in(kind: ReservationType, is_registered: bool, access: Access) -> bool
    ensures { result ≡ permits kind (if is_registered then Registered else Neither) access }
{
    match access {
        Access::Other => true,
        Access::Read => lets_read(kind) || is_registered && kind.is_of_registrants(),
        Access::Write => is_registered && kind.is_of_registrants(),
    }
}

// Whether everybody may read: the types that exclude writes alone.
fn lets_read(kind: ReservationType) -> bool
    ensures { result ≡ permits kind Neither Access.Read }
{
    matches!(
        kind,
        ReservationType::WriteExclusive
            | ReservationType::WriteExclusiveRegistrantsOnly
            | ReservationType::WriteExclusiveAllRegistrants
    )
}

impl Table {
    // The key with which the nexus of a port through a group is registered.
    fn key_through(&self, port: &PortName, group: Group) -> Option<u64>
        ensures { result ≡ key_of self.now.registrants.items (through port.now group) }
    {
        let found = self.registrants.iter().find(|x| x.nexus.is(port, group));
        found.map(|x| x.key)
    }

    /// Whether a nexus may use the medium so.
    pub fn allows(&self, port: &PortName, group: Group, access: Access) -> bool
        ensures { result ≡ is_let_through self.now.reservation
            (party_of (value_of self.now) (through port.now group)) access }
    {
        let Some(held) = &self.reservation else {
            return true;
        };
        let is_registered = self.key_through(port, group).is_some();
        let holds = match &held.holder {
            Some(holder) => holder.is(port, group),
            None => false,
        };
        holds
            || is_registered && held.kind.is_of_all_registrants()
            || lets_in(held.kind, is_registered, access)
    }
}
