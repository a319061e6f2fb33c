//! The registry of a unit.
ghost use Rattle.std.specs.Prelude.{◌≡◌, ◌↔◌, IfOk, IsTrue, length, take};
ghost use Rattle.reservations.specs.Access.{MayAccess};
ghost use Rattle.registrants.specs.Nexus.{through};
ghost use Rattle.reservations.specs.Notice.{code_told, tellings};
ghost use Rattle.reservations.specs.Reading.{capabilities_bytes, full_status_bytes, keys_bytes, reservation_bytes};
ghost use Rattle.registrants.specs.Registry.{IsSound, empty, powered_on, reserved_type, to_last};
ghost use Rattle.reservations.specs.Table.{HasEffect, effect_of};

use crate::table::{MOST_REGISTRANTS, Table};
use crate::{
    Access, Lasting, Nexus, PrEnd, PrOut, Record, Registrant, Reservation, ReservationType, Telling,
};
use registrants::{are_listed, copy_registrants, copy_reservation, set_registrants};
use scsi_types::{Group, NoMemory, PortName, UnitAttention};
use std::alloc::Global;
use std::marker::Model;

/// The registrations and the reservation of a logical unit (SPC-4, 5.13).
#[derive(Drop)]
pub struct Registry {
    table: Table,
    // What is to last without APTPL.
    nothing: Record,
}

impl Model for Registry {
    ghost use Rattle.std.specs.Prelude.{◌≡◌, ◌≤◌, [], false, None, vec_capacity};
    ghost use Rattle.registrants.specs.Registry.{IsSound, RegistryValue};
    ghost use Rattle.reservations.specs.Seen.{value_of};

    ghost Value = { RegistryValue };

    ghost view = { λ r. value_of r.table };

    ghost invariant = { λ r. IsSound r.table.registrants.items r.table.reservation
        × (64 ≤ vec_capacity r.table.registrants)
        × (r.nothing ≡ record { aptpl = false; registrants = []; reservation = None }) };
}

impl Registry {
    /// No registrant and no reservation, with room for as many registrants as a unit takes.
    pub fn new(alloc: Global) -> Result<Registry, NoMemory>
        ensures { IfOk result (λ registry. registry ≡ empty) }
    {
        let table = Table {
            alloc,
            registrants: Vec::with_capacity(alloc, MOST_REGISTRANTS)?,
            reservation: None,
            aptpl: false,
            generation: 0,
        };
        let nothing = Record::empty(alloc);
        Ok(Registry { table, nothing })
    }

    /// The registry after a power on that found this record (SPC-4, 5.13.5): PRGENERATION begins at 0.
    pub fn from_record(alloc: Global, lasted: Record) -> Result<Registry, NoMemory>
        ensures { IfOk result (λ registry. registry ≡ powered_on lasted) }
    {
        let (aptpl, mut registrants, reservation) = lasted.into_parts();
        registrants.reserve(MOST_REGISTRANTS)?;
        let table = Table {
            alloc,
            registrants,
            reservation,
            aptpl,
            generation: 0,
        };
        let nothing = Record::empty(alloc);
        Ok(Registry { table, nothing })
    }

    /// An equal registry, with room for as many registrants as a unit takes.
    pub fn copy(&self) -> Result<Registry, NoMemory>
        ensures { IfOk result (λ registry. registry ≡ self.now) }
    {
        let alloc = self.table.alloc;
        let mut registrants = Vec::with_capacity(alloc, MOST_REGISTRANTS)?;
        set_registrants(&mut registrants, &self.table.registrants);
        let table = Table {
            alloc,
            registrants,
            reservation: copy_reservation(&self.table.reservation),
            aptpl: self.table.aptpl,
            generation: self.table.generation,
        };
        let nothing = Record::empty(alloc);
        Ok(Registry { table, nothing })
    }

    /// Becomes equal to another. Takes no memory.
    pub fn set(&mut self, other: &Registry)
        ensures { self.new ≡ other.now }
    {
        set_registrants(&mut self.table.registrants, &other.table.registrants);
        self.table.reservation = copy_reservation(&other.table.reservation);
        self.table.aptpl = other.table.aptpl;
        self.table.generation = other.table.generation;
    }

    /// What is to outlast a loss of power (SPC-4, 5.13.5): nothing where the last registration was without APTPL.
    pub fn record(&self) -> Result<Record, NoMemory>
        ensures { IfOk result (λ lasting. lasting ≡ to_last self.now) }
    {
        let alloc = self.table.alloc;
        if !self.table.aptpl {
            return Ok(Record::empty(alloc));
        }
        let registrants = copy_registrants(alloc, &self.table.registrants)?;
        let reservation = copy_reservation(&self.table.reservation);
        Ok(Record::new(true, registrants, reservation))
    }

    /// The same, borrowed. Takes no memory.
    pub fn lasting(&self) -> Lasting<'_>
        ensures { result ≡ to_last self.now }
    {
        if !self.table.aptpl {
            return self.nothing.lasting();
        }
        are_listed(&self.table.registrants);
        Lasting::new(true, &self.table.registrants, &self.table.reservation)
    }

    /// Does a PERSISTENT RESERVE OUT (SPC-4, 6.16) of the nexus of a port through a group. A refusal changes nothing. Takes no
    /// memory, so that nothing that fences can fail for want of it.
    pub fn out(&mut self, port: &PortName, group: Group, request: PrOut) -> PrEnd
        ensures { HasEffect result (effect_of self.old (through port.now group) request) self.old self.new }
    {
        let sender = Nexus::new(port, group);
        self.table.out(&sender, request)
    }

    /// What the nexus of a port through a group is told by a PERSISTENT RESERVE OUT that was GOOD: this is the registry as
    /// it was when the request came. Takes no memory.
    pub fn told(&self, telling: &Telling, port: &PortName, group: Group) -> Option<UnitAttention>
        ensures { result ≡ code_told (tellings telling.now self.now.registrants) (through port.now group) }
    {
        self.table.told(telling, port, group)
    }

    /// Whether the nexus of a port through a group may use the medium so (SPC-4, 5.13.1). Takes no memory; looks at no
    /// registrant where there is no reservation.
    pub fn allows(&self, port: &PortName, group: Group, access: Access) -> bool
        ensures { IsTrue result ↔ MayAccess self.now (through port.now group) access }
    {
        self.table.allows(port, group, access)
    }

    /// How many nexuses are registered. Of every registry it is known that its registrants stand in order, are at most 64
    /// and have keys, and that a reservation is held by a registrant.
    pub fn registrant_count(&self) -> usize
        ensures count { result ≡ length self.now.registrants }
        ensures sound { IsSound self.now.registrants self.now.reservation }
    {
        self.table.registrants.len()
    }

    /// The registrants, in the order of their nexuses.
    pub fn registrants(&self) -> &[Registrant]
        ensures { result.now ≡ self.now.registrants }
    {
        &self.table.registrants
    }

    /// The reservation, if there is one.
    pub fn held(&self) -> &Option<Reservation>
        ensures { result.now ≡ self.now.reservation }
    {
        &self.table.reservation
    }

    /// PRGENERATION.
    pub fn generation(&self) -> u32
        ensures { result ≡ self.now.generation }
    {
        self.table.generation
    }

    /// The type of the reservation, if there is one.
    pub fn reserved_type(&self) -> Option<ReservationType>
        ensures { result ≡ reserved_type self.now.reservation }
    {
        match &self.table.reservation {
            Some(held) => Some(held.kind),
            None => None,
        }
    }

    /// The data of READ KEYS (SPC-4, 6.15.2): PRGENERATION, a length and the keys in the order of their nexuses, as many
    /// bytes as `allocation`, the ALLOCATION LENGTH, lets through.
    pub fn keys(&self, allocation: u32) -> Result<Vec<u8>, NoMemory>
        ensures { IfOk result (λ v. v.items ≡ take allocation (keys_bytes self.now)) }
    {
        Ok(self.table.keys(allocation)?)
    }

    /// The data of READ RESERVATION (SPC-4, 6.15.3), cut as above.
    pub fn reservation(&self, allocation: u32) -> Result<Vec<u8>, NoMemory>
        ensures { IfOk result (λ v. v.items ≡ take allocation (reservation_bytes self.now)) }
    {
        Ok(self.table.reservation(allocation)?)
    }

    /// The data of REPORT CAPABILITIES (SPC-4, 6.15.4), cut as above.
    pub fn capabilities(&self, allocation: u32) -> Result<Vec<u8>, NoMemory>
        ensures { IfOk result (λ v. v.items ≡ take allocation (capabilities_bytes self.now.aptpl)) }
    {
        Ok(self.table.capabilities(allocation)?)
    }

    /// The data of READ FULL STATUS (SPC-4, 6.15.5), cut as above.
    pub fn full_status(&self, allocation: u32) -> Result<Vec<u8>, NoMemory>
        ensures { IfOk result (λ v. v.items ≡ take allocation (full_status_bytes self.now)) }
    {
        Ok(self.table.full_status(allocation)?)
    }
}
