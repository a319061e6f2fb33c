//! What outlasts a loss of power.
ghost use Rattle.std.specs.Prelude.{◌≡◌, [], false, None};
ghost use Rattle.registrants.specs.Registry.{IsRecord, IsSound};

use crate::{Registrant, Reservation};
use std::alloc::Global;
use std::marker::Model;

/// The registrations and the reservation that a restart is to find (SPC-4, 5.13.5). Without APTPL there is nothing.
#[derive(Drop)]
pub struct Record {
    aptpl: bool,
    registrants: Vec<Registrant>,
    reservation: Option<Reservation>,
}

impl Model for Record {
    ghost use Rattle.registrants.specs.Registry.{IsRecord, RecordValue};

    ghost Value = { RecordValue };

    ghost view = { λ r. record { aptpl = r.aptpl; registrants = r.registrants.items; reservation = r.reservation } };

    ghost invariant = { λ r. IsRecord r.aptpl r.registrants.items r.reservation };
}

/// A record, borrowed: what is to be saved is written from where it stands.
#[derive(Drop)]
pub struct Lasting<'a> {
    aptpl: bool,
    registrants: &'a [Registrant],
    reservation: &'a Option<Reservation>,
}

impl<'a> Model for Lasting<'a> {
    ghost use Rattle.registrants.specs.Registry.{IsRecord, RecordValue};

    ghost Value = { RecordValue };

    ghost view = { λ r. record {
      aptpl = r.aptpl;
      registrants = r.registrants.now;
      reservation = r.reservation.now;
    } };

    ghost invariant = { λ r. IsRecord r.aptpl r.registrants.now r.reservation.now };
}

impl<'a> Lasting<'a> {
    /// The record of these registrants, which stand in order, and of this reservation.
    pub fn new(
        aptpl: bool,
        registrants: &'a [Registrant],
        reservation: &'a Option<Reservation>,
    ) -> Self
        requires { IsRecord aptpl registrants.now reservation.now }
        ensures { result ≡ record { aptpl = aptpl; registrants = registrants.now; reservation = reservation.now } }
    {
        Lasting {
            aptpl,
            registrants,
            reservation,
        }
    }

    /// Whether the registrations outlast a loss of power.
    pub fn aptpl(&self) -> bool
        ensures aptpl { result ≡ self.now.aptpl }
        ensures sound { IsRecord self.now.aptpl self.now.registrants self.now.reservation }
    {
        self.aptpl
    }

    /// The registrants, in order.
    pub fn registrants(&self) -> &[Registrant]
        ensures { result.now ≡ self.now.registrants }
    {
        self.registrants
    }

    /// The reservation, if there is one.
    pub fn reservation(&self) -> &Option<Reservation>
        ensures { result.now ≡ self.now.reservation }
    {
        self.reservation
    }
}

impl Record {
    /// The record of nothing.
    pub fn empty(alloc: Global) -> Self
        ensures { result ≡ record { aptpl = false; registrants = []; reservation = None } }
    {
        Record {
            aptpl: false,
            registrants: Vec::new(alloc),
            reservation: None,
        }
    }

    /// The record of these registrants, which stand in order, and of this reservation.
    pub fn new(aptpl: bool, registrants: Vec<Registrant>, reservation: Option<Reservation>) -> Self
        requires { IsRecord aptpl registrants.items reservation }
        ensures { result ≡ record { aptpl = aptpl; registrants = registrants.items; reservation = reservation } }
    {
        Record {
            aptpl,
            registrants,
            reservation,
        }
    }

    /// Whether the registrations outlast a loss of power.
    pub fn aptpl(&self) -> bool
        ensures aptpl { result ≡ self.now.aptpl }
        ensures sound { IsRecord self.now.aptpl self.now.registrants self.now.reservation }
    {
        self.aptpl
    }

    /// The registrants, in order.
    pub fn registrants(&self) -> &[Registrant]
        ensures { result.now ≡ self.now.registrants }
    {
        &self.registrants
    }

    /// The record, borrowed.
    pub fn lasting(&self) -> Lasting<'_>
        ensures { result ≡ self.now }
    {
        Lasting::new(self.aptpl, &self.registrants, &self.reservation)
    }

    /// The record's parts.
    pub fn into_parts(self) -> (bool, Vec<Registrant>, Option<Reservation>)
        ensures aptpl { result.0 ≡ self.aptpl }
        ensures registrants { result.1.items ≡ self.registrants }
        ensures reservation { result.2 ≡ self.reservation }
        ensures sound { IsSound result.1.items result.2 }
    {
        (self.aptpl, self.registrants, self.reservation)
    }
}
