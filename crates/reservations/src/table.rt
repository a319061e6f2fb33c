//! The table of registrants and its look-ups.
ghost use Rattle.std.specs.Prelude.{◌≡◌, ◌+◌, ◌%◌, ◌^◌, vec_capacity};
ghost use Rattle.std.specs.Option.{unwrap_or};
ghost use Rattle.registrants.specs.Nexus.{through};
ghost use Rattle.reservations.specs.Notice.{code_told, tellings};
ghost use Rattle.registrants.specs.Registry.{is_held_by, is_held_by_all, is_holders_key, is_key, is_of_code, is_registered};
ghost use Rattle.registrants.specs.Registry.{is_own, is_sole_holder, key_of, left_to};
ghost use Rattle.reservations.specs.Table.{told_at_end};

use crate::{Nexus, Notice, Registrant, Reservation, Telling};
use registrants::key_of;
use scsi_types::{Group, PortName, UnitAttention};
use std::alloc::Global;

/// The most registrants of a unit.
pub const MOST_REGISTRANTS: usize = 64;

/// Registrants in ascending order, the reservation, APTPL and PRGENERATION.
#[derive(Drop)]
pub struct Table {
    pub alloc: Global,
    pub registrants: Vec<Registrant>,
    pub reservation: Option<Reservation>,
    pub aptpl: bool,
    pub generation: u32,
}

impl Table {
    /// The key with which a nexus is registered.
    pub fn key_of(&self, nexus: &Nexus) -> Option<u64>
        ensures { result ≡ key_of self.now.registrants.items nexus.now }
    {
        key_of(&self.registrants, nexus)
    }

    /// Whether a nexus is registered with this key.
    fn has_key(&self, nexus: &Nexus, key: u64) -> bool
        ensures { result ≡ is_own (key_of self.now.registrants.items nexus.now) key }
    {
        match self.key_of(nexus) {
            Some(own) => own == key,
            None => false,
        }
    }

    /// The key of a nexus, and 0 where it isn't registered.
    pub fn key_or_zero(&self, nexus: &Nexus) -> u64
        ensures { result ≡ unwrap_or (key_of self.now.registrants.items nexus.now) 0 }
    {
        self.key_of(nexus).unwrap_or(0)
    }

    /// Whether some nexus is registered with this key.
    pub fn is_key(&self, key: u64) -> bool
        ensures { result ≡ is_key self.now.registrants.items key }
    {
        self.registrants.iter().any(|x| x.key == key)
    }

    /// Whether a nexus holds the reservation.
    pub fn is_held_by(&self, nexus: &Nexus) -> bool
        ensures { result ≡ is_held_by self.now.reservation self.now.registrants.items nexus.now }
    {
        self.is_sole_holder(nexus) || self.is_held_by_all() && self.is_registered(nexus)
    }

    /// Whether a nexus is registered.
    pub fn is_registered(&self, nexus: &Nexus) -> bool
        ensures { result ≡ is_registered self.now.registrants.items nexus.now }
    {
        self.key_of(nexus).is_some()
    }

    /// Whether a nexus is the only holder of the reservation.
    pub fn is_sole_holder(&self, nexus: &Nexus) -> bool
        ensures { result ≡ is_sole_holder self.now.reservation nexus.now }
    {
        match &self.reservation {
            None => false,
            Some(held) => match &held.holder {
                Some(holder) => holder.same(nexus),
                None => false,
            },
        }
    }

    /// Whether this is the key of the only holder of the reservation.
    pub fn is_holders_key(&self, key: u64) -> bool
        ensures { result ≡ is_holders_key self.now.reservation self.now.registrants.items key }
    {
        match &self.reservation {
            None => false,
            Some(held) => match &held.holder {
                Some(holder) => self.has_key(holder, key),
                None => false,
            },
        }
    }

    /// Whether every registrant holds the reservation.
    pub fn is_held_by_all(&self) -> bool
        ensures { result ≡ is_held_by_all self.now.reservation }
    {
        match &self.reservation {
            None => false,
            Some(held) => held.kind.is_of_all_registrants(),
        }
    }

    /// Whether there is a reservation of the type with this code.
    pub fn is_of_code(&self, code: u8) -> bool
        ensures { result ≡ is_of_code self.now.reservation code }
    {
        match &self.reservation {
            None => false,
            Some(held) => held.kind.code() == code,
        }
    }

    /// This notice where the reservation's end is told to others, else nothing.
    pub fn notice_of_end(&self, notice: Notice) -> Notice
        ensures { result ≡ told_at_end notice self.now.reservation }
    {
        match &self.reservation {
            Some(held) if held.kind.is_of_registrants() => notice,
            Some(_) | None => Notice::Nothing,
        }
    }

    /// What a nexus is told by a request that found this table.
    pub fn told(&self, telling: &Telling, port: &PortName, group: Group) -> Option<UnitAttention>
        ensures { result ≡ code_told (tellings telling.now self.now.registrants.items) (through port.now group) }
    {
        for x in &self.registrants {
            if x.nexus.is(port, group) {
                if let Some(code) = telling.code_for(x) {
                    return Some(code);
                }
            }
        }
        None
    }

    /// Ends a reservation that every registrant held, once the last of them has gone.
    pub fn end_if_left(&mut self)
        ensures left { self.new ≡ record self.old { reservation = left_to self.old.registrants.items self.old.reservation } }
        ensures room { vec_capacity self.new.registrants ≡ vec_capacity self.old.registrants }
    {
        if self.registrants.is_empty() && self.is_held_by_all() {
            self.reservation = None;
        }
    }

    /// Counts one more change of registrations.
    pub fn count(&mut self)
        ensures counted { self.new ≡ record self.old { generation = (self.old.generation + 1) % 2 ^ 32 } }
        ensures room { vec_capacity self.new.registrants ≡ vec_capacity self.old.registrants }
    {
        self.generation = self.generation.wrapping_add(1);
    }
}
