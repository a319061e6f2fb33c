//! PERSISTENT RESERVE IN.
ghost use Rattle.std.specs.Prelude.{◌≡◌, ◌++◌, IfOk, OnOk, take};
ghost use Rattle.std.specs.Option.{unwrap_or};
ghost use Rattle.reservations.specs.Reading.{capabilities_bytes, counted_bytes, descriptor_bytes};
ghost use Rattle.reservations.specs.Reading.{descriptor_of, full_status_bytes, held_type};
ghost use Rattle.reservations.specs.Reading.{holding_or, keys_bytes, reservation_bytes};
ghost use Rattle.registrants.specs.Registry.{key_in};
ghost use Rattle.reservations.specs.Seen.{value_of};

use crate::table::Table;
use crate::transport_id::transport_id;
use crate::{Nexus, Registrant};
use std::alloc::{AllocError, Global};

// PRGENERATION, the length of the bytes, and the bytes: as many as the ALLOCATION LENGTH lets through (SPC-4, 4.2.5.6).
fn counted(
    alloc: Global,
    generation: u32,
    bytes: &[u8],
    allocation: u32,
) -> Result<Vec<u8>, AllocError>
    ensures { IfOk result (λ v. v.items ≡ take allocation (counted_bytes generation bytes.now)) }
{
    let length = (bytes.len() as u64).to_be_bytes();
    let mut data = Vec::new(alloc);
    data.extend_from_slice(&generation.to_be_bytes())?;
    data.extend_from_slice(&length[4..])?;
    data.extend_from_slice(bytes)?;
    data.truncate(allocation as usize);
    Ok(data)
}

impl Table {
    /// READ KEYS.
    pub fn keys(&self, allocation: u32) -> Result<Vec<u8>, AllocError>
        ensures { IfOk result (λ v. v.items ≡ take allocation (keys_bytes (value_of self.now))) }
    {
        let mut keys = Vec::new(self.alloc);
        for x in &self.registrants {
            keys.extend_from_slice(&x.key.to_be_bytes())?;
        }
        counted(self.alloc, self.generation, &keys, allocation)
    }

    /// READ RESERVATION.
    pub fn reservation(&self, allocation: u32) -> Result<Vec<u8>, AllocError>
        ensures { IfOk result (λ v. v.items ≡ take allocation (reservation_bytes (value_of self.now))) }
    {
        let Some(held) = &self.reservation else {
            return counted(self.alloc, self.generation, &[], allocation);
        };
        let key = self.key_of_holder(&held.holder).to_be_bytes();
        let mut bytes = Vec::new(self.alloc);
        bytes.extend_from_slice(&key)?;
        bytes.extend_from_slice(&[0, 0, 0, 0, 0, held.kind.code(), 0, 0])?;
        counted(self.alloc, self.generation, &bytes, allocation)
    }

    // The key of a named holder, and 0 where none is named.
    fn key_of_holder(&self, holder: &Option<Nexus>) -> u64
        ensures { result ≡ unwrap_or (key_in self.now.registrants.items holder.now) 0 }
    {
        match holder {
            Some(nexus) => self.key_or_zero(nexus),
            None => 0,
        }
    }

    /// REPORT CAPABILITIES.
    pub fn capabilities(&self, allocation: u32) -> Result<Vec<u8>, AllocError>
        ensures { IfOk result (λ v. v.items ≡ take allocation (capabilities_bytes self.now.aptpl)) }
    {
        let ptpl_a = if self.aptpl { 0x81 } else { 0x80 };
        let mut bytes = [0x00, 0x08, 0x05, ptpl_a, 0xEA, 0x01, 0x00, 0x00].to_vec(self.alloc)?;
        bytes.truncate(allocation as usize);
        Ok(bytes)
    }

    /// READ FULL STATUS.
    pub fn full_status(&self, allocation: u32) -> Result<Vec<u8>, AllocError>
        ensures { IfOk result (λ v. v.items ≡ take allocation (full_status_bytes (value_of self.now))) }
    {
        let mut bytes = Vec::new(self.alloc);
        for x in &self.registrants {
            self.push_descriptor(&mut bytes, x)?;
        }
        counted(self.alloc, self.generation, &bytes, allocation)
    }

    // The full status descriptor of one registrant.
    fn push_descriptor(&self, bytes: &mut Vec<u8>, x: &Registrant) -> Result<(), AllocError>
        ensures { OnOk result (bytes.new.items ≡ bytes.old.items ++ descriptor_of (value_of self.now) x.now) }
    {
        let id = transport_id(self.alloc, &x.nexus)?;
        let r_holder = self.holding_or_zero(1, x);
        let held_type = self.holding_or_zero(self.held_type(), x);
        let port = u16::from(x.nexus.group().number());
        push_descriptor_of(bytes, x.key, r_holder, held_type, port, &id)
    }

    // The value where the registrant holds the reservation, else 0.
    fn holding_or_zero(&self, value: u8, x: &Registrant) -> u8
        ensures { result ≡ holding_or value (value_of self.now) x.now }
    {
        if self.is_held_by(&x.nexus) { value } else { 0 }
    }

    // The code of the reservation's type, 0 where there is none.
    fn held_type(&self) -> u8
        ensures { result ≡ held_type self.now.reservation }
    {
        match &self.reservation {
            Some(held) => held.kind.code(),
            None => 0,
        }
    }
}

// A full status descriptor of these fields.
#[tactic(auto, unfolding(crate::specs::Reading::descriptor_bytes))]
fn push_descriptor_of(
    bytes: &mut Vec<u8>,
    key: u64,
    r_holder: u8,
    held_type: u8,
    port: u16,
    id: &[u8],
) -> Result<(), AllocError>
    ensures { OnOk result (bytes.new.items ≡ bytes.old.items ++ descriptor_bytes key r_holder held_type port id.now) }
{
    let length = (id.len() as u64).to_be_bytes();
    bytes.extend_from_slice(&key.to_be_bytes())?;
    bytes.extend_from_slice(&[0, 0, 0, 0, r_holder, held_type, 0, 0, 0, 0])?;
    bytes.extend_from_slice(&port.to_be_bytes())?;
    bytes.extend_from_slice(&length[4..])?;
    bytes.extend_from_slice(id)?;
    Ok(())
}
