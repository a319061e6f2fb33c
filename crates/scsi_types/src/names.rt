//! Names of controllers, units and initiator ports.
ghost use Rattle.std.specs.Prelude.{◌≡◌, ◌↔◌, IfOk, IsTrue, MatchOption};
ghost use Rattle.scsi_types.specs.Nexus.{IsPortName, group_number, other_group, port_cmp};

use crate::NoMemory;
use std::alloc::Global;
use std::cmp::Ordering;
use std::marker::Model;

/// A target port group, which is a controller (SPC-4, 5.15).
#[derive(Clone, Copy, Debug, PartialEq, Eq, PartialOrd, Ord)]
pub enum Group {
    One,
    Two,
}

impl Group {
    /// Its number, which is the relative target port of its one port, and the tag of its portal group (RFC 7143, 13.9).
    pub fn number(self) -> u8
        ensures { result ≡ group_number self }
    {
        match self {
            Group::One => 1,
            Group::Two => 2,
        }
    }

    /// The other one.
    pub fn other(self) -> Group
        ensures { result ≡ other_group self }
    {
        match self {
            Group::One => Group::Two,
            Group::Two => Group::One,
        }
    }
}

/// Where a unit stands: its number, how many units there are, and the array's number.
#[derive(Clone, Copy, PartialEq, Eq)]
pub struct Place {
    /// The unit's number.
    pub unit: u8,
    /// How many units the array has.
    pub units: u8,
    /// The array's number.
    pub array: u32,
}

/// The most bytes of an iSCSI name (RFC 7143, 4.2.7.1).
pub const LONGEST_NAME: usize = 223;

/// The name of an initiator port (RFC 7143, 4.4.3): the InitiatorName's bytes, 1 to 223, and the ISID, of six bytes.
#[derive(Drop)]
pub struct PortName {
    name: Vec<u8>,
    isid: u64,
}

impl Model for PortName {
    ghost use Rattle.scsi_types.specs.Nexus.{IsPortName, Port};

    ghost Value = { Port };

    ghost view = { λ p. record { name = p.name.items; isid = p.isid } };

    ghost invariant = { λ p. IsPortName (record { name = p.name.items; isid = p.isid }) };
}

impl PortName {
    /// The port of this InitiatorName and ISID. None: the name is empty or has more than 223 bytes, or the ISID does not fit six.
    pub fn new(name: Vec<u8>, isid: u64) -> Option<Self>
        ensures { MatchOption result (IsPortName (record { name = name.items; isid = isid }) → ⊥)
            (λ port. IsPortName port × (port ≡ record { name = name.items; isid = isid })) }
    {
        if name.is_empty() || name.len() > LONGEST_NAME || isid >= 1 << 48 {
            return None;
        }
        Some(PortName { name, isid })
    }

    /// Another value of the same port.
    pub fn copy(&self, alloc: Global) -> Result<Self, NoMemory>
        ensures { IfOk result (λ port. port ≡ self.now) }
    {
        let name = self.name.to_vec(alloc)?;
        Ok(PortName {
            name,
            isid: self.isid,
        })
    }

    /// The bytes of the InitiatorName, 1 to 223.
    pub fn name(&self) -> &[u8]
        ensures name { result.now ≡ self.now.name }
        ensures named { IsPortName self.now }
    {
        &self.name
    }

    /// The ISID, six bytes read as a number.
    pub fn isid(&self) -> u64
        ensures isid { result ≡ self.now.isid }
        ensures named { IsPortName self.now }
    {
        self.isid
    }

    /// Whether both name one port: the same InitiatorName and the same ISID.
    pub fn same(&self, other: &PortName) -> bool
        ensures { IsTrue result ↔ (self.now ≡ other.now) }
    {
        self.isid == other.isid && self.name == other.name
    }

    /// The order of ports: by the bytes of the InitiatorName, then by the ISID.
    pub fn compare(&self, other: &PortName) -> Ordering
        ensures { result ≡ port_cmp self.now other.now }
    {
        self.name.cmp(&other.name).then(self.isid.cmp(&other.isid))
    }
}
