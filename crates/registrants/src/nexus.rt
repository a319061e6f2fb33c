//! I_T nexuses.
ghost use Rattle.std.specs.Prelude.{◌≡◌, ◌↔◌, ◌≤◌, IsTrue};
ghost use Rattle.scsi_types.specs.Nexus.{IsPortName};
ghost use Rattle.registrants.specs.Nexus.{nexus_cmp, other_nexus, same_nexus, same_port};

use scsi_types::{Group, LONGEST_NAME, PortName};
use std::cmp::Ordering;
use std::marker::Model;

/// An I_T nexus (SAM-5, 4.6): an initiator port, and the target port group through which it comes. The name stands in the
/// nexus itself, so a copy takes no memory.
#[derive(Drop)]
pub struct Nexus {
    name: [u8; LONGEST_NAME],
    length_of_name: u8,
    isid: u64,
    group: Group,
}

impl Model for Nexus {
    ghost use Rattle.std.specs.Prelude.{◌≤◌, take};
    ghost use Rattle.scsi_types.specs.Nexus.{IsPortName, Nexus as NexusValue, longest_name};

    ghost Value = { NexusValue };

    ghost view = { λ n. record {
      port = record { name = take n.length_of_name n.name; isid = n.isid };
      group = n.group;
    } };

    ghost invariant = { λ n. IsPortName (record { name = take n.length_of_name n.name; isid = n.isid })
        × (n.length_of_name ≤ longest_name) };
}

impl Nexus {
    /// The nexus of this initiator port through this group. Takes no memory.
    pub fn new(port: &PortName, group: Group) -> Self
        ensures { result ≡ record { port = port.now; group = group } }
    {
        Nexus::named(port.name(), port.isid(), group)
    }

    /// The nexus of the initiator port of this name, of 1 to 223 bytes, and this ISID, of six. Takes no memory.
    pub fn named(name: &[u8], isid: u64, group: Group) -> Self
        requires { IsPortName (record { name = name.now; isid = isid }) }
        ensures { result ≡ record { port = record { name = name.now; isid = isid }; group = group } }
    {
        let mut kept = [0; LONGEST_NAME];
        kept[..name.len()].copy_from_slice(name);
        Nexus {
            name: kept,
            length_of_name: name.len() as u8,
            isid,
            group,
        }
    }

    /// The InitiatorName's bytes, 1 to 223.
    pub fn name(&self) -> &[u8]
        ensures name { result.now ≡ self.now.port.name }
        ensures named { IsPortName self.now.port }
    {
        &self.name[..usize::from(self.length_of_name)]
    }

    /// The ISID, six bytes read as a number.
    pub fn isid(&self) -> u64
        ensures isid { result ≡ self.now.port.isid }
        ensures named { IsPortName self.now.port }
    {
        self.isid
    }

    /// The target port group.
    pub fn group(&self) -> Group
        ensures { result ≡ self.now.group }
    {
        self.group
    }

    /// The nexus of the same port through the other group. Takes no memory.
    pub fn through_other(&self) -> Nexus
        ensures { result ≡ other_nexus self.now }
    {
        let mut other = self.copy();
        other.group = self.group.other();
        other
    }

    /// Whether this nexus is of the same port.
    pub fn is_of_port(&self, other: &Nexus) -> bool
        ensures { result ≡ same_port self.now.port other.now.port }
    {
        self.isid == other.isid && self.name() == other.name()
    }

    /// Another value of the same nexus. Takes no memory.
    pub fn copy(&self) -> Nexus
        ensures equal { result ≡ self.now }
        ensures named { IsPortName self.now.port }
    {
        Nexus {
            name: self.name,
            length_of_name: self.length_of_name,
            isid: self.isid,
            group: self.group,
        }
    }

    /// Whether this is the nexus of that port through that group.
    pub fn is(&self, port: &PortName, group: Group) -> bool
        ensures { result ≡ same_nexus self.now (record { port = port.now; group = group }) }
    {
        self.group == group && self.isid == port.isid() && self.name() == port.name()
    }

    /// Whether both are one nexus.
    pub fn same(&self, other: &Nexus) -> bool
        ensures same { result ≡ same_nexus self.now other.now }
        ensures one { IsTrue result ↔ (self.now ≡ other.now) }
    {
        self.group == other.group && self.is_of_port(other)
    }

    /// Where this nexus stands beside another in the order of nexuses.
    pub fn compare(&self, other: &Nexus) -> Ordering
        ensures { result ≡ nexus_cmp self.now other.now }
    {
        let by_name = self.name().cmp(other.name());
        by_name
            .then(self.isid.cmp(&other.isid))
            .then(self.group.cmp(&other.group))
    }
}
