//! REPORT TARGET PORT GROUPS data.
ghost use Rattle.std.specs.Prelude.{◌≡◌};
ghost use Rattle.access_states.specs.Report.{group_descriptor, pref_bit, report_bytes};

use crate::GroupAccess;
use scsi_types::Group;

/// U_SUP, S_SUP, AN_SUP and AO_SUP: the states that are supported.
const SUPPORTED_STATES: u8 = 0x0F;

/// The whole data, of a unit that prefers this group and whose groups have this access.
#[tactic(auto, unfolding(crate::specs::Report::report_bytes))]
pub fn report_bytes(preferred: Group, one: GroupAccess, two: GroupAccess) -> [u8; 28]
    ensures { result ≡ report_bytes preferred (record { one = one; two = two }) }
{
    let mut bytes = [0; 28];
    bytes[3] = 24;
    bytes[4..16].copy_from_slice(&group_descriptor(preferred, Group::One, one));
    bytes[16..].copy_from_slice(&group_descriptor(preferred, Group::Two, two));
    bytes
}

// The target port group descriptor of a group, with that of its one port.
fn group_descriptor(preferred: Group, group: Group, access: GroupAccess) -> [u8; 12]
    ensures { result ≡ group_descriptor preferred group access }
{
    let number = group.number();
    let state = pref_bit(preferred, group) + access.state.code();
    let status = access.status_code();
    [
        state,
        SUPPORTED_STATES,
        0,
        number,
        0,
        status,
        0,
        1,
        0,
        0,
        0,
        number,
    ]
}

// PREF, where the group is the preferred one.
fn pref_bit(preferred: Group, group: Group) -> u8
    ensures { result ≡ pref_bit preferred group }
{
    if preferred == group { 0x80 } else { 0 }
}
