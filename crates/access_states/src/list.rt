//! The parameter list of SET TARGET PORT GROUPS.
ghost use Rattle.std.specs.Prelude.{◌≡◌, ◌≤◌, ◌+◌, [], ◌∷◌, length};
ghost use Rattle.scsi_types.specs.Cdb.{is_group_list};
ghost use Rattle.access_states.specs.Change.{fault_sense};
ghost use Rattle.access_states.specs.List.{named_by, named_in, descriptor_at};

use crate::AccessState;
use byteorder::{BigEndian, ByteOrder};
use scsi_types::{Sense, is_group_list};
use thiserror::Error;

/// Why a list is refused.
#[derive(Clone, Copy, Debug, PartialEq, Eq, Error)]
pub enum AsetFault {
    /// Its length is no multiple of 4, or above 260.
    #[error("parameter list length error")]
    Length,
    /// It names a group that is not there, or one twice, or a state that is not supported; or it would leave no group or
    /// both groups active/optimized.
    #[error("invalid field in the parameter list")]
    BadList,
}

impl AsetFault {
    /// The sense that tells it.
    pub fn sense(self) -> Sense
        ensures { result ≡ fault_sense self }
    {
        match self {
            AsetFault::Length => Sense::PARAMETER_LIST_LENGTH_ERROR,
            AsetFault::BadList => Sense::INVALID_FIELD_IN_PARAMETER_LIST,
        }
    }
}

/// The states with which the parameter list of a SET TARGET PORT GROUPS names the groups; none for one that it does not name.
#[derive(Clone, Copy)]
pub struct Named {
    pub one: Option<AccessState>,
    pub two: Option<AccessState>,
}

/// A list that names no group.
const NOTHING: Named = Named {
    one: None,
    two: None,
};

/// A set target port group descriptor: ASYMMETRIC ACCESS STATE and TARGET PORT GROUP (SPC-4, 6.45).
#[derive(Clone, Copy)]
pub struct Descriptor {
    pub state: u8,
    pub group: u16,
}

/// The states with which the parameter list of a SET TARGET PORT GROUPS names the groups, or why it is refused (SPC-4, 6.45). `list`
/// is the whole list: four reserved bytes, and four for each group.
#[tactic(auto, using(crate::proofs::Crowd::refused))]
pub fn named_by(list: &[u8]) -> Result<Named, AsetFault>
    ensures { result ≡ named_by list.now }
{
    if !is_list_length(list.len()) {
        return Err(AsetFault::Length);
    }
    // There are two groups: a list of more descriptors names one twice, or one that is not there.
    match list.len() {
        0 | 4 => Ok(NOTHING),
        8 => one_named(descriptor_at(list, 4)),
        12 => two_named(descriptor_at(list, 4), descriptor_at(list, 8)),
        _ => Err(AsetFault::BadList),
    }
}

// Whether a list may have so many bytes.
fn is_list_length(length: usize) -> bool
    ensures { result ≡ is_group_list length }
{
    match u32::try_from(length) {
        Ok(length) => is_group_list(length),
        Err(_) => false,
    }
}

// The descriptor at a byte.
fn descriptor_at(list: &[u8], at: usize) -> Descriptor
    requires { at + 4 ≤ length list.now }
    ensures { result ≡ descriptor_at list.now at }
{
    Descriptor {
        state: list[at] % 16,
        group: BigEndian::read_u16(&list[at + 2..]),
    }
}

// What one descriptor names.
fn one_named(only: Descriptor) -> Result<Named, AsetFault>
    ensures { result ≡ named_in (only ∷ []) }
{
    let Some(state) = AccessState::from_code(only.state) else {
        return Err(AsetFault::BadList);
    };
    match only.group {
        1 => Ok(Named {
            one: Some(state),
            two: None,
        }),
        2 => Ok(Named {
            one: None,
            two: Some(state),
        }),
        _ => Err(AsetFault::BadList),
    }
}

// What two descriptors name.
fn two_named(first: Descriptor, second: Descriptor) -> Result<Named, AsetFault>
    ensures { result ≡ named_in (first ∷ second ∷ []) }
{
    let Some(state) = AccessState::from_code(first.state) else {
        return Err(AsetFault::BadList);
    };
    let Some(other) = AccessState::from_code(second.state) else {
        return Err(AsetFault::BadList);
    };
    match (first.group, second.group) {
        (1, 2) => Ok(Named {
            one: Some(state),
            two: Some(other),
        }),
        (2, 1) => Ok(Named {
            one: Some(other),
            two: Some(state),
        }),
        _ => Err(AsetFault::BadList),
    }
}
