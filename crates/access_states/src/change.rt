//! What differs between two access maps of a unit.
use scsi_types::Group;

/// What differs between two access maps of a unit: the one before a change of access states, and the one behind it.
#[derive(Clone, Copy, Debug)]
pub struct Change {
    /// Whether the state of group 1, and of group 2, has changed.
    pub changed: [bool; 2],
    /// The new owner; none where the owner stayed.
    pub owner: Option<Group>,
}
