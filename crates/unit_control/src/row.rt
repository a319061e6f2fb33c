//! What the status board shows of a unit.
use access_states::AccessState;
use scsi_types::Group;

/// What the status board shows of a unit: it says nothing of its blocks.
#[derive(Clone, Copy, Debug, PartialEq, Eq)]
pub struct UnitRow {
    /// How many entries its history has.
    pub entries: u64,
    /// The group that owns it.
    pub owner: Group,
    /// The access state of group 1, and of group 2 (SPC-4, 5.15.2.4).
    pub states: [AccessState; 2],
    /// PRGENERATION (SPC-4, 6.15.2).
    pub generation: u32,
    /// How many nexuses are registered.
    pub registrants: usize,
    /// The TYPE of its reservation (SPC-4, 6.15.3.4), or 0 where it has none.
    pub kind: u8,
}
