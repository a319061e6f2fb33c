//! Where a save failed.
use thiserror::Error;

/// Where the device failed in a save. What a crash may leave then follows from the place.
#[derive(Clone, Copy, Debug, PartialEq, Eq, Error)]
pub enum SaveFault {
    /// At the root that an earlier save left undecided, and that was to be written again: a crash leaves what it might
    /// have left before.
    #[error("the device failed at the old root")]
    OldRoot,
    /// At the slot that the root does not name: a crash leaves the record that the root names.
    #[error("the device failed at the slot")]
    IdleSlot,
    /// At the root that names the new record: a crash leaves that record, or the one before.
    #[error("the device failed at the new root")]
    NewRoot,
}
