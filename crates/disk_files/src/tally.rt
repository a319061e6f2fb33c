//! What a device counts.

/// What the device of a file has counted.
#[derive(Clone, Copy)]
pub struct Tally {
    /// How often it was opened anew.
    pub opened: u64,
    pub failed_reads: u64,
    /// Of writes and of flushes.
    pub failed_writes: u64,
    /// Whether a flush has failed.
    pub is_lost: bool,
}

impl Tally {
    /// Of a device of which no call was made yet.
    pub(crate) const NONE: Tally = Tally {
        opened: 0,
        failed_reads: 0,
        failed_writes: 0,
        is_lost: false,
    };
}
