//! What a device keeps of what it was asked, for a loss of power.
/// What was asked of a device.
#[derive(Drop)]
pub enum Event {
    /// These bytes were written from a block on.
    Write { first: u32, bytes: Vec<u8> },
    /// What was written was made last.
    Flush,
}
