//! What a unit lends to a command beside its control.

use aptpl_file::RegFile;
use block_file::{Blocks, Opener};
use reservations::Registry;

/// The devices of a unit.
#[derive(Drop)]
pub struct UnitDevices<B: Blocks, F: Blocks, O: Opener<B>> {
    /// The blocks.
    pub device: B,
    /// Opens the blocks for the controller that takes the unit over.
    pub opener: O,
    /// The registration file.
    pub file: RegFile<F>,
    /// Where a PERSISTENT RESERVE OUT makes its registry.
    pub scratch: Registry,
}
