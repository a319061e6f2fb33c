//! Registration files in memory.
use aptpl_file::{FILE_BLOCKS, RegFile};
use block_file::MemBlocks;
use std::alloc::Global;

/// The calls of an open: the root, the slot, and a flush.
pub const OPEN_CALLS: u64 = 3;

/// A formatted file in memory, where there is enough of that.
pub fn formatted(alloc: Global) -> Option<RegFile<MemBlocks>> {
    let Ok(device) = MemBlocks::new(alloc, FILE_BLOCKS) else {
        return None;
    };
    RegFile::format(device).ok()
}
