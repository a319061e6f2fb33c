//! Devices that fail.
use block_file::{FusedBlocks, MemBlocks};
use crash_blocks::{CrashBlocks, Pick};
use std::alloc::{AllocError, Global};

/// Which calls of a device fail: each is the read or the write of a run, or a flush.
#[derive(Clone, Copy)]
pub struct Failing {
    /// So many calls reach the device, and none behind them.
    pub behind: u64,
    /// Where the first of these is a write, so many blocks of its run are written.
    pub lands: u32,
    /// The call that fails alone.
    pub alone: u64,
}

/// A device in memory of which a loss of power takes back what was not flushed, behind a fuse for the call that fails alone, and one
/// for those behind which none reaches it.
pub type FailingBlocks = FusedBlocks<FusedBlocks<CrashBlocks>>;

impl Failing {
    /// The device of these blocks, of which all were flushed, whose calls fail so.
    pub fn device(self, alloc: Global, blocks: MemBlocks) -> Result<FailingBlocks, AllocError> {
        let blocks = FusedBlocks::window(CrashBlocks::new(alloc, blocks)?, self.alone, 1);
        Ok(FusedBlocks::inside(blocks, self.behind, self.lands))
    }
}

/// What a loss of power leaves of a device.
pub fn crashed(device: FailingBlocks, pick: Pick) -> MemBlocks {
    device.into_inner().into_inner().crash(pick)
}
