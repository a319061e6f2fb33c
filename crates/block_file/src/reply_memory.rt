//! What a command takes its memory from.
ghost use Rattle.std.specs.Prelude.{◌≡◌, length, IfOk};

use disk_preparer::BlockMemory;
use std::alloc::{AllocError, Global};

/// Memory for the data of a reply: some that was made ready for it, and where more comes from.
#[derive(Drop)]
pub struct ReplyMemory {
    alloc: Global,
    ready: Option<BlockMemory>,
}

impl ReplyMemory {
    /// None is ready.
    pub fn new(alloc: Global) -> ReplyMemory {
        ReplyMemory { alloc, ready: None }
    }

    /// This memory is ready.
    pub fn with(alloc: Global, ready: BlockMemory) -> ReplyMemory {
        ReplyMemory {
            alloc,
            ready: Some(ready),
        }
    }

    /// Where memory comes from.
    pub fn alloc(&self) -> Global {
        self.alloc
    }

    /// The memory that is ready, if any is.
    pub fn into_ready(self) -> Option<BlockMemory> {
        self.ready
    }

    /// Memory of so many bytes for blocks: what is ready, where it has just as many; else memory that is taken now. An error where
    /// there is none.
    pub fn memory(self, count: usize) -> Result<BlockMemory, AllocError>
        ensures { IfOk result (λ memory. length memory.bytes.items ≡ count) }
    {
        match self.ready {
            Some(ready) if ready.bytes.len() == count => Ok(ready),
            _ => Ok(BlockMemory::fresh(vec![in self.alloc; 0; count]?)),
        }
    }
}
