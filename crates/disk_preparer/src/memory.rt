//! Memory for blocks that are to be read.
ghost use Rattle.std.specs.Prelude.{◌≡◌, IfSome, IsTrue, Some, None};
ghost use Rattle.std.proofs.Props.{props};
ghost use Rattle.disk_preparer.specs.Beside.{was_read};

use crate::Node;

/// Of blocks that were read beside their device: which disk it was, the first block, and of how many of the device's writes it was
/// known before the read that they had ended.
#[derive(Clone, Copy)]
pub struct Beside {
    pub disk: Node,
    pub first: u64,
    pub writes: u64,
}

/// Memory for blocks that are to be read. It may hold them already, as they were read beside their device; `beside` says of what read.
#[derive(Drop)]
pub struct BlockMemory {
    pub bytes: Vec<u8>,
    pub beside: Option<Beside>,
    pub ghost read: { IfSome beside (λ b. IsTrue (was_read b.disk b.first b.writes bytes.items)) } by { Prim.hlevel props },
}

impl BlockMemory {
    /// Memory that holds nothing yet.
    pub fn fresh(bytes: Vec<u8>) -> BlockMemory
        ensures { (result.bytes ≡ bytes) × (result.beside ≡ None) }
    {
        BlockMemory {
            bytes,
            beside: None,
        }
    }

    /// Memory that holds blocks which were read so.
    pub fn read(bytes: Vec<u8>, beside: Beside) -> BlockMemory
        requires { IsTrue (was_read beside.disk beside.first beside.writes bytes.items) }
        ensures { (result.bytes ≡ bytes) × (result.beside ≡ Some beside) }
    {
        BlockMemory {
            bytes,
            beside: Some(beside),
        }
    }

    /// Whether it holds blocks of this disk, from this one on, which were read when just so many writes of the device had ended.
    pub fn holds(&self, disk: Node, first: u64, writes: u64) -> bool
        ensures { IsTrue result → IsTrue (was_read disk first writes self.now.bytes.items) }
    {
        match self.beside {
            Some(beside) => {
                beside.disk.is(disk) && beside.first == first && beside.writes == writes
            }
            None => false,
        }
    }
}
