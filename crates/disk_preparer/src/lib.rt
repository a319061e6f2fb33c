//! What makes a disk ready for the calls that are to come.
//!
//! A device serves one call at a time, under its unit's lock, and waits there for its disk. A [`Preparer`] is a handle of its own
//! on the same disk, by which any thread waits without the lock: before it takes the lock, for the blocks that it will read; and
//! behind it, for the flush of what it wrote. It may also read these blocks itself ([`BlockMemory`]): the device takes them where no
//! write of its own has ended since, and else reads them once more. It changes no block: a unit that is not prepared, or by a preparer
//! that fails to read, does the same and waits longer.
#![tactic(auto)]

ghost use Rattle.std.specs.Prelude.{◌≡◌, Bool, IfSome, IsTrue, false, length};

mod account;
mod memory;

pub use account::Account;
pub use memory::{Beside, BlockMemory};
use std::time::Duration;

/// The system keeps pages of so many blocks of 512 bytes in memory.
pub const PAGE_BLOCKS: u64 = 8;

/// What a file is by, whatever its names: the number of its file system, and its own there.
#[derive(Clone, Copy, PartialEq, Eq)]
pub struct Node {
    pub device: u64,
    pub number: u64,
}

impl Node {
    /// Whether it is the same file.
    pub fn is(self, other: Node) -> bool
        ensures { IsTrue result → self ≡ other }
    {
        self.device == other.device && self.number == other.number
    }
}

/// A device that is over a file.
pub trait OnDisk {
    ghost use Rattle.disk_preparer.specs.declared.Node.{Node};

    ghost disk: { Self → Node };
}

/// Makes a disk ready for calls of its device, and flushes it, beside the device.
pub trait Preparer: Drop {
    ghost use Rattle.disk_preparer.specs.declared.Node.{Node};

    /// Whether it ever flushes.
    ghost may_flush: { Bool };

    /// Which file its disk is.
    ghost disk: { Self → Node };

    /// A flush of this disk is done. Nothing but a flush says so.
    ghost has_flushed: { Node → Type 0 };

    /// Whether it wants to be told of calls that are to come ([`advise`](Preparer::advise)): one with a deadline always does, one of a
    /// file while its disk counts as slow.
    fn wants_hints(&self) -> bool;

    /// These blocks will be read soon: has the disk fetch them, and waits for none.
    fn advise(&self, first: u64, blocks: u16);

    /// These blocks will be written soon: has the disk fetch what the system has to read before it can write a part of a page.
    fn advise_edges(&self, first: u64, blocks: u16);

    /// Whether it has a use for the session's command with this serial: for each where the disk has been slow of late, else for some
    /// of them, by which it sees that.
    fn wants(&self, serial: u64) -> bool;

    /// These blocks are read next: waits until the disk has fetched them, where it has been slow of late; else it looks how long the
    /// first of them take.
    fn fetch(&self, first: u64, blocks: u16);

    /// These blocks are written next: waits likewise for what the system has to read first.
    fn fetch_edges(&self, first: u64, blocks: u16);

    /// A session's command with this serial writes these blocks next: has the processor fetch them from the system's memory, where
    /// commands of other sessions come between, so that these wait less for the lock.
    fn touch(&self, _serial: u64, _first: u64, _blocks: u16) {}

    /// Reads blocks from this one on beside the device, as many as the memory has bytes for; and looks how long that takes, where it is
    /// asked to. Where it does not read, or the disk fails to, the memory comes back and holds nothing. None: the memory is gone.
    fn read(&self, first: u64, bytes: Vec<u8>, is_looked_at: bool) -> Option<BlockMemory>
        ensures { IfSome result (λ memory. length memory.bytes.items ≡ length bytes.items) };

    /// Whether flushes may be left to it.
    fn flushes(&self) -> bool
        ensures { IsTrue result → IsTrue may_flush };

    /// Makes all last that was written until now. False: this flush has failed, or one before it.
    fn flush(&self) -> bool
        ensures { IsTrue result → has_flushed (disk self.now) };

    /// A session with this account writes so many bytes next: waits, so long at most, where more is written than the disk flushes and
    /// this session has its share of that.
    fn let_in(&self, _bytes: u64, _account: &mut Account, _patience: Duration) {}

    /// Waits until so much was written that it is to be flushed, of a disk that is one among so many. False: it never is any more.
    fn await_flush(&self, _among: u64) -> bool {
        false
    }

    /// Nobody waits for that any more.
    fn close(&self) {}
}
