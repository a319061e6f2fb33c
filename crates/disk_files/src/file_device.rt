//! A device over a file that says which calls were made of it.
ghost use Rattle.std.specs.Prelude.{◌≡◌, ◌+◌, ◌*◌, ◌/◌, false, List, ℕ, length, min, IsTrue, OnOk};
ghost use Rattle.block_file.specs.declared.blocks.TheConstants.{BLOCK_LENGTH};
ghost use Rattle.block_file.specs.Cut.{run_of, IsRun};
ghost use Rattle.block_file.specs.Disk.{written, range_bytes, Only};
ghost use Rattle.block_file.specs.Failures.{last_count};
ghost use Rattle.disk_files.specs.Lasting.{IsSettled};

use crate::FileBlocks;
use crate::backing::BackingFile;
use block_file::{BLOCK_LENGTH, Blocks, DeviceFailed};
use disk_preparer::{Node, OnDisk};

/// A device over a file (`disk`). Its calls say which calls were made of that file, in the words of whoever makes them: so one that keeps
/// a device which it does not know can pass them on.
pub trait FileDevice: Blocks + OnDisk {
    ghost use Rattle.std.specs.Prelude.{Bool};
    ghost use Rattle.disk_preparer.specs.declared.Node.{Node};

    /// These bytes were read from an offset of a file on.
    ghost has_read: { Node → ℕ → List ℕ → Type 0 };

    /// These bytes were written from an offset of a file on.
    ghost has_written: { Node → ℕ → List ℕ → Type 0 };

    /// A flush of a file ended well that began when so many writes of its device had ended.
    ghost lasts: { Node → ℕ → Type 0 };

    /// How many writes of the device have ended, well or not.
    ghost writes: { Self → ℕ };

    /// A flush of the device has failed, so each later one does.
    ghost is_lost: { Self → Bool };

    /// Which file it is over.
    fn disk(&self) -> Node
        ensures { result ≡ Self.disk self.now };

    /// How many of its writes have ended.
    fn ended_writes(&self) -> u64
        ensures { result ≡ writes self.now };

    /// Reads a run, as `read_run`: at 512 times the number of its first block.
    fn read_of(&mut self, first: u32, bytes: &mut [u8]) -> Result<(), DeviceFailed>
        requires { IsRun (Self.size self.old) first (length bytes.old) }
        ensures said { OnOk result (has_read (Self.disk self.old) (BLOCK_LENGTH * first) bytes.new) }
        ensures read { IsTrue Self.claims → OnOk result
            (bytes.new ≡ range_bytes (Self.contents self.old) first (length bytes.new / BLOCK_LENGTH)) };

    /// Writes a run, as `write_run`: at 512 times the number of its first block. One that is done has ended.
    fn write_of(&mut self, first: u32, bytes: &[u8]) -> Result<(), DeviceFailed>
        requires { IsRun (Self.size self.old) first (length bytes.now) }
        ensures said { OnOk result (has_written (Self.disk self.old) (BLOCK_LENGTH * first) bytes.now) }
        ensures counted { OnOk result (writes self.new ≡ min (writes self.old + 1) last_count) }
        ensures written { IsTrue Self.claims
            → OnOk result (Self.contents self.new ≡ written (Self.contents self.old) first (run_of bytes.now)) };

    /// Makes what was written last, as `flush`: a flush of the file ended well that began behind each of these writes.
    fn flush_of(&mut self) -> Result<(), DeviceFailed>
        ensures lasts { OnOk result (IsSettled (lasts (Self.disk self.old)) (writes self.old)) }
        ensures sound { OnOk result (is_lost self.old ≡ false) }
        ensures durable { IsTrue Self.claims → OnOk result (Only (Self.contents self.old) (Self.may_hold self.new)) };
}

impl<F: BackingFile> FileDevice for FileBlocks<F> {
    ghost has_read = { F.has_read };

    ghost has_written = { F.has_written };

    ghost lasts = { F.lasts };

    ghost writes = { λ d. d.writes.count };

    ghost is_lost = { λ d. d.tally.is_lost };

    fn disk(&self) -> Node {
        self.node()
    }

    fn ended_writes(&self) -> u64 {
        self.writes.count
    }

    fn read_of(&mut self, first: u32, bytes: &mut [u8]) -> Result<(), DeviceFailed> {
        self.read_run(first, bytes)
    }

    fn write_of(&mut self, first: u32, bytes: &[u8]) -> Result<(), DeviceFailed> {
        self.write_run(first, bytes)
    }

    fn flush_of(&mut self) -> Result<(), DeviceFailed> {
        self.flush()
    }
}
