//! A file that has to keep its name.
ghost use Rattle.std.specs.Prelude.{◌≡◌, ◌<◌, ◌≤◌, ◌+◌, ◌*◌, [], false, length, min, IsErr, IfOk, OnOk, OnErr};
ghost use Rattle.std.proofs.Common.{arith};
ghost use Rattle.block_file.specs.declared.blocks.TheConstants.{BLOCK_LENGTH};
ghost use Rattle.block_file.specs.Cut.{IsRun};
ghost use Rattle.block_file.specs.Failures.{Counts, last_count};
ghost use Rattle.disk_files.specs.Lasting.{IsSettled};
ghost use Rattle.disk_files.specs.System.{has_read, has_written, lasts};
ghost use Rattle.disk_files.specs.Tally.{failures_with, writes_failed_with};

use crate::FileBlocks;
use crate::file_device::FileDevice;
use crate::system::{SystemFile, number_of};
use block_file::{Blocks, DeviceFailed};
use disk_preparer::{Node, OnDisk};
use events::Call;
use std::alloc::{AllocError, Global};
use std::fs;
use std::fs::File;
use std::os::unix::fs::MetadataExt;
use std::rt::Files;

/// The blocks of a file that the next start finds by its name alone, as a registration file. Nothing is written, and no flush is
/// told as done, while the name is another file's or nobody's: what were saved then would be lost.
#[derive(Drop)]
pub struct NamedBlocks<R: Files<File = File> + Drop> {
    rt: R,
    blocks: FileBlocks<SystemFile>,
    path: String,
    node: Node,
    // How often a call failed since the name was not the file's.
    unnamed: u64,
    ghost of: { blocks.file.node ≡ node },
}

impl<R: Files<File = File> + Drop> NamedBlocks<R> {
    /// Those of a file that has this name.
    pub fn new(
        rt: R,
        alloc: Global,
        path: &str,
        blocks: FileBlocks<SystemFile>,
        node: Node,
    ) -> Result<NamedBlocks<R>, AllocError>
        requires { blocks.file.node ≡ node }
        ensures { IfOk result (λ d. d.node ≡ node) }
    {
        match String::from_str(alloc, path) {
            Ok(path) => Ok(NamedBlocks {
                rt,
                blocks,
                path,
                node,
                unnamed: 0,
            }),
            Err(fault) => Err(fault),
        }
    }

    /// Which file they are of.
    pub fn node(&self) -> Node
        ensures { result ≡ self.now.node }
    {
        self.node
    }

    // Whether the name is the file's. It is told where not.
    fn is_named(&self) -> bool {
        match fs::metadata(&self.rt, self.path.as_str()) {
            Ok(found) => {
                let found = Node {
                    device: found.dev(),
                    number: found.ino(),
                };
                let is_named = found.is(self.node);
                if is_named {
                    self.blocks.tell_well(Call::Open);
                } else {
                    self.blocks.tell(Call::Open, 0, 0, 0);
                }
                is_named
            }
            Err(e) => {
                self.blocks.tell(Call::Open, 0, 0, number_of(&e));
                false
            }
        }
    }

    // A call fails, since the name is not the file's.
    fn refuse(&mut self) -> Result<(), DeviceFailed>
        ensures err { IsErr result }
        ensures blocks { self.new.blocks ≡ self.old.blocks }
        ensures node { self.new.node ≡ self.old.node }
        ensures count { self.new.unnamed ≡ min (self.old.unnamed + 1) last_count }
    {
        self.unnamed = self.unnamed.saturating_add(1);
        Err(DeviceFailed)
    }
}

impl<R: Files<File = File> + Drop> OnDisk for NamedBlocks<R> {
    ghost disk = { λ d. d.node };
}

impl<R: Files<File = File> + Drop> Blocks for NamedBlocks<R> {
    ghost claims = { false };

    ghost claims_moments = { false };

    ghost size = { λ d. d.blocks.count };

    ghost contents = { λ d. [] };

    ghost may_hold = { λ d k value. Unit {0} };

    ghost moment = { λ d. 0 };

    ghost left_since = { λ d t disk. Unit {0} };

    ghost reads_failed = { λ d. min d.blocks.tally.failed_reads last_count };

    ghost writes_failed = { λ d. writes_failed_with d.unnamed d.blocks.tally };

    ghost failures = { λ d. failures_with d.unnamed d.blocks.tally };

    ghost fits = { λ d. d.blocks.fits };

    ghost summed = { λ d. Prim.omega arith };

    ghost bounded = { λ d. Prim.omega arith };

    ghost sized = { λ d h. Prim.cc };

    ghost wide = { λ d k h. Prim.cc };

    ghost is_outcome = { λ d k h lt. tt };

    ghost counts_now = { λ d t disk h. Prim.cc };

    ghost only_now = { λ d disk h. Prim.cc };

    fn count(&self) -> u32 {
        self.blocks.count()
    }

    fn read_run(&mut self, first: u32, bytes: &mut [u8]) -> Result<(), DeviceFailed>
        requires { IsRun self.old.blocks.count first (length bytes.old) }
        ensures size { self.new.blocks.count ≡ self.old.blocks.count }
        ensures node { self.new.node ≡ self.old.node }
        ensures said { OnOk result (has_read self.old.node (BLOCK_LENGTH * first) bytes.new) }
        ensures failures { Counts (failures_with self.old.unnamed self.old.blocks.tally)
            (failures_with self.new.unnamed self.new.blocks.tally) result }
        ensures failed_reads { Counts (min self.old.blocks.tally.failed_reads last_count)
            (min self.new.blocks.tally.failed_reads last_count) result }
        ensures failed_writes { writes_failed_with self.new.unnamed self.new.blocks.tally
            ≡ writes_failed_with self.old.unnamed self.old.blocks.tally }
        ensures written { self.new.blocks.writes.count ≡ self.old.blocks.writes.count }
    {
        self.blocks.read_run(first, bytes)
    }

    fn write_run(&mut self, first: u32, bytes: &[u8]) -> Result<(), DeviceFailed>
        requires { IsRun self.old.blocks.count first (length bytes.now) }
        ensures size { self.new.blocks.count ≡ self.old.blocks.count }
        ensures node { self.new.node ≡ self.old.node }
        ensures said { OnOk result (has_written self.old.node (BLOCK_LENGTH * first) bytes.now) }
        ensures failures { Counts (failures_with self.old.unnamed self.old.blocks.tally)
            (failures_with self.new.unnamed self.new.blocks.tally) result }
        ensures failed_reads { self.new.blocks.tally.failed_reads ≡ self.old.blocks.tally.failed_reads }
        ensures failed_writes { Counts (writes_failed_with self.old.unnamed self.old.blocks.tally)
            (writes_failed_with self.new.unnamed self.new.blocks.tally) result }
        ensures counted { OnOk result (self.new.blocks.writes.count ≡ min (self.old.blocks.writes.count + 1) last_count) }
    {
        if !self.is_named() {
            return self.refuse();
        }
        self.blocks.write_run(first, bytes)
    }

    fn flush(&mut self) -> Result<(), DeviceFailed>
        ensures size { self.new.blocks.count ≡ self.old.blocks.count }
        ensures node { self.new.node ≡ self.old.node }
        ensures failures { Counts (failures_with self.old.unnamed self.old.blocks.tally)
            (failures_with self.new.unnamed self.new.blocks.tally) result }
        ensures failed_reads { self.new.blocks.tally.failed_reads ≡ self.old.blocks.tally.failed_reads }
        ensures failed_writes { Counts (writes_failed_with self.old.unnamed self.old.blocks.tally)
            (writes_failed_with self.new.unnamed self.new.blocks.tally) result }
        ensures written { self.new.blocks.writes.count ≡ self.old.blocks.writes.count }
        ensures lasts { OnOk result (IsSettled (lasts self.old.node) self.old.blocks.writes.count) }
        ensures lost { OnOk result (self.old.blocks.tally.is_lost ≡ false) }
    {
        match self.blocks.flush() {
            Ok(()) if !self.is_named() => self.refuse(),
            end => end,
        }
    }
}

impl<R: Files<File = File> + Drop> FileDevice for NamedBlocks<R> {
    ghost has_read = { has_read };

    ghost has_written = { has_written };

    ghost lasts = { lasts };

    ghost writes = { λ d. d.blocks.writes.count };

    ghost is_lost = { λ d. d.blocks.tally.is_lost };

    fn disk(&self) -> Node {
        self.node()
    }

    fn ended_writes(&self) -> u64 {
        self.blocks.ended_writes()
    }

    fn read_of(&mut self, first: u32, bytes: &mut [u8]) -> Result<(), DeviceFailed> {
        self.read_run(first, bytes)
    }

    fn write_of(&mut self, first: u32, bytes: &[u8]) -> Result<(), DeviceFailed> {
        self.write_run(first, bytes)
    }

    fn flush_of(&mut self) -> Result<(), DeviceFailed> {
        self.flush()
    }
}
