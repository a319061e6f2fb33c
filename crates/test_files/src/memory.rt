//! A file in memory, which claims what it holds.
ghost use Rattle.std.specs.Prelude.{◌≡◌, ◌⊎◌, ◌+◌, ◌≤◌, length, true, refl, replicate, IsTrue, IfOk, IfSome, IfNone};
ghost use Rattle.std.proofs.Common.{inl};
ghost use Rattle.block_file.specs.Cut.{run_of};
ghost use Rattle.block_file.specs.Disk.{block_at};
ghost use Rattle.disk_files.specs.Backing.{put};

use crate::ends::must;
use block_file::Blocks;
use disk_files::{BackingFile, Counted, FileBlocks};
use disk_preparer::Node;
use std::alloc::{AllocError, Global};
use std::process::Abort;
use test_connections::bytes_of;
use test_disks::{is_done_on, row_of};

/// A file in memory. A crash leaves each sector as it was when it was flushed last, or as it is.
#[derive(Drop)]
pub struct MemFile {
    bytes: Vec<u8>,
    lasting: Vec<u8>,
    ghost as_long: { length lasting.items ≡ length bytes.items },
}

impl MemFile {
    /// So many zero bytes.
    pub fn new(alloc: Global, bytes: usize) -> Result<MemFile, AllocError>
        ensures { IfOk result (λ f. f.bytes.items ≡ replicate bytes 0) }
    {
        Ok(MemFile {
            bytes: vec![in alloc; 0u8; bytes]?,
            lasting: vec![in alloc; 0u8; bytes]?,
        })
    }

    /// The bytes.
    pub fn bytes(&self) -> &[u8] {
        &self.bytes
    }

    /// What a crash leaves that takes back all that was not flushed.
    pub fn crash(self) -> MemFile
        ensures { result.bytes.items ≡ self.lasting.items }
    {
        let MemFile { mut bytes, lasting } = self;
        bytes.copy_from_slice(&lasting);
        MemFile { bytes, lasting }
    }

    // Where a call of so many bytes at an offset begins, if it lies in the file.
    fn place(&self, offset: u64, len: usize) -> Option<usize>
        ensures some { IfSome result (λ from. (from ≡ offset) × (from + len ≤ length self.now.bytes.items)) }
        ensures none { IfNone result (offset + len ≤ length self.now.bytes.items → ⊥) }
    {
        let from = usize::try_from(offset).ok()?;
        match from.checked_add(len) {
            Some(end) if end <= self.bytes.len() => Some(from),
            _ => None,
        }
    }
}

impl Counted for MemFile {
    ghost ended = { λ writes. true };
}

impl BackingFile for MemFile {
    ghost claims = { true };

    ghost bytes = { λ f. f.bytes.items };

    ghost may_hold = { λ f k value. (value ≡ block_at (run_of f.bytes.items) k)
        ⊎ (value ≡ block_at (run_of f.lasting.items) k) };

    ghost node = { λ f. record { device = 0; number = 0 } };

    // What it claims says it.
    ghost has_read = { λ node offset bytes. Unit {0} };

    ghost has_written = { λ node offset bytes. Unit {0} };

    ghost lasts = { λ node writes. Unit {0} };

    ghost is_outcome = { λ f k h lt. inl refl };

    ghost none_has_ended = { refl };

    fn node(&self) -> Node {
        Node {
            device: 0,
            number: 0,
        }
    }

    fn end(&self) -> Result<u64, u32> {
        Ok(self.bytes.len() as u64)
    }

    fn read_at(&self, room: &mut [u8], offset: u64) -> Result<(), u32> {
        let Some(from) = self.place(offset, room.len()) else {
            return Err(0);
        };
        room.copy_from_slice(&self.bytes[from..from + room.len()]);
        Ok(())
    }

    fn write_at(&mut self, part: &[u8], offset: u64, _writes: u64) -> Result<(), u32> {
        let Some(from) = self.place(offset, part.len()) else {
            return Err(0);
        };
        lay(&mut self.bytes, from, part);
        Ok(())
    }

    fn flush(&mut self, _writes: u64) -> Result<(), u32> {
        self.lasting.copy_from_slice(&self.bytes);
        Ok(())
    }
}

// Lays bytes over those from a place on.
fn lay(bytes: &mut Vec<u8>, from: usize, part: &[u8])
    requires { from + length part.now ≤ length bytes.old.items }
    ensures long { length bytes.new.items ≡ length bytes.old.items }
    ensures is { bytes.new.items ≡ put bytes.old.items from part.now }
{
    bytes[from..from + part.len()].copy_from_slice(part);
}

/// What its contracts say of the blocks and of a crash is said of this one.
fn it_claims()
    ensures { IsTrue (⟦<FileBlocks<MemFile> as Blocks>⟧.claims) }
{}

// Calls on a device of four blocks.
fn rows() -> &'static str {
    "blocks 4
read 0 00 00 00 00
write 1 07 08
write 3 09
read 0 00 07 08 09
read 2 08 09"
}

// Makes the calls of rows.
fn make<B: Blocks>(rt: &impl Abort, alloc: Global, blocks: &mut B, rows: &str) {
    for line in rows.split('\n') {
        let is_done = is_done_on(alloc, blocks, &row_of(line));
        must(rt, is_done == Some(true), "a call", &line);
    }
}

// What a crash leaves of the file of a device of which these calls were made, with a flush behind them or without.
fn leaves(rt: &impl Abort, alloc: Global, flushes: bool, left: &str) {
    let file = MemFile::new(alloc, 2048).expect(rt, "memory");
    let mut blocks = FileBlocks::of(file).expect(rt, "a device");
    make(rt, alloc, &mut blocks, rows());
    if flushes {
        make(rt, alloc, &mut blocks, "flush");
    }
    let file = blocks.into_file();
    are(rt, alloc, file.bytes(), "512*00 512*07 512*08 512*09");
    are(rt, alloc, file.crash().bytes(), left);
}

// These are the bytes that the words spell.
fn are(rt: &impl Abort, alloc: Global, bytes: &[u8], words: &str) {
    let spelled = bytes_of(alloc, &[], words).expect(rt, words);
    must(rt, bytes == spelled.as_slice(), words, &());
}

// What was not flushed is taken back by a crash, which leaves zeros, and nothing else.
#[test]
fn what_a_crash_leaves(rt: HostRuntime) {
    it_claims();
    leaves(&rt, rt.alloc(), false, "2048*00");
    leaves(&rt, rt.alloc(), true, "512*00 512*07 512*08 512*09");
}
