//! Blocks that are read beside their unit, by the gate of the product before a disk in a file. By another handle a block of the file
//! changes behind the read, of which the device is told nothing: so it shows whether it took what was read, or read once more.
ghost use Rattle.session_units.specs.Disks.{no_file};

use crate::ends::must;
use crate::files::{disk_in, memory};
use crate::prepared::Nameless;
use block_file::{Blocks, ReplyMemory};
use disk_files::FileBlocks;
use disk_preparer::{BlockMemory, Preparer};
use file_preparer::FilePreparer;
use scsi_types::Command;
use session_units::{Gate, Prepared};
use std::alloc::Global;
use std::fs::{File, Files};
use std::process;
use std::process::Abort;
use std::sync::Wait;
use std::test::*;
use std::time::Clock;
use test_disks::{clean, folder, given, writes};

/// A preparer that reads as another one does, and does nothing else.
#[derive(Drop)]
struct Reading<P: Preparer> {
    by: P,
}

impl<P: Preparer> Preparer for Reading<P> {
    ghost may_flush = { P.may_flush };

    ghost disk = { λ p. no_file };

    ghost has_flushed = { λ disk. Unit {0} };

    fn wants_hints(&self) -> bool {
        false
    }

    fn advise(&self, _first: u64, _blocks: u16) {}

    fn advise_edges(&self, _first: u64, _blocks: u16) {}

    fn wants(&self, _serial: u64) -> bool {
        true
    }

    fn fetch(&self, _first: u64, _blocks: u16) {}

    fn fetch_edges(&self, _first: u64, _blocks: u16) {}

    fn read(&self, first: u64, bytes: Vec<u8>, is_looked_at: bool) -> Option<BlockMemory> {
        self.by.read(first, bytes, is_looked_at)
    }

    fn flushes(&self) -> bool {
        self.by.flushes()
    }

    fn flush(&self) -> bool {
        self.by.flush()
    }
}

/// What block 1 has when the gate reads, and what it has from then on.
pub const BEFORE: u8 = 0x11;

pub const SINCE: u8 = 0x22;

/// A READ of one block that passes the gate, whether a write of another block ends then, and what the device gives for block 1.
#[derive(Clone, Copy)]
struct Passing {
    name: &'static str,
    unit: usize,
    lba: u64,
    fua: bool,
    is_written: bool,
    gives: u8,
}

/// One that is read beside its unit, and taken.
const TAKEN: Passing = Passing {
    name: "taken",
    unit: 0,
    lba: 1,
    fua: false,
    is_written: false,
    gives: BEFORE,
};

// What is read beside its unit is taken, unless the name says why it is read again: then the block is as it is since.
fn passings() -> [Passing; 5] {
    let read_again = Passing {
        gives: SINCE,
        ..TAKEN
    };
    [
        TAKEN,
        Passing {
            name: "a write has ended since",
            is_written: true,
            ..read_again
        },
        Passing {
            name: "FUA",
            fua: true,
            ..read_again
        },
        Passing {
            name: "another block was read",
            lba: 0,
            ..read_again
        },
        Passing {
            name: "a unit without a preparer",
            unit: 1,
            ..read_again
        },
    ]
}

// Memory for one block.
fn room(alloc: Global) -> Option<ReplyMemory> {
    let bytes = memory(alloc)?;
    Some(ReplyMemory::with(alloc, BlockMemory::fresh(bytes)))
}

// What the device gives where a READ passes the gate so.
fn passed<B: Blocks, G: Gate>(
    alloc: Global,
    gate: &G,
    device: &mut B,
    other: &mut B,
    passing: Passing,
) -> Option<u8> {
    if !writes(device, 1, &[BEFORE]) {
        return None;
    }
    let asked = Ok(Command::Read {
        lba: passing.lba,
        blocks: 1,
        fua: passing.fua,
    });
    let room = gate.read(passing.unit, 0, &asked, room(alloc)?);
    if !writes(other, 1, &[SINCE]) || passing.is_written && !writes(device, 2, &[SINCE]) {
        return None;
    }
    given(device, 1, room.memory(512).ok()?)
}

// Has each READ pass before a disk of four blocks in a file.
fn pass_all<R: Clock + Wait + Files<File = File> + Abort + Copy + Drop>(
    rt: &R,
    alloc: Global,
    path: &str,
) {
    let mut device = FileBlocks::open(rt, path).expect(rt, path);
    let mut other = FileBlocks::open(rt, path).expect(rt, path);
    let by = FilePreparer::open(*rt, alloc, path, &mut device, None);
    let mut of = Vec::new(alloc);
    of.push(Reading { by }).expect(rt, "memory");
    let gate = Prepared::<_, Nameless>::new(of);
    for passing in &passings() {
        let given = passed(alloc, &gate, &mut device, &mut other, *passing);
        must(rt, given == Some(passing.gives), passing.name, &given);
    }
}

#[test]
fn a_read_beside_its_unit_is_taken_unless_a_write_has_ended_since(rt: HostRuntime) {
    let alloc = rt.alloc();
    let folder = folder(&rt, process::id(rt.process()), "beside").expect(&rt, "a folder");
    let path = disk_in(&rt, alloc, folder.as_str());
    let path = path.as_str();
    pass_all(&rt, alloc, path);
    clean(&rt, folder.as_str()).expect(&rt, "a folder");
}
