//! The gate of the product, before disks that count what they are asked.
ghost use Rattle.std.specs.Prelude.{[]};
ghost use Rattle.session_units.specs.Disks.{no_file};

use crate::ends::must;
use crate::seen::{SeeingPreparer, Seen, share};
use block_file::ReplyMemory;
use scsi_types::{Asked, Command};
use session_units::{Disks, Gate, Pass, Prepared};
use std::alloc::Global;
use std::process::Abort;
use std::sync::Arc;

/// Disks whose files have no name.
#[derive(Drop)]
pub struct Nameless;

impl Disks for Nameless {
    ghost disk = { λ place. no_file };
}

/// A pass of a unit at this place.
#[derive(Drop)]
struct At {
    place: usize,
}

impl Pass for At {
    ghost held = { λ p. record { place = p.place; pass = record { session = 0; serial = 0; seen = [] } } };

    fn place(&self) -> usize {
        self.place
    }

    fn next_serial(&self) -> u64 {
        0
    }
}

// Of three disks: whether they flush, and whether a flush is done; and how often each is asked what it wants, fetches and is flushed.
const DISKS: [(bool, bool, (u64, u64, u64)); 3] = [
    (true, true, (1, 0, 1)),
    (true, false, (1, 1, 1)),
    (false, true, (1, 1, 1)),
];

// The gate before them, and what is seen of each.
fn gate(
    rt: &impl Abort,
    host: HostRuntime,
    alloc: Global,
) -> (Prepared<SeeingPreparer, Nameless>, Vec<Arc<Seen, Global>>) {
    let (mut of, mut disks) = (Vec::new(alloc), Vec::new(alloc));
    for (flushes, is_done, _) in &DISKS {
        let seen = Seen::nothing(rt, alloc);
        let by = SeeingPreparer {
            rt: host,
            seen: share(rt, &seen),
            flushes: *flushes,
            is_done: *is_done,
        };
        of.push(by).expect(rt, "memory");
        disks.push(seen).expect(rt, "memory");
    }
    (Prepared::<SeeingPreparer, Nameless>::new(of), disks)
}

// A READ of the first block.
fn read(fua: bool) -> Asked {
    Ok(Command::Read {
        lba: 0,
        blocks: 1,
        fua,
    })
}

// Each unit is flushed by its own disk, where that flushes, and a fourth one by none.
fn settle<G: Gate>(rt: &impl Abort, gate: &G) {
    for (unit, settles, is_done) in &[
        (0, true, true),
        (1, true, false),
        (2, false, true),
        (3, false, false),
    ] {
        must(rt, gate.flushes_behind(*unit) == *settles, "settles", unit);
        let has_settled = gate.flush_behind(&At { place: *unit });
        must(rt, has_settled == *is_done, "has settled", unit);
    }
    must(rt, !gate.wants_prefetch(), "the gate", &"wants prefetch");
}

// The preparer of a READ wants blocks where it has serial 7. One that does not come from the medium is read beside its unit, too
// (`Gate::read`), and asked once.
fn fetch<G: Gate>(alloc: Global, gate: &G) {
    gate.fetch(1, 7, &read(true));
    gate.fetch(0, 8, &read(true));
    gate.fetch(3, 7, &read(true));
    gate.fetch(2, 7, &read(false));
    let _room = gate.read(2, 7, &read(false), ReplyMemory::new(alloc));
}

#[test]
fn each_unit_has_its_own_disk_made_ready_and_flushed(rt: HostRuntime) {
    let alloc = rt.alloc();
    let (gate, disks) = gate(&rt, rt, alloc);
    settle(&rt, &gate);
    fetch(alloc, &gate);
    for (seen, (_, _, expected)) in disks.iter().zip(&DISKS) {
        let counted = seen.prepared();
        must(&rt, counted == *expected, "counted", &counted);
    }
}
