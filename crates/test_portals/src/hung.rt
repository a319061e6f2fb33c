//! Devices that hang, whose calls have a deadline.
ghost use Rattle.std.specs.Prelude.{◌≤◌, IfOk, length};

use crate::ends::done;
use block_file::{KeepOpener, MemBlocks};
use deadline::{Deadlined, DeadlinedOpener};
use disk_preparer::Node;
use event_log::Log;
use events::Part;
use std::alloc::Global;
use std::marker::Brand;
use std::sync::{Arc, Wait};
use std::test::*;
use std::thread::Threads;
use std::time::{Clock, Duration};
use test_memory::{HeldBlocks, Latch, new_unit};
use test_scenes::{Machine, Script};
use timed_calls::Watch;
use unit_history::NewUnit;

/// So many blocks a unit has, and so many seconds a call of its device may take.
const BLOCKS: u32 = 2048;

const PATIENCE: u64 = 2;

/// It lies in no file.
const NO_FILE: Node = Node {
    device: 0,
    number: 0,
};

/// The device of a unit, which may hang, by its thread.
type Timed<R> = Deadlined<R, HeldBlocks<MemBlocks, R>, KeepOpener>;

// One of two units in memory, whose device hangs at this latch, but no longer than its deadline.
fn timed<R: Threads + Wait + Clock + Clone + Drop + Send + Sync + 'static>(
    rt: &R,
    alloc: Global,
    latch: &Arc<Latch<R>, Global>,
    unit: u8,
) -> Result<NewUnit<Timed<R>, MemBlocks, DeadlinedOpener>, Fail> {
    let held = HeldBlocks {
        inner: MemBlocks::new(alloc, BLOCKS)?,
        unit: usize::from(unit),
        latch: Arc::try_clone(latch)?,
    };
    let patience = Duration::from_secs(PATIENCE);
    let watch = Arc::new(
        alloc,
        Watch::new(patience, Log::off(), unit, Part::Disk, NO_FILE),
    )?;
    let timed = Deadlined::start(rt, alloc, held, KeepOpener, NO_FILE, &watch)?;
    new_unit(alloc, timed, DeadlinedOpener::new(), unit, 2)
}

// Both.
fn both<R: Threads + Wait + Clock + Clone + Drop + Send + Sync + 'static>(
    rt: &R,
    alloc: Global,
    latch: &Arc<Latch<R>, Global>,
) -> Result<Vec<NewUnit<Timed<R>, MemBlocks, DeadlinedOpener>>, Fail>
    ensures { IfOk result (λ v. length v.items ≤ 8) }
{
    let mut units = Vec::new(alloc);
    units.push(timed(rt, alloc, latch, 0)?)?;
    units.push(timed(rt, alloc, latch, 1)?)?;
    Ok(units)
}

// A's write hangs in the device of unit 0 until its deadline is over. Each later call of that device fails while it does.
// Meanwhile the same session is served by unit 1, another host logs in, and the console ends.
fn script() -> &'static str {
    r#"
A alone
A power 9:01
A does WRITE 5:000200 pattern 512
A reads 20:00000200 32:28000000000500000100 / 5:000200 pattern 512
A does COMMAND 32:35000000000000000000
disk hold 0
A > WRITE 5:000200 pattern 512
A < CHECK_CONDITION 0012 70000300000000 0A00000000 0C00 00000000
A > COMMAND 1:C1 20:00000200 32:28000000000500000100
A < CHECK_CONDITION 1:82 44:00000200 0012 70000300000000 0A00000000 1100 00000000
A > COMMAND 32:35000000000000000000
A < CHECK_CONDITION 0012 70000300000000 0A00000000 0C00 00000000
A > WRITE 7:08 20:00000008 32:A40A00000000000000080000 0000000000000002
A < CHECK_CONDITION 0012 70000400000000 0A00000000 670A 00000000
A does WRITE 9:01 5:000200 pattern 512
A reads 9:01 20:00000200 32:28000000000500000100 / 5:000200 pattern 512
B comes 2 / HOST_B / 15:02 WELCOME_2
B power 9:01
B does WRITE 9:01 5:000200 pattern 512
0 shows 10
console down 1 / quit = not moved 0 / not flushed 0
disk open
"#
}

#[test]
fn a_device_that_hangs_has_failed(rt: HostRuntime) {
    let alloc = rt.alloc();
    let machine = Machine::of(&rt);
    let script = Script::new("a device that hangs has failed", script());
    let disk = Arc::new(alloc, Latch::open(rt.clone().expect(&rt, "memory"))).expect(&rt, "memory");
    let units = done(&rt, both(&rt, alloc, &disk));
    let _ended = done(
        &rt,
        machine.perform::<Brand, _, _, _>(units, &disk, &script),
    );
}
