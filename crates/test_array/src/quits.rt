//! What `quit` does with the product's units.
ghost use Rattle.std.specs.Prelude.{◌≤◌, length};
ghost use Rattle.unit_history.specs.Naming.{IsNamed};

use crate::ends::must;
use array_administration::console;
use array_operations::Operated;
use array_units::Units;
use block_file::{Blocks, FusedBlocks, KeepOpener, MemBlocks, Opener};
use event_log::Log;
use scsi_types::Group;
use session_units::Controllers;
use std::alloc::Global;
use std::marker::Brand;
use std::process::Abort;
use std::sync::Wait;
use std::test::Fail;
use std::time::Clock;
use test_memory::new_unit;
use unit_history::{NewUnit, Opened};
use unit_sequence::ArrayNaming;

/// A unit whose device passes one call on, and fails each one after it.
type Once = NewUnit<FusedBlocks<MemBlocks>, MemBlocks, KeepOpener>;

fn once(alloc: Global, unit: u8) -> Result<Once, Fail> {
    let device = FusedBlocks::new(MemBlocks::new(alloc, 8)?, 1);
    new_unit(alloc, device, KeepOpener, unit, 2)
}

fn two(alloc: Global) -> Result<Vec<Once>, Fail> {
    let mut new = Vec::new(alloc);
    new.push(once(alloc, 0)?)?;
    new.push(once(alloc, 1)?)?;
    Ok(new)
}

fn quit<B: Blocks, F: Blocks, O: Opener<B>, N: ArrayNaming<Opened>, R: Wait + Clock>(
    rt: &R,
    alloc: Global,
    controllers: &Controllers<B, F, O, N>,
) {
    let log = Log::off();
    let mut told = Vec::new(alloc);
    let mut operated = Operated {
        rt,
        controllers,
        log: &log,
    };
    let _ = console(alloc, "quit\n".as_bytes(), &mut told, &mut operated);
}

// Behind it no desk has a job any more, where an open one would wait for the next. Each unit was flushed: of each the next flush fails.
fn are_left<B: Blocks, F: Blocks, O: Opener<B>, N: ArrayNaming<Opened>, R: Wait + Clock + Abort>(
    rt: &R,
    alloc: Global,
    new: Vec<NewUnit<B, F, O>>,
)
    requires named { IsNamed N.book N.table N.opening B.contents new.items }
    requires count { length new.items ≤ 8 }
{
    let units = Units::<B, F, O, N>::new(rt, alloc, new).expect(rt, "memory");
    let controllers = Controllers::new(alloc, units).expect(rt, "memory");
    quit(rt, alloc, &controllers);
    let units = controllers.units();
    for group in &[Group::One, Group::Two] {
        let desk = controllers.desk(*group);
        let is_open = desk.serve_next(rt, units);
        must(rt, !is_open, "a desk", &group.number());
    }
    for unit in 0..units.count() {
        must(rt, units.flush(rt, unit).is_err(), "a second flush", &unit);
    }
}

#[test]
fn quit_closes_both_desks_and_flushes_each_unit(rt: HostRuntime) -> Result<(), Fail> {
    let new = two(rt.alloc())?;
    if new.len() > 8 {
        return Err("more than eight units".into());
    }
    are_left::<_, _, _, Brand, _>(&rt, rt.alloc(), new);
    Ok(())
}
