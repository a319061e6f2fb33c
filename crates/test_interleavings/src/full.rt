//! A desk in the pure world that is full.
use crate::ends::must;
use crate::run::notes_behind;
use crate::worlds::{MemWorld, events_of, two_units};
use std::alloc::Global;
use std::process::Abort;
use std::test::*;

/// So many jobs a desk has room for.
const JOBS: usize = 64;

// An event happens: what is noted of it.
fn noted(rt: &impl Abort, alloc: Global, world: &mut MemWorld, act: &str) -> String {
    let before = world.notes().len();
    let events = events_of(rt, alloc, act);
    world.run(&events).expect(rt, "memory");
    notes_behind(rt, alloc, world.notes(), before)
}

// A session of this number attaches. The units have them in turn.
fn attach(rt: &impl Abort, alloc: Global, world: &mut MemWorld, number: usize) {
    let act = format!(in alloc; "attach {} {number} 1", number % 2).expect(rt, "memory");
    let _ = noted(rt, alloc, world, act.as_str());
}

// It hands in a job, of which one thing is noted.
fn submit(rt: &impl Abort, alloc: Global, world: &mut MemWorld, number: usize, said: &str) {
    let act = format!(in alloc; "submit {number} 1 test").expect(rt, "memory");
    let note = noted(rt, alloc, world, act.as_str());
    let mut words = note.as_str().split_ascii_whitespace();
    let is_right = words.nth(4) == Some(said) && words.next().is_none();
    must(rt, is_right, act.as_str(), &note);
}

// A desk has as many jobs as it has room for, and one is taken from it.
fn fill(rt: &impl Abort, alloc: Global, world: &mut MemWorld) {
    for number in 0..=JOBS {
        attach(rt, alloc, world, number);
    }
    must(rt, world.sessions().len() == JOBS + 1, "sessions", &JOBS);
    for number in 0..JOBS {
        submit(rt, alloc, world, number, "submitted");
    }
    submit(rt, alloc, world, JOBS, "busy");
    let _ = noted(rt, alloc, world, "take 1");
    submit(rt, alloc, world, JOBS, "submitted");
}

#[test]
fn a_desk_with_as_many_jobs_as_it_has_room_for(rt: HostRuntime) -> Result<(), Fail> {
    let mut world = two_units(rt.alloc(), [9, 9])?;
    fill(&rt, rt.alloc(), &mut world);
    Ok(())
}
