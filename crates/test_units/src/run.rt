//! The runner of the scripts.
use crate::{
    access, failing, fencing, identities, lasting, medium, sessions, states, unit_attentions,
};
use block_file::{Blocks, MemBlocks};
use crash_blocks::Pick;
use std::alloc::Global;
use std::test::*;
use test_connections::{filled, lines_of, want_at};
use test_scripts::{Bench, are_within, filled_by, is_row, part, played, setup_of, written_at};

/// A session through the first group that was told of the power on.
const ONE_SESSION: &str = "
attach; attach 1 1;; ATTACHED 0
the power on; send 0 00;; CHECK 06 29 00
";

// Plays each script of a table, behind these rows.
fn run(alloc: Global, before: &str, table: &str) -> Result<(), Fail> {
    for script in table.split("\n\n") {
        run_script(alloc, before, script)?;
    }
    Ok(())
}

// Plays a script for each line that fills its form, behind these rows.
fn run_form(alloc: Global, before: &str, (form, lines): (&str, &str)) -> Result<(), Fail> {
    let lines = lines_of(alloc, lines)?;
    want_at(!lines.is_empty(), form, &"a table has a row")?;
    for parts in &lines {
        let script = filled(alloc, form, parts)?;
        run_script(alloc, before, script.as_str())?;
    }
    Ok(())
}

// Plays a script for each of its numbers, behind these rows.
fn run_script(alloc: Global, before: &str, script: &str) -> Result<(), Fail> {
    let lines = lines_of(alloc, script)?;
    want_at(has_row(&lines)?, script, &"a script has rows")?;
    for n in 0..setup_of(&lines, 0)?.times {
        play(alloc, before, script, &lines, n)?;
    }
    Ok(())
}

// Whether one of these lines is a row. None has more parts than four.
fn has_row(lines: &[&str]) -> Result<bool, Fail> {
    let mut has_row = false;
    for line in lines {
        want_at(part(line, 4).is_empty(), line, &"four parts at most")?;
        has_row |= is_row(line);
    }
    Ok(has_row)
}

// Plays a script of these lines for a number, and looks at all blocks afterwards.
fn play(alloc: Global, before: &str, script: &str, lines: &[&str], n: u64) -> Result<(), Fail> {
    let setup = setup_of(lines, n)?;
    let bench = Bench::open(alloc, &setup)?;
    let bench = played(alloc, bench, &setup, before, n)?;
    let bench = played(alloc, bench, &setup, script, n)?;
    let (mut blocks, _file) = bench.lose_power(Pick::Newest);
    look_at_all(&mut blocks, setup.script, lines)
}

// Each block is as the lines of the script say.
fn look_at_all(device: &mut MemBlocks, script: &str, lines: &[&str]) -> Result<(), Fail> {
    are_within(lines, device.count())?;
    for index in 0..device.count() {
        let is_right = filled_by(device, index) == Some(written_at(lines, index)?);
        want_at(is_right, script, &index)?;
    }
    Ok(())
}

#[test]
fn scripts_of_a_unit(rt: HostRuntime) -> Result<(), Fail> {
    for (before, table) in &[
        ("", states::rows()),
        ("", sessions::rows()),
        ("", unit_attentions::rows()),
        (ONE_SESSION, identities::rows()),
        (ONE_SESSION, medium::rows()),
        (ONE_SESSION, lasting::rows()),
        (access::two_sessions(), access::rows()),
        (fencing::four(), fencing::rows()),
        (fencing::sixty_two(), fencing::many()),
    ] {
        run(rt.alloc(), *before, *table)?;
    }
    run_form(rt.alloc(), ONE_SESSION, failing::commands())?;
    run_form(rt.alloc(), "", lasting::many())
}
