//! Units in memory whose openers may fail, and the tales that are told of them.
ghost use Rattle.std.specs.Prelude.{◌≤◌, IfOk, length};

use crate::ends::must_do;
use crate::shared::tell;
use crate::tales::Tale;
use block_file::{FusedOpener, KeepOpener, MemBlocks};
use std::alloc::Global;
use std::io::Eprint;
use std::marker::Brand;
use std::process::Abort;
use std::sync::Wait;
use std::test::Fail;
use std::thread::Threads;
use test_memory::{Opens, new_unit};
use unit_history::NewUnit;

/// A unit over memory.
type New = NewUnit<MemBlocks, MemBlocks, Opens>;

/// So many blocks a unit has.
const BLOCKS: u32 = 64;

// The unit at a place of so many, which is opened so often before an open fails.
fn unit(rt: &impl Abort, alloc: Global, place: u8, opens: u64, units: u8) -> Result<New, Fail> {
    let memory = MemBlocks::new(alloc, BLOCKS).expect(rt, "memory");
    let opener = FusedOpener::new(KeepOpener, opens);
    new_unit(alloc, memory, opener, place, units)
}

fn units_of(rt: &impl Abort, alloc: Global, opens: &[u64]) -> Result<Vec<New>, Fail>
    ensures { IfOk result (λ v. length v.items ≤ 8) }
{
    let count = u8::try_from(opens.len()).unwrap_or(u8::MAX);
    let mut new = Vec::new(alloc);
    let mut place = 0u8;
    for opens in opens {
        let unit = unit(rt, alloc, place, *opens, count)?;
        new.push(unit).expect(rt, "memory");
        place = place.saturating_add(1);
    }
    if new.len() > 8 {
        return Err("more than eight units".into());
    }
    Ok(new)
}

/// Tells a tale of units that are opened so often before an open fails, and of a desk of the first controller.
pub fn run<W: Threads + Wait + Abort + Clone + Send + Sync + Drop>(
    rt: &W,
    alloc: Global,
    opens: &[u64],
    tale: Tale<'_>,
) -> Result<(), Fail> {
    let new = units_of(rt, alloc, opens)?;
    tell::<Brand, _, _, W>(rt, alloc, new, tale)
}

// The numbers of a line.
fn numbers_of(rt: &impl Abort, alloc: Global, words: &str) -> Vec<u64> {
    let mut numbers = Vec::new(alloc);
    for word in words.split_ascii_whitespace() {
        let number = word.parse().expect(rt, words);
        numbers.push(number).expect(rt, "memory");
    }
    numbers
}

// Performs a script, the first line of which has its name, and how often each unit is opened before an open fails.
fn perform<R: Threads + Wait + Abort + Eprint + Clone + Send + Sync + Drop>(
    rt: &R,
    alloc: Global,
    script: &str,
) {
    let (head, lines) = script.trim_start().split_once('\n').expect(rt, "lines");
    let (name, opens) = head.split_once(';').expect(rt, head);
    let opens = numbers_of(rt, alloc, opens);
    must_do(rt, name, run(rt, alloc, &opens, Tale::Script(lines)));
}

/// Performs each script of a table over such units, and a desk without lanes. An empty line is between two scripts.
pub fn perform_all<R: Threads + Wait + Abort + Eprint + Clone + Send + Sync + Drop>(
    rt: &R,
    alloc: Global,
    table: &str,
) {
    for script in table.split("\n\n") {
        perform(rt, alloc, script);
    }
}
