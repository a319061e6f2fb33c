//! The power is lost: a script comes so far, a crash follows, and a restart.
use crate::script::{Device, Script, Stop};
use crash_blocks::Pick;
use std::alloc::Global;
use std::test::Fail;
use test_connections::want_at;
use test_scripts::{Bench, Row, Setup, make, played};

/// What a crash leaves: of each block the value that these pick.
const PICKS: [Pick; 4] = [
    Pick::Oldest,
    Pick::Newest,
    Pick::Rotated(0),
    Pick::Rotated(1),
];

// Behind a restart no session of before is there, whatever serial it comes with. A unit that has opened has no entry, generation 0, and
// the states of the opening, in which the first group owns it (SPC-4, 6.37). READ FULL STATUS tells the record of a number (SPC-4,
// 6.15.5): nothing; the first session with key 11h; the second with 22h beside; the first reserves with type 5; the second has
// preempted it; the first with 22h alone. REPORT CAPABILITIES tells whether APTPL is set (SPC-4, 6.15.4).
fn found() -> &'static str {
    "
numbers 1 9
the first session; serial 0 N 00;; GONE
the second session; serial 2 N 00;; GONE
numbers N
a session attaches; attach 3 1;; ATTACHED 0
the power on; send 0 00;; CHECK 06 29 00
the access states; send 0 A3 0A 00000000 000000FF;; GOOD 00000018 80 0F 0001 00 00 00 01 00000001 01 0F 0002 00 00 00 01 00000002
the registrations; send 0 5E 03 0000000000 00FF;; GOOD 00000000 00000000
  | GOOD 00000000 00000048
    0000000000000011 00000000 00 00 00000000 0001 00000030 45 00 002C PORT_1
  | GOOD 00000000 00000090
    0000000000000011 00000000 00 00 00000000 0001 00000030 45 00 002C PORT_1
    0000000000000022 00000000 00 00 00000000 0001 00000030 45 00 002C PORT_2
  | GOOD 00000000 00000090
    0000000000000011 00000000 01 05 00000000 0001 00000030 45 00 002C PORT_1
    0000000000000022 00000000 00 00 00000000 0001 00000030 45 00 002C PORT_2
  | GOOD 00000000 00000048
    0000000000000022 00000000 01 05 00000000 0001 00000030 45 00 002C PORT_2
  | GOOD 00000000 00000048
    0000000000000022 00000000 00 00 00000000 0001 00000030 45 00 002C PORT_1
APTPL; send 0 5E 02 0000000000 00FF;; GOOD 00 08 05 80 EA 01 00 00 | GOOD 00 08 05 81 EA 01 00 00 | GOOD 00 08 05 81 EA 01 00 00
  | GOOD 00 08 05 81 EA 01 00 00 | GOOD 00 08 05 81 EA 01 00 00 | GOOD 00 08 05 81 EA 01 00 00
"
}

// The values that each block may have, by their numbers.
fn blocks() -> &'static str {
    "
block 0; send 0 28 00 00000000 00 0001;; GOOD 512*00 | | | GOOD 512*33
block 1; send 0 28 00 00000001 00 0001;; GOOD 512*00 | GOOD 512*11 | | GOOD 512*33 | GOOD 512*44
block 2; send 0 28 00 00000002 00 0001;; GOOD 512*00 | GOOD 512*11 | GOOD 512*22 | | GOOD 512*44
block 3; send 0 28 00 00000003 00 0001;; GOOD 512*00 | | GOOD 512*22
block 4; send 0 28 00 00000004 00 0001;; GOOD 512*00 | | GOOD 512*22 | | | GOOD 512*55 | | GOOD 512*77
block 5; send 0 28 00 00000005 00 0001;; GOOD 512*00 | | | | | GOOD 512*55 | GOOD 512*66 | GOOD 512*77
block 6; send 0 28 00 00000006 00 0001;; GOOD 512*00
"
}

/// A loss of power: the stop up to which a script comes, and the unit that it has then.
#[derive(Clone, Copy)]
struct Loss<'s, 'a> {
    script: &'s Script<'a>,
    stop: Stop,
    setup: &'s Setup<'a>,
}

impl Loss<'_, '_> {
    // The number of the value that a block of a device has behind it.
    fn left(&self, alloc: Global, at: (Device, u32)) -> Result<u64, Fail> {
        self.script.left(alloc, at, self.stop, self.setup.pick)
    }
}

/// Loses the power there, with each crash.
pub fn lose(alloc: Global, script: &Script, stop: Stop) -> Result<(), Fail> {
    for pick in &PICKS {
        let setup = &script.setup(stop, *pick);
        let loss = Loss {
            script,
            stop,
            setup,
        };
        lose_by(alloc, &loss)?;
    }
    Ok(())
}

// Plays the unit of a script up to a stop, and looks at what a restart finds.
fn lose_by(alloc: Global, loss: &Loss<'_, '_>) -> Result<(), Fail> {
    let mut bench = Bench::open(alloc, loss.setup)?;
    play_up_to(alloc, &mut bench, loss)?;
    let bench = bench.restart(alloc, loss.setup)?;
    let record = loss.left(alloc, (Device::Registrations, 0))?;
    let rows = found();
    want_at(!rows.trim().is_empty(), "found", &"a table has rows")?;
    let mut bench = played(alloc, bench, loss.setup, rows, record)?;
    look_at_blocks(alloc, &mut bench, loss)
}

// Plays a script up to a stop.
fn play_up_to(alloc: Global, bench: &mut Bench, loss: &Loss<'_, '_>) -> Result<(), Fail> {
    let (last, end) = loss.script.last(loss.stop);
    for (place, text) in loss.script.rows.iter().enumerate() {
        if place <= last {
            let n = if place == last { end } else { 0 };
            make(alloc, bench, loss.setup, &Row { text: *text, n })?;
        }
    }
    Ok(())
}

// Each block has the value that was left.
fn look_at_blocks(alloc: Global, bench: &mut Bench, loss: &Loss<'_, '_>) -> Result<(), Fail> {
    let mut block = 0u32;
    for text in blocks().trim().lines() {
        let n = loss.left(alloc, (Device::Blocks, block))?;
        make(alloc, bench, loss.setup, &Row { text, n })?;
        block = block.wrapping_add(1);
    }
    want_at(block > 0, "blocks", &"a table has rows")
}
