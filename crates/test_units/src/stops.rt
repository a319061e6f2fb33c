//! The power is lost at each call of a device.
use crate::calls::{Does, Reach};
use crate::power::lose;
use crate::script::{Device, Script, Stop};
use std::alloc::Global;
use std::test::*;
use test_connections::{filled, want_at};

// Scripts, and where each loses the power: at each call of a device from this one on and behind the last, so many times.
fn scripts() -> &'static str {
    "
# WRITE, WRITE with FUA, COMPARE AND WRITE, REGISTER with APTPL by two sessions, RESERVE by the first, PREEMPT by the second, SET
# TARGET PORT GROUPS with a change of owner, and writes through the new owner. Each of the four saves is stopped 34 times in the run
# of a slot, twice in the root, and twice at a flush.
each call of both devices
loses blocks 0 26
loses registrations 0 153
blocks 7
saves always
A attaches; attach 1 1;; ATTACHED 0
its power on; send 0 00;; CHECK 06 29 00
B attaches; attach 2 1;; ATTACHED 2
its power on; send 1 00;; CHECK 06 29 00
A writes; send 0 2A 00 00000001 00 0002; 1024*11; GOOD | CHECK 03 0C 00; 1+2=1
A writes; send 0 2A 00 00000002 00 0003; 1536*22; GOOD | CHECK 03 0C 00; 2+3=2
A writes with FUA; send 0 2A 08 00000000 00 0002; 1024*33; GOOD | CHECK 03 0C 00; 0+2=3 flush
A compares; send 0 89 00 0000000000000001 000000 02; 512*33 512*22 1024*44; GOOD | CHECK 03 0C 00 | CHECK 03 11 00; read 1+2=4
A registers; send 0 5F 00 00 0000 00000018; 15*00 11 4*00 01 3*00; GOOD | CHECK 04 44 00;; 34+33=1 flush 0+1=1 flush
B registers; send 1 5F 00 00 0000 00000018; 15*00 22 4*00 01 3*00; GOOD | CHECK 04 44 00;; 1+33=2 flush 0+1=2 flush
A reserves; send 0 5F 01 05 0000 00000018; 7*00 11 16*00; GOOD | CHECK 04 44 00;; 34+33=3 flush 0+1=3 flush
B preempts; send 1 5F 04 05 0000 00000018; 7*00 22 7*00 11 8*00; GOOD | CHECK 04 44 00;; 1+33=4 flush 0+1=4 flush
B writes; send 1 2A 00 00000004 00 0002; 1024*55; GOOD | CHECK 03 0C 00; 4+2=5
B changes the owner; send 1 A4 0A 00000000 00000008; 7*00 02; GOOD
B writes; forward 1 2A 00 00000005 00 0001; 512*66; GOOD | CHECK 03 0C 00; 5+1=6
B compares; forward 1 89 08 0000000000000004 000000 02; 512*55 512*66 1024*77; GOOD | CHECK 03 0C 00 | CHECK 03 11 00; read 4+2=7 flush

# No open is done: the first group serves on.
a change of owner
loses blocks 0 7
blocks 7
opens 0
A attaches; attach 1 1;; ATTACHED 0
its power on; send 0 00;; CHECK 06 29 00
A writes; send 0 2A 00 00000001 00 0002; 1024*11; GOOD | CHECK 03 0C 00; 1+2=1
A changes the owner, and the open fails; send 0 A4 0A 00000000 00000008; 7*00 02; CHECK 04 67 0A
A writes; send 0 2A 00 00000002 00 0001; 512*22; GOOD | CHECK 03 0C 00; 2+1=2
A reads; send 0 28 00 00000001 00 0002;; GOOD 512*11 512*22 | | CHECK 03 11 00; read
"
}

// Two saves, of which the first fails at its first, second, third or last call alone: where it fails at the root or behind it, the
// next one writes the old root once more. The power is lost in the second save where the last flush failed, and else at its
// last call and behind it. A line has the name, where the power is lost, and of the first save which call fails, and the calls of each.
fn failing_saves() -> (&'static str, &'static str) {
    let form = "[0]
loses registrations [1]
blocks 7
saves always
alone [2]
A attaches; attach 1 1;; ATTACHED 0
its power on; send 0 00;; CHECK 06 29 00
A registers, and the save fails; send 0 5F 00 00 0000 00000018; 15*00 11 4*00 01 3*00; CHECK 04 44 00;; [3] fails
A registers; send 0 5F 00 00 0000 00000018; 15*00 22 4*00 01 3*00; GOOD | CHECK 04 44 00;; [4] 34+33=5 flush 0+1=5 flush";
    let lines = "the write of a slot fails; 4 2; 0
the flush of a slot fails; 5 2; 1; 34+33=1
the write of the root fails; 8 2; 2; 34+33=1 flush; 0+1=0 flush
the flush of the root fails; 4 42; 3; 34+33=1 flush 0+1=1; 0+1=0 flush";
    (form, lines)
}

// Loses the power at each call of a device from this one on, inside a run behind each number of its blocks, and once
// where no call fails. Gives the number of stops.
fn lose_at_each(alloc: Global, script: &Script, of: Device, from: usize) -> Result<u64, Fail> {
    let mut stops = 0u64;
    for calls in from..script.calls(of).len().saturating_add(1) {
        for landed in 0..landings(script, of, calls) {
            let reach = Reach { calls, landed };
            lose(alloc, script, Stop { of, reach })?;
            stops = stops.wrapping_add(1);
        }
    }
    Ok(stops)
}

// In how many ways a call may fail: a write behind each number of its blocks.
fn landings(script: &Script, of: Device, place: usize) -> u32 {
    match script.calls(of).get(place) {
        Some(call) => match call.does {
            Does::Writes { blocks, .. } => blocks.saturating_add(1),
            Does::Reads | Does::Flushes | Does::Fails => 1,
        },
        None => 1,
    }
}

// Loses the power as these words of a script say.
fn loses(alloc: Global, script: &Script, words: &str) -> Result<(), Fail> {
    let (of, rest) = words.split_once(' ').ok_or(words)?;
    let (from, count) = rest.split_once(' ').ok_or(words)?;
    let of = match of {
        "blocks" => Device::Blocks,
        "registrations" => Device::Registrations,
        _ => return Err(words.into()),
    };
    let stops = lose_at_each(alloc, script, of, from.parse().ok().ok_or(words)?)?;
    let is_right = count.parse::<u64>().ok().ok_or(words)? == stops;
    want_at(is_right, script.setup.script, &(words, stops))
}

// Loses the power as each line of a script says that does.
fn each_loses(alloc: Global, text: &str) -> Result<(), Fail> {
    let script = Script::read(alloc, text)?;
    let mut has_stop = false;
    for line in text.lines() {
        if let Some(words) = line.strip_prefix("loses ") {
            loses(alloc, &script, words)?;
            has_stop = true;
        }
    }
    want_at(has_stop, text, &"a script loses the power")
}

#[test]
fn at_each_call_of_a_device(rt: HostRuntime) -> Result<(), Fail> {
    for text in scripts().split("\n\n") {
        each_loses(rt.alloc(), text)?;
    }
    let (form, lines) = failing_saves();
    let has_rows = !lines.trim().is_empty();
    want_at(has_rows, "failing saves", &"a table has rows")?;
    for parts in lines.lines() {
        let text = filled(rt.alloc(), form, parts)?;
        each_loses(rt.alloc(), text.as_str())?;
    }
    Ok(())
}
