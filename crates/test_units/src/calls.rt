//! The calls that a script makes of a device, and the values that its blocks had since the last flush.
use crash_blocks::Pick;
use std::alloc::Global;
use std::test::Fail;

/// What a call does.
#[derive(Clone, Copy)]
pub enum Does {
    Reads,
    /// Writes so many blocks from the first on, after which each has the value of this number.
    Writes { first: u32, blocks: u32, value: u8 },
    Flushes,
    /// Nothing, since it fails.
    Fails,
}

/// A call of a device, and how many rows of the script come before its own.
#[derive(Clone, Copy)]
pub struct Call {
    pub command: usize,
    pub does: Does,
}

/// How far the calls of a device came: so many were done, and of the next one, where it writes, so many blocks landed.
#[derive(Clone, Copy)]
pub struct Reach {
    pub calls: usize,
    pub landed: u32,
}

/// Appends the calls of a row that these words say: `read`, `flush`, `fails` for a call that fails and changes nothing, and `1+2=3` for
/// a write of two blocks from block 1 on, which then have the value of number 3.
pub fn put_calls(calls: &mut Vec<Call>, command: usize, words: &str) -> Result<(), Fail> {
    for word in words.split_ascii_whitespace() {
        let does = match word {
            "read" => Does::Reads,
            "flush" => Does::Flushes,
            "fails" => Does::Fails,
            _ => write_of(word).ok_or(words)?,
        };
        calls.push(Call { command, does })?;
    }
    Ok(())
}

// The write of this word.
fn write_of(word: &str) -> Option<Does> {
    let (run, value) = word.split_once('=')?;
    let (first, blocks) = run.split_once('+')?;
    Some(Does::Writes {
        first: first.parse().ok()?,
        blocks: blocks.parse().ok()?,
        value: u8::from_str_radix(value, 16).ok()?,
    })
}

// How many blocks of a run of so many landed, by the place of its call.
fn landed(reach: Reach, place: usize, blocks: u32) -> u32 {
    if place < reach.calls {
        blocks
    } else if place == reach.calls {
        reach.landed
    } else {
        0
    }
}

/// The values that a block had since the last flush that was done, the oldest first. At first it has the value of number 0.
pub fn values_of(alloc: Global, calls: &[Call], reach: Reach, block: u32) -> Result<Vec<u8>, Fail> {
    let mut values = Vec::new(alloc);
    values.push(0)?;
    let mut place = 0usize;
    for call in calls {
        match call.does {
            Does::Writes {
                first,
                blocks,
                value,
            } => {
                let landed = landed(reach, place, blocks);
                if block >= first && block < first.saturating_add(landed) {
                    values.push(value)?;
                }
            }
            Does::Flushes if place < reach.calls => keep_last(&mut values),
            Does::Flushes | Does::Reads | Does::Fails => {}
        }
        place = place.wrapping_add(1);
    }
    Ok(values)
}

// Drops all but the last.
fn keep_last(values: &mut Vec<u8>) {
    let last = values.last().copied().unwrap_or(0);
    if let Some(first) = values.first_mut() {
        *first = last;
    }
    values.truncate(1);
}

/// The value that is left of a block which had these.
pub fn picked(values: &[u8], block: u32, pick: Pick) -> Option<u8> {
    let place = match pick {
        Pick::Oldest => 0,
        Pick::Newest => values.len().wrapping_sub(1),
        Pick::Rotated(turn) => (block.wrapping_add(turn) as usize).checked_rem(values.len())?,
    };
    values.get(place).copied()
}
