//! Which of the values that a block had since the last flush a crash leaves.
ghost use Rattle.std.specs.Prelude.{◌≡◌, ◌+◌, ◌*◌, ◌/◌, ◌<◌, ◌≤◌, ◌^◌, ◌++◌, ℕ, List, ◌∷◌, length, take, drop, reverse, IsTrue};
ghost use Rattle.crash_blocks.specs.declared.event.Event.{Event};
ghost use Rattle.block_file.specs.declared.blocks.TheConstants.{BLOCK_LENGTH};
ghost use Rattle.block_file.specs.Cut.{cut};
ghost use Rattle.crash_blocks.specs.Events.{runs_fit};
ghost use Rattle.block_file.specs.Cut.{run_of};
ghost use Rattle.block_file.specs.Disk.{block_at, written};
ghost use Rattle.crash_blocks.specs.Values.{picked_of, place_of, values_of, written_at, IsPast, HasPast};

use crate::event::Event;
use block_file::BLOCK_LENGTH;

/// What a crash leaves of a block that had some values since the last flush.
#[derive(Clone, Copy, Debug, PartialEq, Eq)]
pub enum Pick {
    /// The value that the block had at the latest flush, which no crash takes back.
    Oldest,
    /// What reads return.
    Newest,
    /// Of block `k` the value at place `(k + turn)` modulo their count, the oldest at 0.
    Rotated(u32),
}

impl Pick {
    /// The place of the value that is left of block `k`, which was written so often since the last flush.
    pub fn place(self, k: u32, written: u64) -> u64
        ensures { result ≡ place_of self k (written + 1) }
    {
        match self {
            Pick::Oldest => 0,
            Pick::Newest => written,
            Pick::Rotated(turn) => {
                let sum = u64::from(k) + u64::from(turn);
                if sum <= written {
                    sum
                } else {
                    sum % (written + 1)
                }
            }
        }
    }
}

/// What is known of a block behind some events: what it holds, how often it was written since the last flush, and, of the values that
/// it had since that flush, the one at the place that is looked for, where there are so many.
#[derive(Clone, Copy)]
pub struct Past {
    pub holds: [u8; BLOCK_LENGTH],
    pub written: u64,
    pub picked: [u8; BLOCK_LENGTH],
}

/// Block `k` of these bytes.
pub fn block_in(bytes: &[u8], k: usize) -> [u8; BLOCK_LENGTH]
    requires { BLOCK_LENGTH * k + BLOCK_LENGTH ≤ length bytes.now }
    ensures { result ≡ take BLOCK_LENGTH (drop (BLOCK_LENGTH * k) bytes.now) }
{
    let at = BLOCK_LENGTH * k;
    let mut block = [0; BLOCK_LENGTH];
    block.copy_from_slice(&bytes[at..at + BLOCK_LENGTH]);
    block
}

/// Goes on by one event: what is known of block `k` behind it. The value at place `wanted` is looked for.
pub fn go_on(past: &mut Past, event: &Event, k: u32, wanted: u64)
    requires few { past.old.written + 1 < 2 ^ 64 }
    ensures written { past.new.written ≤ past.old.written + 1 }
    ensures past { (size : ℕ) (start : List (List ℕ)) (older : List Event) → length start ≡ size → k < size
        → IsTrue (runs_fit size (event.now ∷ older)) → HasPast start older k wanted past.old
        → HasPast start (event.now ∷ older) k wanted past.new }
{
    match event {
        Event::Flush => {
            past.written = 0;
            past.picked = past.holds;
        }
        Event::Write { first, bytes } => write_on(past, *first, bytes, k, wanted),
    }
}

// One write more.
fn write_on(past: &mut Past, first: u32, bytes: &[u8], k: u32, wanted: u64)
    requires few { past.old.written + 1 < 2 ^ 64 }
    ensures written { past.new.written ≤ past.old.written + 1 }
    ensures past { (disk values : List (List ℕ)) → k < length disk → first + length bytes.now / BLOCK_LENGTH ≤ length disk
        → IsPast (block_at disk k) values wanted past.old
        → IsPast (block_at (written disk first (run_of bytes.now)) k) (values ++ written_at first (run_of bytes.now) k)
        wanted past.new }
{
    if k < first || (k - first) as usize >= bytes.len() / BLOCK_LENGTH {
        return;
    }
    past.holds = block_in(bytes, (k - first) as usize);
    past.written += 1;
    if past.written == wanted {
        past.picked = past.holds;
    }
}

/// What is known of block `k` behind all these events, which followed on the bytes `start`. The value at place `wanted` is looked for.
pub fn gone_through(start: &[u8], events: &[Event], k: u32, wanted: u64) -> Past
    requires within { BLOCK_LENGTH * k + BLOCK_LENGTH ≤ length start.now }
    ensures { (size : ℕ) → length start.now ≡ BLOCK_LENGTH * size → k < size
        → IsTrue (runs_fit size (reverse events.now)) → HasPast (cut size start.now) (reverse events.now) k wanted result }
{
    let holds = block_in(start, k as usize);
    let mut past = Past {
        holds,
        written: 0,
        picked: holds,
    };
    for place in 0..events.len() {
        go_on(&mut past, &events[place], k, wanted);
    }
    past
}

/// What a crash leaves of block `k` by this pick, where these events followed on the bytes `start`. They are gone through twice: the
/// first time counts the values that the block had since the last flush, the second finds the one that is picked.
pub fn left_of(start: &[u8], events: &[Event], k: u32, pick: Pick) -> [u8; BLOCK_LENGTH]
    requires within { BLOCK_LENGTH * k + BLOCK_LENGTH ≤ length start.now }
    ensures { (size : ℕ) → length start.now ≡ BLOCK_LENGTH * size → k < size
        → IsTrue (runs_fit size (reverse events.now))
        → result ≡ picked_of pick (values_of (cut size start.now) (reverse events.now) k) k }
{
    let written = gone_through(start, events, k, 0).written;
    gone_through(start, events, k, pick.place(k, written)).picked
}
