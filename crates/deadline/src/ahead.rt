//! What workers and threads of one disk share to read ahead. *Hints* of what is to come wait here until a thread is asked something,
//! which takes all of them along. A *table* says of a run, by its first block, whether it is coming, or in which *place* its bytes lie.
//! A worker takes them out of there, unless a write has ended since. A count says whether that pays.
ghost use Rattle.std.specs.Prelude.{◌≡◌, length};

use disk_preparer::{Beside, BlockMemory, PAGE_BLOCKS};
use std::alloc::{AllocError, Global};
use std::hint::spin_loop;
use std::mem;
use std::sync::atomic::{AtomicU64, AtomicUsize, Ordering};
use std::sync::{Mutex, Wait};

/// At most so many hints wait for a thread; further ones are dropped.
const MOST_HINTS: usize = 256;

/// Places for runs of at most `SHORT_BYTES`.
const SHORT_PLACES: usize = 256;

/// A run of more bytes is a long one.
const SHORT_BYTES: usize = 16384;

/// Places for long runs.
const LONG_PLACES: usize = 8;

/// A run of more blocks is never read ahead.
const LONGEST_RUN: u16 = 512;

/// Words of the table, by bits of their index. A run has the word of its first block, whatever its length; a later run with the same word
/// takes it.
const WORD_BITS: u32 = 12;

/// A word is `first * RADIX` and what is known of that run; `RADIX` is above `IN_PLACE` and the number of all places.
const RADIX: u64 = 1024;

/// Nothing is known of the run.
const NOTHING: u64 = 0;

/// A thread will read it.
const COMING: u64 = 1;

/// The pages that a WRITE of it changes in part are in the system's memory.
const ARRIVED: u64 = 2;

/// It was read into the first place; into the one behind it is one more, and so on.
const IN_PLACE: u64 = 3;

/// A worker looks so often for a run that is coming, and once more for each of its bytes, and then reads it itself.
const LOOKS: usize = 10_000;

/// From so many on, which were read ahead in vain beyond those that were not, only some runs are.
const IN_VAIN: u64 = 256;

/// More are not counted, so that a few runs that were not in vain bring it back.
const MOST_IN_VAIN: u64 = 288;

/// Then so many are read ahead, to find out whether that pays again ..
const TRIED: u64 = 64;

/// .. of each so many.
const TRIED_OF: u64 = 4096;

/// What will come of a command that waits.
#[derive(Clone, Copy, PartialEq, Eq)]
pub(crate) enum HintKind {
    /// A READ whose bytes are read into a place.
    Read,
    /// A READ of which the disk is only told.
    Fetch,
    /// A WRITE: the disk is told of the pages that it changes in part, which the system reads first.
    Edges,
}

/// What is told of a command that waits: what will come, and of which run.
#[derive(Clone, Copy)]
pub(crate) struct Hint {
    pub(crate) kind: HintKind,
    pub(crate) first: u64,
    pub(crate) blocks: u16,
}

impl Hint {
    /// That this will be done to these blocks.
    pub(crate) fn of(kind: HintKind, first: u64, blocks: u16) -> Hint {
        Hint {
            kind,
            first,
            blocks,
        }
    }
}

/// Whether a run has only a part of a page at one of its ends.
pub(crate) fn has_edges(first: u64, blocks: u16) -> bool {
    first % PAGE_BLOCKS != 0 || u64::from(blocks) % PAGE_BLOCKS != 0
}

/// What the workers and the threads of one disk share. A word may be wrong: what a place holds is judged by `BlockMemory::holds` alone.
/// A place whose lock is taken is passed over.
pub(crate) struct Ahead {
    alloc: Global,
    hints: Mutex<Vec<Hint>>,
    // The table.
    words: Vec<AtomicU64>,
    // First the short ones, then the long ones.
    places: Vec<Mutex<BlockMemory>>,
    // Counts that give each run the place behind that of the run before.
    next_short: AtomicUsize,
    next_long: AtomicUsize,
    // How many threads fetch or read.
    at_work: AtomicUsize,
    // How many runs more were read ahead in vain than were not.
    in_vain: AtomicU64,
    // How often it was asked, while too many were in vain, whether one more should be.
    asked_in_vain: AtomicU64,
}

impl Drop for Ahead {
    fn drop(self) {
        let Self {
            alloc: _,
            hints: _,
            words: _,
            places: _,
            next_short: _,
            next_long: _,
            at_work: _,
            in_vain: _,
            asked_in_vain: _,
        } = self;
    }
}

// The index of a run's word: the highest bits of a product, so that neighbours are spread over the table.
fn word_of(first: u64) -> usize {
    (first.wrapping_mul(0x9E37_79B9_7F4A_7C15) >> (64 - WORD_BITS)) as usize
}

impl Ahead {
    /// A list without a hint, with memory for `MOST_HINTS`.
    pub(crate) fn no_hints(alloc: Global) -> Result<Vec<Hint>, AllocError> {
        Vec::with_capacity(alloc, MOST_HINTS)
    }

    /// Nothing is known yet.
    pub(crate) fn new(alloc: Global) -> Result<Ahead, AllocError> {
        let mut words = Vec::with_capacity(alloc, 1 << WORD_BITS)?;
        for _ in 0..1 << WORD_BITS {
            let _ = words.push(AtomicU64::new(NOTHING));
        }
        let mut places = Vec::with_capacity(alloc, SHORT_PLACES + LONG_PLACES)?;
        for _ in 0..SHORT_PLACES + LONG_PLACES {
            let _ = places.push(Mutex::new(BlockMemory::fresh(Vec::new(alloc))));
        }
        Ok(Ahead {
            alloc,
            hints: Mutex::new(Ahead::no_hints(alloc)?),
            words,
            places,
            next_short: AtomicUsize::new(0),
            next_long: AtomicUsize::new(0),
            at_work: AtomicUsize::new(0),
            in_vain: AtomicU64::new(0),
            asked_in_vain: AtomicU64::new(0),
        })
    }

    /// Keeps a hint until a thread is asked something.
    pub(crate) fn keep<R: Wait>(&self, rt: &R, hint: Hint) {
        let mut hints = self.hints.lock(rt);
        if hints.len() < MOST_HINTS {
            let _ = hints.push(hint);
        }
    }

    /// Whether a hint waits beside that of the READ that asks.
    pub(crate) fn has_others<R: Wait>(&self, rt: &R) -> bool {
        self.hints.lock(rt).len() > 1
    }

    /// Gives all hints that wait into this list, whose memory serves for the next ones.
    pub(crate) fn take_hints<R: Wait>(&self, rt: &R, list: &mut Vec<Hint>) {
        list.clear();
        let mut hints = self.hints.lock(rt);
        if !hints.is_empty() {
            mem::swap(&mut *hints, list);
        }
    }

    /// A thread begins to fetch or read.
    pub(crate) fn begin_work(&self) {
        self.at_work.fetch_add(1, Ordering::Relaxed);
    }

    /// A thread has fetched or read.
    pub(crate) fn end_work(&self) {
        self.at_work.fetch_sub(1, Ordering::Relaxed);
    }

    /// Whether a thread that is at work may read so many bytes ahead now: many only where no other one is at work. Else each processor
    /// has its own work, and data that are read long before they leave are in no cache by then.
    pub(crate) fn may_read_now(&self, length: usize) -> bool {
        length <= SHORT_BYTES || self.at_work.load(Ordering::Relaxed) <= 1
    }

    /// Whether it pays to read so many blocks ahead. While too many were in vain, each question counts.
    pub(crate) fn pays(&self, blocks: u16) -> bool {
        blocks <= LONGEST_RUN
            && (self.in_vain.load(Ordering::Relaxed) < IN_VAIN
                || self.asked_in_vain.fetch_add(1, Ordering::Relaxed) % TRIED_OF < TRIED)
    }

    // Counts a run that was read ahead: in vain, or not.
    fn learn(&self, is_in_vain: bool) {
        let seen = self.in_vain.load(Ordering::Relaxed);
        let next = match is_in_vain {
            true => seen.saturating_add(1).min(MOST_IN_VAIN),
            false => seen.saturating_sub(1),
        };
        if next != seen {
            self.in_vain.store(next, Ordering::Relaxed);
        }
    }

    // Says what is known of a run.
    fn note(&self, first: u64, known: u64) {
        if let Some(word) = self.words.get(word_of(first)) {
            word.store(
                first.wrapping_mul(RADIX).wrapping_add(known),
                Ordering::Release,
            );
        }
    }

    // What is known of a run.
    fn known(&self, first: u64) -> u64 {
        let Some(word) = self.words.get(word_of(first)) else {
            return NOTHING;
        };
        let known = word.load(Ordering::Acquire);
        if known / RADIX == first {
            known % RADIX
        } else {
            NOTHING
        }
    }

    /// Notes that a thread will read a run.
    pub(crate) fn comes(&self, first: u64) {
        self.note(first, COMING);
    }

    /// Notes that none will.
    pub(crate) fn stays_away(&self, first: u64) {
        self.note(first, NOTHING);
    }

    /// Notes that the pages of a run that will be written have arrived, as far as is known: the disk was asked for them before it was asked
    /// for something that it has given since.
    pub(crate) fn arrives(&self, first: u64) {
        self.note(first, ARRIVED);
    }

    /// Whether they have, which is forgotten then.
    pub(crate) fn take_arrived(&self, first: u64) -> bool {
        let has = self.known(first) == ARRIVED;
        if has {
            self.note(first, NOTHING);
        }
        has
    }

    // The place of a run that was read ahead. While it is coming, one looks for it.
    fn place_of(&self, first: u64, length: usize) -> Option<&Mutex<BlockMemory>> {
        for _ in 0..LOOKS.saturating_add(length) {
            match self.known(first) {
                COMING => spin_loop(),
                known if known >= IN_PLACE => {
                    return self.places.get((known - IN_PLACE) as usize);
                }
                _ => return None,
            }
        }
        None
    }

    /// Gives `bytes` for as many that hold the wanted run as it is now. Gives `bytes` back where there are none: the run was not read
    /// ahead, or with another length, it did not come in time, another thread has its place, or a write has ended since.
    pub(crate) fn exchange(&self, wanted: Beside, bytes: Vec<u8>) -> BlockMemory
        ensures { length result.bytes.items ≡ length bytes.items }
    {
        let Some(mut kept) = self
            .place_of(wanted.first, bytes.len())
            .and_then(|place| place.try_lock())
        else {
            return BlockMemory::fresh(bytes);
        };
        if kept.bytes.len() != bytes.len()
            || !kept.holds(wanted.disk, wanted.first, wanted.writes)
        {
            return BlockMemory::fresh(bytes);
        }
        self.learn(false);
        mem::replace(&mut *kept, BlockMemory::fresh(bytes))
    }

    // The index of the place into which so many bytes are read next.
    fn next_place(&self, length: usize) -> usize {
        if length <= SHORT_BYTES {
            self.next_short.fetch_add(1, Ordering::Relaxed) % SHORT_PLACES
        } else {
            SHORT_PLACES + self.next_long.fetch_add(1, Ordering::Relaxed) % LONG_PLACES
        }
    }

    /// The index of a place, and memory for so many bytes that was in it. A run that nobody took out of there counts as read in vain.
    /// None: the lock of the place is taken, or there is no memory.
    pub(crate) fn begin(&self, length: usize) -> Option<(usize, Vec<u8>)> {
        let place = self.next_place(length);
        let memory = {
            let mut kept = self.places.get(place)?.try_lock()?;
            mem::replace(&mut *kept, BlockMemory::fresh(Vec::new(self.alloc)))
        };
        if memory.beside.is_some() {
            self.learn(true);
        }
        let mut bytes = memory.bytes;
        bytes.resize(length, 0).ok()?;
        Some((place, bytes))
    }

    /// Puts a run that was read into its place, and notes that it is there. Where the lock of the place is taken, the run is dropped;
    /// whoever looks finds by `holds` that it is not there.
    pub(crate) fn end(&self, place: usize, first: u64, memory: BlockMemory) {
        if let Some(mut kept) = self.places.get(place).and_then(|place| place.try_lock()) {
            *kept = memory;
        }
        self.note(first, IN_PLACE.saturating_add(place as u64));
    }
}
