//! Memory for what READs return, which is kept from one to the next.
use block_file::{BLOCK_LENGTH, ReplyMemory};
use disk_preparer::BlockMemory;
use scsi_types::{Asked, Command, MOST_BLOCKS};
use std::alloc::Global;
use std::mem;
use std::sync::Mutex;
use std::sync::atomic::{AtomicUsize, Ordering};

/// Memory of more bytes is not kept.
const MOST_KEPT: usize = 262144;

/// Memory of more bytes is kept apart, so that it serves no READ of fewer.
const SMALL: usize = 16384;

/// At so many places small memory is kept, and at as many that of more bytes.
const PLACES: usize = 16;

// Whether memory of so many bytes is kept.
fn is_kept(bytes: usize) -> bool {
    bytes != 0 && bytes <= MOST_KEPT
}

/// The memory of replies that were sent, for others. The sessions of an array share it, so that none of them holds any while it waits for
/// its initiator. Each has a place there, which it may have with others; nobody waits for it.
pub struct Spares {
    places: Vec<Mutex<Vec<u8>>>,
    turns: AtomicUsize,
}

impl Drop for Spares {
    fn drop(self) {
        let Self {
            places: _,
            turns: _,
        } = self;
    }
}

impl Spares {
    /// No memory is kept. There are as many places as there is memory for.
    pub fn none(alloc: Global) -> Spares {
        let mut places = Vec::new(alloc);
        for _ in 0..PLACES * 2 {
            let _ = places.push(Mutex::new(Vec::new(alloc)));
        }
        Spares {
            places,
            turns: AtomicUsize::new(0),
        }
    }

    /// The place of one session more.
    pub fn place(&self) -> usize {
        self.turns.fetch_add(1, Ordering::Relaxed)
    }

    // Puts memory where that for so many bytes is kept, and gives what was there; or gives it back where somebody else is at this place.
    fn exchange(&self, place: usize, count: usize, bytes: Vec<u8>) -> Vec<u8> {
        if self.places.is_empty() {
            return bytes;
        }
        let place = place
            .wrapping_mul(2)
            .wrapping_add(usize::from(count <= SMALL));
        match self.places[place % self.places.len()].try_lock() {
            Some(mut kept) => mem::replace(&mut *kept, bytes),
            None => bytes,
        }
    }

    /// Keeps the memory of a reply at this place.
    pub fn keep(&self, place: usize, bytes: Vec<u8>) {
        let count = bytes.capacity();
        if is_kept(count) {
            drop(self.exchange(place, count, bytes));
        }
    }

    // So many bytes, whatever they hold; None where there is no memory for them.
    fn take(&self, place: usize, alloc: Global, count: usize) -> Option<Vec<u8>> {
        if is_kept(count) {
            let mut kept = self.exchange(place, count, Vec::new(alloc));
            if kept.capacity() >= count {
                kept.resize(count, 0).ok()?;
                return Some(kept);
            }
        }
        vec![in alloc; 0; count].ok()
    }

    /// The room of a command of the session that has this place: of a READ with memory for the blocks that it returns, unless it asks for
    /// more than it may.
    pub fn room_for(&self, place: usize, alloc: Global, asked: &Asked) -> ReplyMemory {
        let blocks = match asked {
            Ok(Command::Read { blocks, .. }) if *blocks <= MOST_BLOCKS => *blocks,
            _ => return ReplyMemory::new(alloc),
        };
        match self.take(place, alloc, BLOCK_LENGTH * usize::from(blocks)) {
            Some(bytes) => ReplyMemory::with(alloc, BlockMemory::fresh(bytes)),
            None => ReplyMemory::new(alloc),
        }
    }
}

/// Where a session takes the memory for its replies.
#[derive(Drop)]
pub struct Rooms<'a> {
    spares: &'a Spares,
    place: usize,
    alloc: Global,
}

impl<'a> Rooms<'a> {
    /// From those of this place.
    pub fn at(spares: &'a Spares, place: usize, alloc: Global) -> Rooms<'a> {
        Rooms {
            spares,
            place,
            alloc,
        }
    }

    /// The room of a command.
    pub fn room_for(&self, asked: &Asked) -> ReplyMemory {
        self.spares.room_for(self.place, self.alloc, asked)
    }
}
