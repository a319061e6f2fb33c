//! How much the kernel lets programs write before they wait for disks, as it says itself below /proc.

use std::fs::File;
use std::os::unix::fs::FileExt;
use std::rt::Files;
use std::sync::atomic::{AtomicU64, Ordering};

/// The files have so many bytes, or what is looked for stands in so many.
const ROOM: usize = 256;

/// What programs are free to write where the kernel does not say it.
const UNKNOWN: u64 = 256 << 20;

/// So many microseconds old is what it says at most, where somebody asks for it.
const AGE: u64 = 10_000_000;

/// Where the kernel says it: how much memory is available, and the limits, in bytes and as hundredths of that memory.
pub const KERNEL_FILES: KernelFiles<'static> = KernelFiles {
    memory: "/proc/meminfo",
    limit: "/proc/sys/vm/dirty_bytes",
    limit_ratio: "/proc/sys/vm/dirty_ratio",
    background: "/proc/sys/vm/dirty_background_bytes",
    background_ratio: "/proc/sys/vm/dirty_background_ratio",
};

/// The names of these files.
#[derive(Clone, Copy)]
pub struct KernelFiles<'a> {
    pub memory: &'a str,
    pub limit: &'a str,
    pub limit_ratio: &'a str,
    pub background: &'a str,
    pub background_ratio: &'a str,
}

// The number that digits spell behind what is no digit, where there are any.
fn number_in(bytes: &[u8]) -> Option<u64> {
    let mut found = None;
    for byte in bytes {
        if byte.is_ascii_digit() {
            let digit = u64::from(byte.saturating_sub(b'0'));
            found = Some(
                found
                    .unwrap_or(0u64)
                    .saturating_mul(10)
                    .saturating_add(digit),
            );
        } else if found.is_some() {
            return found;
        }
    }
    found
}

// The part of some bytes behind these.
fn behind<'a>(bytes: &'a [u8], word: &[u8]) -> Option<&'a [u8]> {
    let at = bytes
        .windows(word.len().max(1))
        .position(|window| window == word)?;
    bytes.get(at..)
}

// So many bytes, where they are said, else this part of the memory.
fn bytes_of(bytes: Option<u64>, ratio: Option<u64>, memory: u64) -> Option<u64> {
    match bytes {
        Some(bytes) if bytes > 0 => Some(bytes),
        _ => Some((memory / 100).saturating_mul(ratio?)),
    }
}

// How many bytes programs write without a wait where the kernel's limits are these: it has none wait before the middle between the one
// at which it begins to write by itself and the one that it never passes.
fn free_between(background: u64, limit: u64) -> u64 {
    let background = if background < limit {
        background
    } else {
        limit / 2
    };
    background / 2 + limit / 2
}

// What a file says first, and how many bytes that are; none where it says nothing.
fn said<R: Files<File = File>>(rt: &R, path: &str) -> ([u8; ROOM], usize) {
    let mut room = [0; ROOM];
    let length = match File::open(rt, path) {
        Ok(file) => file.read_at(&mut room, 0).unwrap_or(0),
        Err(_) => 0,
    };
    (room, length)
}

// The number that a file says first.
fn first_number<R: Files<File = File>>(rt: &R, path: &str) -> Option<u64> {
    let (room, length) = said(rt, path);
    number_in(room.get(..length)?)
}

// How many bytes of memory are available, by what this file says as /proc/meminfo does.
fn available<R: Files<File = File>>(rt: &R, path: &str) -> Option<u64> {
    let (room, length) = said(rt, path);
    let number = number_in(behind(room.get(..length)?, b"MemAvailable:")?)?;
    Some(number.saturating_mul(1024))
}

// What they say, where they do.
fn look<R: Files<File = File>>(rt: &R, files: &KernelFiles<'_>) -> Option<u64> {
    let memory = available(rt, files.memory)?;
    let (limit, ratio) = (
        first_number(rt, files.limit),
        first_number(rt, files.limit_ratio),
    );
    let limit = bytes_of(limit, ratio, memory)?;
    let background = first_number(rt, files.background);
    let ratio = first_number(rt, files.background_ratio);
    Some(free_between(bytes_of(background, ratio, memory)?, limit))
}

/// The kernel's limits, which are looked at now and then: an administrator may set others, and memory comes and goes.
pub struct KernelLimits {
    // When they were looked at last, in microseconds, and what programs were free to write then.
    looked: AtomicU64,
    free: AtomicU64,
}

impl Drop for KernelLimits {
    fn drop(self) {
        let Self { looked: _, free: _ } = self;
    }
}

impl KernelLimits {
    /// Those that these files say, looked at at this time, in microseconds.
    pub fn new<R: Files<File = File>>(rt: &R, files: &KernelFiles<'_>, now: u64) -> KernelLimits {
        KernelLimits {
            looked: AtomicU64::new(now),
            free: AtomicU64::new(look(rt, files).unwrap_or(UNKNOWN)),
        }
    }

    /// How many bytes programs are free to write and not to flush, at this time, by these files: as it was ten seconds ago at most.
    pub fn free<R: Files<File = File>>(&self, rt: &R, files: &KernelFiles<'_>, now: u64) -> u64 {
        if now.saturating_sub(self.looked.load(Ordering::Relaxed)) >= AGE {
            self.looked.store(now, Ordering::Relaxed);
            let free = look(rt, files).unwrap_or(UNKNOWN);
            self.free.store(free, Ordering::Relaxed);
        }
        self.free.load(Ordering::Relaxed)
    }
}
