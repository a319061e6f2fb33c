//! The thread that writes the lines of a log to its file.

use crate::log::{Log, ROOM, Shared};
use events::{Event, Stamp, put_line};
use meters::clock;
use std::alloc::{AllocError, Global};
use std::fs::File;
use std::io::{self, Write};
use std::sync::atomic::Ordering;
use std::sync::{Arc, Wait};
use std::thread::{Builder, JoinHandle, Threads};
use std::time::{Clock, Duration};
use std::{mem, thread};

/// So many bytes has the stack of the writer.
const STACK: usize = 256 * 1024;

/// So many seconds the writer sleeps at most: then it looks whether there is something to sum up.
const SLEEP: u64 = 60;

/// So many milliseconds at most does the end of a program wait for its last lines.
const CLOSING: u64 = 1000;

/// Where lines are written.
pub trait Page {
    /// Opens it, to write behind what it has, and waits for nobody; none: it cannot be opened.
    fn open(&self) -> Option<File>;
}

/// What the writer has: the file, where it could be opened, and the lines that it writes.
#[derive(Drop)]
struct Writer {
    file: Option<File>,
    lines: String,
    // The last line that was written is none that is whole.
    is_torn: bool,
}

impl Writer {
    // Opens the file anew, so that one that was given another name is left. False: it cannot be, and the one of before stays.
    fn open<P: Page>(&mut self, page: &P) -> bool {
        let Some(file) = page.open() else {
            return false;
        };
        self.file = Some(file);
        true
    }

    // Writes the lines. False: they were not, or not all.
    fn write(&mut self) -> bool {
        let Some(file) = &self.file else {
            return false;
        };
        let mut file: &File = file;
        if self.is_torn && file.write_all(b"\n").is_err() {
            return false;
        }
        self.is_torn = file.write_all(self.lines.as_bytes()).is_err();
        !self.is_torn
    }
}

// How many lines a text has.
fn lines_in(text: &str) -> u64 {
    let mut count = 0u64;
    for _ in text.lines() {
        count = count.saturating_add(1);
    }
    count
}

// Puts the line that tells of so many others, where there are any.
fn put_sum(lines: &mut String, now: Stamp, count: u64, sum: &Event<'_>) {
    if count != 0 {
        let _ = put_line(lines, now, sum);
    }
}

// Takes the lines that wait, and behind them what sums up others, and how many were dropped: how many that are.
fn take<R: Wait + Clock>(rt: &R, shared: &Shared, lines: &mut String, is_last: bool) -> u64 {
    let since = rt.since_1970().unwrap_or(Duration::ZERO);
    let now = Stamp::of(since);
    lines.clear();
    let (untold, hosts, ended, refused, discoveries) = {
        let mut waiting = shared.waiting.lock(rt);
        let untold = waiting.is_at(since);
        mem::swap(&mut waiting.lines, lines);
        let hosts = waiting.sum_of_hosts(is_last);
        let ended = waiting.strangers.sum(since.as_secs(), is_last);
        let refused = waiting.refused.sum(since.as_secs(), is_last);
        let discoveries = waiting.discoveries.sum(since.as_secs(), is_last);
        (untold, hosts, ended, refused, discoveries)
    };
    put_sum(lines, now, ended, &Event::ConnectionsEnded(ended));
    put_sum(lines, now, refused, &Event::LoginsRefused(refused));
    put_sum(lines, now, discoveries, &Event::Discoveries(discoveries));
    let dropped = shared
        .dropped
        .swap(0, Ordering::SeqCst)
        .saturating_add(untold)
        .saturating_add(hosts);
    put_sum(lines, now, dropped, &Event::Dropped(dropped));
    dropped
}

// Writes the lines that were taken, of which the last tells of so many that were dropped. Where they cannot be written, they are too.
fn write_taken<P: Page>(shared: &Shared, page: &P, writer: &mut Writer, dropped: u64) {
    let is_opened = writer.open(page);
    let is_written = writer.write();
    shared
        .failing
        .store(u64::from(!(is_opened && is_written)), Ordering::SeqCst);
    if !is_written {
        let told = if dropped == 0 { 0 } else { 1 };
        let lost = lines_in(writer.lines.as_str()).saturating_sub(told);
        shared.drop_lines(lost.saturating_add(dropped));
    }
}

// Writes what is told, until the log is closed.
fn write_on<R: Wait + Clock, P: Page>(rt: &R, shared: &Shared, page: &P, writer: &mut Writer) {
    for _ in rt.forever() {
        shared.bell.park_timeout(rt, Duration::from_secs(SLEEP));
        let is_last = shared.end.load(Ordering::SeqCst) != 0;
        let dropped = take(rt, shared, &mut writer.lines, is_last);
        if !writer.lines.is_empty() {
            shared.since.store(clock(rt).max(1), Ordering::SeqCst);
            write_taken(shared, page, writer, dropped);
            shared.since.store(0, Ordering::SeqCst);
        }
        if is_last {
            break;
        }
    }
    shared.end.store(2, Ordering::SeqCst);
}

/// Starts the thread that writes the lines of a log that is on.
pub fn start<
    R: Threads + Wait + Clock + Clone + Drop + Send + 'static,
    P: Page + Drop + Send + 'static,
>(rt: &R, alloc: Global, log: &Log, page: P) -> io::Result<()> {
    let Some(shared) = &log.shared else {
        return Ok(());
    };
    let shared = Arc::try_clone(shared)?;
    let mine = rt.clone()?;
    // Opened before descriptors may be wanting.
    let mut writer = Writer {
        file: page.open(),
        lines: String::with_capacity(alloc, ROOM)?,
        is_torn: false,
    };
    let work = move || write_on(&mine, &shared, &page, &mut writer);
    let _thread: JoinHandle<()> = Builder::new().stack_size(STACK).spawn(rt, work)?;
    Ok(())
}

/// Has the last lines written, and waits for that, but not for long.
pub fn close<R: Clock>(rt: &R, log: &Log) {
    let Some(shared) = &log.shared else {
        return;
    };
    shared.end.store(1, Ordering::SeqCst);
    shared.bell.unpark();
    for _ in 0..CLOSING {
        if shared.end.load(Ordering::SeqCst) == 2 {
            break;
        }
        thread::sleep(rt, Duration::from_millis(1));
    }
}
