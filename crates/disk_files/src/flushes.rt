//! Flushes of a file beside its device.
ghost use Rattle.std.specs.Prelude.{◌≡◌, IsTrue, OnOk, false};
ghost use Rattle.disk_files.specs.Lasting.{IsSettled};
ghost use Rattle.disk_files.specs.Told.{has_told, were_told, HasFlushed};

use crate::backing::{BackingFile, Counted};
use disk_preparer::Node;
use std::marker::{Model, PhantomData};
use std::sync::atomic::{AtomicBool, AtomicIn, AtomicU64, AtomicUsize, Ordering, Rule};
use std::sync::{Mutex, MutexGuard, Wait};

/// A file of which threads may flush several handles at one time. What one of them has made last is not seen in the others, so
/// its type claims nothing.
pub trait LastingFile: BackingFile {
    /// Makes all that was written last, where so many writes of the file's device have ended; else the error of the system, 0
    /// where it told none.
    fn make_last(&self, writes: u64) -> Result<(), u32>
        requires { IsTrue (Self.ended writes) }
        ensures { OnOk result (Self.lasts (Self.node self.now) writes) };

    /// It claims nothing.
    ghost unclaimed: { Self.claims ≡ false };
}

// Of how many writes it is known that they have ended.
struct Ended<F: Counted>(PhantomData<F>);

impl<F: Counted> Rule for Ended<F> {
    ghost use Rattle.std.specs.Prelude.{IsTrue};

    ghost invariant = { λ writes. IsTrue (F.ended writes) };
}

// How many writes of the device had ended when the last flush of this file began that is done, of those beside the device.
#[derive(Drop)]
struct Settled<F: BackingFile> {
    last: Option<(Node, u64)>,
    of: PhantomData<F>,
}

impl<F: BackingFile> Model for Settled<F> {
    ghost use Rattle.std.specs.Prelude.{Option, ℕ, IfSome};
    ghost use Rattle.disk_preparer.specs.declared.Node.{Node};

    ghost Value = { Option (Node × ℕ) };

    ghost view = { λ s. s.last };

    ghost invariant = { λ s. IfSome s.last (λ last. F.lasts last.0 last.1) };
}

impl<F: BackingFile> Settled<F> {
    // Whether so many writes of this file are among those.
    fn has(&self, node: Node, writes: u64) -> bool
        ensures { IsTrue result → IsSettled (F.lasts node) writes }
    {
        match self.last {
            Some((settled, count)) => settled.is(node) && writes <= count,
            None => false,
        }
    }

    // A flush of this file that began behind so many writes is done.
    fn put(&mut self, node: Node, writes: u64)
        requires { F.lasts node writes }
    {
        if !self.has(node, writes) {
            self.last = Some((node, writes));
        }
    }
}

/// What a device and its preparer tell each other of the flushes of their file: how many writes have ended, how many of them a
/// flush beside the device has made last, and whether a flush has failed.
///
/// Each of its handles makes one flush at a time. The system tells an error of what it could not write once by each handle: so where
/// several flushes run by one handle, one of them would end well in place of the one that was told.
pub struct Flushes<F: BackingFile> {
    written: AtomicIn<Ended<F>>,
    settled: Mutex<Settled<F>>,
    is_lost: AtomicBool,
    // How many flushes the system has made.
    made: AtomicU64,
    turns: AtomicUsize,
    handles: Vec<Mutex<F>>,
}

impl<F: BackingFile + Drop> Drop for Flushes<F> {
    fn drop(self) {
        let Self {
            written: _,
            settled: _,
            is_lost: _,
            made: _,
            turns: _,
            handles: _,
        } = self;
    }
}

/// Why a flush is not done.
#[derive(Clone, Copy)]
pub enum FlushFault {
    /// It failed by this error of the system, 0 where that told none.
    Failed(u32),
    /// One before it had failed, or there is no handle of the file for it.
    Lost,
}

impl<F: BackingFile> Flushes<F> {
    /// Flushes by these handles on the file of a device that has written nothing yet.
    pub fn new(handles: Vec<Mutex<F>>) -> Flushes<F> {
        Flushes {
            written: AtomicIn::new(0),
            settled: Mutex::new(Settled {
                last: None,
                of: PhantomData,
            }),
            is_lost: AtomicBool::new(false),
            made: AtomicU64::new(0),
            turns: AtomicUsize::new(0),
            handles,
        }
    }

    /// So many writes of the device have ended.
    #[tactic(auto, using(crate::specs::Told::a_tell_says))]
    pub fn tell(&self, written: u64)
        requires { IsTrue (F.ended written) }
        ensures { IsTrue (has_told self.now written) }
    {
        self.written.store(written, Ordering::Release);
    }

    // How many writes of the device of this file have ended, as it has told.
    #[tactic(auto, using(crate::specs::Told::a_look_says))]
    pub fn look(&self, node: Node) -> u64
        ensures ended { IsTrue (F.ended result) }
        ensures told { were_told node result }
    {
        let _ = node;
        self.written.load(Ordering::Acquire)
    }

    /// A flush has failed, the device's or one beside it: none that comes later makes that good.
    pub fn lose(&self) {
        self.is_lost.store(true, Ordering::Release);
    }

    /// Whether a flush has failed.
    pub fn is_lost(&self) -> bool {
        self.is_lost.load(Ordering::Acquire)
    }

    /// How many flushes the system has made beside the device.
    pub fn made(&self) -> u64 {
        self.made.load(Ordering::Relaxed)
    }

    /// Whether a flush beside the device has made the first so many writes of this file last, as far as is seen without waiting.
    pub fn covers(&self, node: Node, writes: u64) -> bool
        ensures { IsTrue result → IsSettled (F.lasts node) writes }
    {
        match self.settled.try_lock() {
            Some(settled) => settled.has(node, writes),
            None => false,
        }
    }
}

impl<F: LastingFile> Flushes<F> {
    // The handle whose turn it is, or one that is free where that is not; none where there is none.
    fn handle<'a, R: Wait>(&'a self, rt: &R) -> Option<MutexGuard<'a, F>> {
        if self.handles.is_empty() {
            return None;
        }
        let turn = self.turns.fetch_add(1, Ordering::Relaxed) % self.handles.len();
        if let Some(free) = self.handles[turn].try_lock() {
            return Some(free);
        }
        for handle in &self.handles {
            if let Some(free) = handle.try_lock() {
                return Some(free);
            }
        }
        Some(self.handles[turn].lock(rt))
    }

    /// Makes last what the writes of this file left that have ended by now. A failure is remembered, and told by each later flush.
    pub fn flush<R: Wait>(&self, rt: &R, node: Node) -> Result<(), FlushFault>
        ensures { OnOk result (HasFlushed node (F.lasts node)) }
    {
        let wanted = self.look(node);
        let Some(handle) = self.handle(rt) else {
            return Err(FlushFault::Lost);
        };
        // One that failed by this handle was told of it, and the system tells no other.
        if self.is_lost() {
            return Err(FlushFault::Lost);
        }
        if self.settled.lock(rt).has(node, wanted) {
            return Ok(());
        }
        // A handle of another file flushes nothing here.
        if !handle.node().is(node) {
            return Err(FlushFault::Lost);
        }
        let writes = self.look(node);
        match handle.make_last(writes) {
            // One that ran beside it may have had its blocks in hand.
            Ok(()) if self.is_lost() => Err(FlushFault::Lost),
            Ok(()) => {
                self.made.fetch_add(1, Ordering::Relaxed);
                self.settled.lock(rt).put(node, writes);
                Ok(())
            }
            Err(error) => {
                self.lose();
                Err(FlushFault::Failed(error))
            }
        }
    }
}
