//! The gate before the units of a test: its commands may wait before a unit, and flushes may be left to it.
ghost use Rattle.std.specs.Prelude.{true};

use disk_preparer::Account;
use scsi_types::{Asked, Command};
use session_units::{Gate, Pass};
use std::sync::atomic::{AtomicUsize, Ordering};
use std::sync::{Mutex, Wait};
use test_memory::Latch;

/// The place of no unit.
const NONE: usize = usize::MAX;

/// What becomes of the flushes that are left to a gate.
#[derive(Clone, Copy, PartialEq, Eq)]
pub enum Flushes {
    /// None is left to it.
    InPlace,
    /// Each is done.
    Done,
    /// Each fails.
    Failed,
    /// The next one fails, and each behind it is done.
    FailedOnce,
}

/// A gate at whose latches commands wait before their unit, and flushes behind it.
pub struct Doors<R: Wait + Drop> {
    rt: R,
    pub commands: Latch<R>,
    pub flushes: Latch<R>,
    come_to: Mutex<Flushes>,
    // The place of the unit of the last flush that was asked for, or none.
    asked_for: AtomicUsize,
}

// It is never taken apart.
impl<R: Wait + Drop> Drop for Doors<R> {
    fn drop(self) {
        let Self {
            rt: _,
            commands: _,
            flushes: _,
            come_to: _,
            asked_for: _,
        } = self;
    }
}

impl<R: Wait + Drop> Doors<R> {
    /// A gate with these latches. No flush is left to it.
    pub fn new(rt: R, commands: Latch<R>, flushes: Latch<R>) -> Doors<R> {
        Doors {
            rt,
            commands,
            flushes,
            come_to: Mutex::new(Flushes::InPlace),
            asked_for: AtomicUsize::new(NONE),
        }
    }

    /// From now on flushes that are left to it come to this.
    pub fn come_to(&self, end: Flushes) {
        *self.come_to.lock(&self.rt) = end;
    }

    /// The unit of the last flush that was asked for since this was asked last.
    pub fn asked_for(&self) -> Option<usize> {
        match self.asked_for.swap(NONE, Ordering::Relaxed) {
            NONE => None,
            unit => Some(unit),
        }
    }
}

impl<R: Wait + Drop> Gate for Doors<R> {
    ghost is_late = { true };

    ghost lasts = { λ pass. Unit {0} };

    // A WRITE waits where it would wait for room.
    fn let_in(&self, unit: usize, asked: &Asked, _account: &mut Account) {
        if let Ok(Command::Write { .. }) = asked {
            self.commands.wait_at(unit);
        }
    }

    fn fetch(&self, unit: usize, _serial: u64, _asked: &Asked) {
        self.commands.wait_at(unit);
    }

    fn flushes_behind(&self, _unit: usize) -> bool {
        *self.come_to.lock(&self.rt) != Flushes::InPlace
    }

    fn flush_behind<P: Pass>(&self, pass: &P) -> bool {
        self.flushes.wait_at(pass.place());
        self.asked_for.store(pass.place(), Ordering::Relaxed);
        let mut come_to = self.come_to.lock(&self.rt);
        let is_done = *come_to == Flushes::Done;
        if *come_to == Flushes::FailedOnce {
            *come_to = Flushes::Done;
        }
        is_done
    }
}
