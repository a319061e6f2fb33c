//! A latch that holds what comes to a unit: its commands before they reach it, the writes of its device, or flushes behind it.
use std::sync::{Condvar, Mutex, Wait};

/// What a latch does, and how many calls it holds.
#[derive(Drop)]
struct Holding {
    unit: Option<usize>,
    held: u32,
}

/// A latch that is open, or holds the calls of one unit.
#[derive(Drop)]
pub struct Latch<R: Wait + Drop> {
    rt: R,
    holding: Mutex<Holding>,
    changed: Condvar,
}

impl<R: Wait + Drop> Latch<R> {
    /// One that is open.
    pub fn open(rt: R) -> Latch<R> {
        let holding = Holding {
            unit: None,
            held: 0,
        };
        Latch {
            rt,
            holding: Mutex::new(holding),
            changed: Condvar::new(),
        }
    }

    /// From now on it holds the calls of this unit; or it lets all pass that it held.
    pub fn hold(&self, unit: Option<usize>) {
        let mut holding = self.holding.lock(&self.rt);
        holding.unit = unit;
        holding.held = 0;
        drop(holding);
        self.changed.notify_all();
    }

    /// Waits until it holds so many calls.
    pub fn await_held(&self, count: u32) {
        let holding = self.holding.lock(&self.rt);
        let _ = self
            .changed
            .wait_while(&self.rt, holding, |h| h.held < count);
    }

    /// Waits here as long as it holds the calls of this unit.
    pub fn wait_at(&self, unit: usize) {
        let mut holding = self.holding.lock(&self.rt);
        if holding.unit == Some(unit) {
            holding.held = holding.held.saturating_add(1);
            self.changed.notify_all();
            let _ = self
                .changed
                .wait_while(&self.rt, holding, |h| h.unit == Some(unit));
        }
    }
}
