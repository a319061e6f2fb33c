//! A thread that looks at the clock, so that who counts need not, and keeps now and then what is counted.

use crate::log::Log;
use meters::{Meters, STEP};
use std::alloc::Global;
use std::sync::{Arc, Wait};
use std::thread::{Builder, JoinHandle, Threads};
use std::time::{Clock, Duration};
use std::{io, thread};

/// So many milliseconds lie between two looks.
const BETWEEN: u64 = 100;

/// So many bytes has the stack of its thread.
const STACK: usize = 64 * 1024;

// Looks at the clock on and on, and keeps what is counted at the first look and then each STEP seconds.
fn look_on<R: Wait + Clock>(rt: &R, meters: &Meters) {
    let step = Duration::from_secs(STEP).as_micros() as u64;
    let mut due = meters.tick(rt);
    // The clock may be set meanwhile: what is kept lies as far apart as it was, and from the start.
    let begun = rt.since_1970().unwrap_or(Duration::ZERO);
    let origin = begun.saturating_sub(Duration::from_micros(due));
    for _ in rt.forever() {
        let now = meters.tick(rt);
        if now >= due {
            meters.keep(rt, origin.saturating_add(Duration::from_micros(now)));
            due = now
                .saturating_sub(now.saturating_sub(due) % step)
                .saturating_add(step);
        }
        thread::sleep(rt, Duration::from_millis(BETWEEN));
    }
}

/// Looks at the clock for what is counted of a log's events, where that is counted, and starts the thread that goes on with it. So what
/// is served from now on finds a time, however late the thread gets its turn.
pub fn start_ticks<R: Threads + Wait + Clock + Clone + Drop + Send + 'static>(
    rt: &R,
    log: &Log,
) -> io::Result<()> {
    let Some(meters) = log.shared_meters()? else {
        return Ok(());
    };
    meters.tick(rt);
    let mine = rt.clone()?;
    let work = move || look_on(&mine, &meters);
    let _thread: JoinHandle<()> = Builder::new().stack_size(STACK).spawn(rt, work)?;
    Ok(())
}
