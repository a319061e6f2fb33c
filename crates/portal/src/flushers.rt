//! The threads that flush disks to which much is written: one for each unit.

use crate::server::Server;
use crate::stacks::Stacks;
use scsi_types::NoMemory;
use session_units::Gate;
use std::alloc::Global;
use std::sync::{Arc, Wait};
use std::thread::{Builder, JoinHandle, Threads};

// Flushes the disk of the unit at a place, one of so many, whenever much was written to it, until the gate is closed.
fn flush<R: Wait, G: Gate>(rt: &R, gate: &G, place: usize, among: u64) {
    for _ in rt.forever() {
        if !gate.flush_when_due(place, among) {
            break;
        }
    }
}

/// Starts a thread for each of so many units, which flushes its disk whenever much was written to it. They end when the gate is closed.
pub fn start_flushers<
    U: Drop + Send + Sync + 'static,
    G: Gate + Drop + Send + Sync + 'static,
    R: Threads + Wait + Clone + Drop + Send + 'static,
    S: Stacks,
>(
    rt: &R,
    server: &Arc<Server<U, G>, Global>,
    units: usize,
    stacks: &mut S,
) -> Result<(), NoMemory> {
    for place in 0..units {
        let server = Arc::try_clone(server)?;
        let mine = rt.clone()?;
        let work = move || flush(&mine, &server.device.gate, place, units as u64);
        let thread: Result<JoinHandle<()>, _> = Builder::new()
            .stack_size(stacks.next_stack())
            .spawn(rt, work);
        if thread.is_err() {
            return Err(NoMemory);
        }
    }
    Ok(())
}
