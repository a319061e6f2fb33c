//! A worker and a lane at one desk.
use crate::any_array::Array;
use crate::runs::run;
use crate::stage::is_performed;
use crate::tales::Tale;
use std::alloc::Global;
use std::sync::Wait;
use std::test::*;
use std::thread::{Threads, join};
use test_connections::want;

// What the worker does: a write that a lane serves, and a read of the same block by another session, which serves it itself
// unless the lane was first. Then jobs of both units at once, of which group 2 owns the second. At last unit 0 moves to group 2, so
// that this desk's next command of it is told who owns it.
fn what_is_done() -> &'static str {
    "
attach 0 1 = done
hand 0 test = waits
collect 0 = check 062900
hand 0 write = waits
collect 0 = good
attach 0 1 = done
desk 1 test = check 062900
desk 1 read = good 512*A5
attach 0 1 = done
attach 1 1 = done
hand 2 test = waits
hand 3 test = waits
own 3 = moved 2
collect 2 = check 062900
attach 0 1 = done
desk 4 test = check 062900
desk 4 set = good
desk 4 test = moved 2
hand 4 test = waits
collect 4 = moved 2
close = done
"
}

// Does the worker's work.
fn work<S: Drop, A: Array<S>>(alloc: Global, array: &A) -> Result<(), Fail> {
    let end = is_performed(alloc, array, what_is_done());
    array.close();
    end
}

// Serves what comes to the desk, until it is closed: how many jobs.
fn lane<W: Wait, S, A: Array<S>>(rt: &W, array: &A) -> u64 {
    let mut count = 0u64;
    for _ in rt.forever() {
        if !array.serve_next() {
            break;
        }
        count = count.saturating_add(1);
    }
    count
}

/// A worker and a lane share a desk.
pub fn share<W: Threads + Wait + Sync, S: Send + Drop, A: Array<S> + Sync>(
    rt: &W,
    alloc: Global,
    array: &A,
) -> Result<(), Fail> {
    let (end, served) = join(rt, || work(alloc, array), || lane(rt, array));
    end?;
    // At least the two commands of the writer, and the last one of the unit that moved.
    want(served >= 3, "jobs that the lane served")
}

#[test]
fn a_worker_and_a_lane_share_a_desk(rt: HostRuntime) -> Result<(), Fail> {
    run(&rt, rt.alloc(), &[9, 9], Tale::Shared)
}
