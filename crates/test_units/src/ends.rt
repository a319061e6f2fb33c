//! How a test ends that finds something else than it wants. A library may not end the process, so each crate of tests has this itself.
use std::fmt::Debug;
use std::process::Abort;

/// Ends the test: where that was, and what came.
pub fn fail<D: Debug>(rt: &impl Abort, place: &str, came: &D) -> ! {
    panic!(rt; "{place}: {came:?}")
}

/// Ends it unless this holds. A call of this takes fewer steps than an `assert!` with its own text, and so costs less to prove.
pub fn must<D: Debug>(rt: &impl Abort, holds: bool, place: &str, came: &D) {
    if !holds {
        fail(rt, place, came);
    }
}
