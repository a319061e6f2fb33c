//! How a test ends that finds something else than it wants. A library may not end the process, so each crate of tests has this itself.
use std::fmt::Debug;
use std::process::Abort;

/// Ends the test unless this holds: where that was, and what came. A call of this takes fewer steps than an `assert!` with
/// its own text, and so costs less to prove.
pub fn must<D: Debug>(rt: &impl Abort, holds: bool, place: &str, came: &D) {
    if !holds {
        panic!(rt; "{place}: {came:?}");
    }
}

/// Ends the test unless a text is the one that is wanted.
pub fn must_read(rt: &impl Abort, text: &str, wanted: &str) {
    must(rt, text == wanted, wanted, &text);
}
