//! How a test ends that finds something else than it wants. A library may not end the process, so each crate of tests has this itself.
use std::io::Eprint;
use std::process::{Abort, Termination};
use std::test::Fail;

/// Ends the test where a call of this name failed, and tells of the failure.
pub fn must_do<R: Abort + Eprint>(rt: &R, name: &str, came: Result<(), Fail>) {
    if let Err(fail) = came {
        let _ = Err::<(), Fail>(fail).report(rt);
        panic!(*rt; "{name}: a call that failed")
    }
}
