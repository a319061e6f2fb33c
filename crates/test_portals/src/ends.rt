//! How a test ends that finds something else than it wants. A library may not end the process, so each crate of tests has this itself.
ghost use Rattle.std.specs.Prelude.{◌≡◌, Ok};

use std::fmt::Debug;
use std::io::Eprint;
use std::process::{Abort, Termination};
use std::test::Fail;

/// Ends the test unless this holds: where that was, and what came. A call of this takes fewer steps than an `assert!` with
/// its own text, and so costs less to prove.
pub fn must<D: Debug>(rt: &impl Abort, holds: bool, place: &str, came: &D) {
    if !holds {
        panic!(rt; "{place}: {came:?}");
    }
}

/// What a call came to, or the end of the test.
pub fn done<R: Abort + Eprint, T>(rt: &R, came: Result<T, Fail>) -> T
    ensures { came ≡ Ok result }
{
    match came {
        Ok(value) => value,
        Err(fail) => {
            let _ = Err::<(), Fail>(fail).report(rt);
            panic!(*rt; "a call that failed")
        }
    }
}
