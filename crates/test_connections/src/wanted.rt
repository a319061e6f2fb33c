//! How a test fails that returns.
use std::fmt::Debug;
use std::test::Fail;

/// Fails, unless this holds.
pub fn want(holds: bool, what: &'static str) -> Result<(), Fail> {
    if holds { Ok(()) } else { Err(Fail::from(what)) }
}

/// The same of a place: it tells of that, and of what came.
pub fn want_at<D: Debug>(holds: bool, place: &str, came: &D) -> Result<(), Fail> {
    if holds {
        Ok(())
    } else {
        Err(Fail::new(format_args!("{place}: {came:?}")))
    }
}
