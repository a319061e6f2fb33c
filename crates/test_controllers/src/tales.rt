//! What is told of an array by its tests, and over which units.

use crate::any_array::Array;
use crate::{lanes, stage, threads};
use std::alloc::Global;
use std::sync::Wait;
use std::test::Fail;
use std::thread::Threads;

/// What happens to an array.
#[derive(Clone, Copy)]
pub enum Tale<'a> {
    /// What a script says.
    Script(&'a str),
    /// A worker and a lane share a desk.
    Shared,
    /// Two threads register, and a third reads the board.
    Watched,
}

/// Lets it happen.
pub fn happens<W: Threads + Wait + Sync, S: Send + Drop, A: Array<S> + Sync>(
    rt: &W,
    alloc: Global,
    array: &A,
    tale: Tale<'_>,
) -> Result<(), Fail> {
    match tale {
        Tale::Script(script) => stage::is_performed(alloc, array, script),
        Tale::Shared => lanes::share(rt, alloc, array),
        Tale::Watched => threads::are_watched(rt, array),
    }
}
