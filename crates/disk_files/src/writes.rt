//! How many writes of a device have ended.
ghost use Rattle.std.specs.Prelude.{◌≡◌, IsTrue};

use crate::backing::{BackingFile, Counted};
use std::marker::PhantomData;

/// How many writes of a device have ended, well or not.
#[derive(Drop)]
pub struct Writes<F: Counted> {
    pub count: u64,
    of: PhantomData<F>,
    ghost ended: { IsTrue (F.ended count) },
}

impl<F: Counted> Writes<F> {
    /// So many, as a write of the file has said.
    pub fn of(count: u64) -> Writes<F>
        requires { IsTrue (F.ended count) }
        ensures { result.count ≡ count }
    {
        Writes {
            count,
            of: PhantomData,
        }
    }
}

impl<F: BackingFile> Writes<F> {
    /// None yet.
    pub fn none() -> Writes<F>
        ensures { result.count ≡ 0 }
    {
        Writes {
            count: 0,
            of: PhantomData,
        }
    }
}
