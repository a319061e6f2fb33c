//! A unit that was opened, and has no place in an array yet. What contracts call its history, its board and its opening state is picked
//! by `SharedUnit::new`, when all units are there.
ghost use Rattle.std.specs.Prelude.{◌≡◌, ◌<◌, IfOk};
ghost use Rattle.unit_state.specs.Serials.{IsOpening};

use block_file::{Blocks, Opener};
use scsi_types::NoMemory;
use std::alloc::Global;
use unit_entries::{Noted, Opened};
use unit_lock::NewLocked;
use unit_state::Unit;

/// A unit of which nothing was asked yet, before it has a place: itself, and its lock.
#[derive(Drop)]
pub struct NewUnit<B: Blocks, F: Blocks, O: Opener<B>> {
    pub posted: NewLocked<Noted, Opened, Unit<B, F, O>>,
    pub unit: Unit<B, F, O>,
    pub ghost opens: { IsOpening unit.control },
}

impl<B: Blocks, F: Blocks, O: Opener<B>> NewUnit<B, F, O> {
    /// A unit as it opened. Where there is no memory for its board, it is dropped, with its devices.
    pub fn new(alloc: Global, unit: Unit<B, F, O>) -> Result<NewUnit<B, F, O>, NoMemory>
        requires { IsOpening unit.control }
        ensures { IfOk result (λ new. new.unit ≡ unit) }
    {
        let Ok(posted) = NewLocked::new(alloc) else {
            return Err(NoMemory);
        };
        Ok(NewUnit { posted, unit })
    }
}
