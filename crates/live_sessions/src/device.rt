//! What all sessions of an array share.

use crate::live::Table;
use session_units::Spares;
use std::alloc::Global;
use std::sync::Mutex;

/// The turn of a normal session to be attached to the units of a target device and to enter its table. There is one.
#[derive(Drop)]
pub struct Turn {
    // How many sessions have had it.
    count: u64,
}

impl Turn {
    // One more session has it.
    pub(crate) fn begin(&mut self) {
        self.count = self.count.wrapping_add(1);
    }
}

/// A SCSI target device with its logical units (SAM-5, 4.5), and the sessions that live at it.
#[derive(Drop)]
pub struct TargetDevice<U: Drop, G: Drop, S: Drop> {
    /// Its units.
    pub units: U,
    /// What each command passes before its unit is asked.
    pub gate: G,
    /// Its live sessions. No lock is taken while theirs is held.
    pub sessions: S,
    /// Held while a normal session is attached to the units and enters the table: so of two of one nexus the later one is the
    /// later one at each unit and in the table.
    pub beginning: Mutex<Turn>,
    /// The memory of replies that were sent.
    pub(crate) spares: Spares,
}

impl<U: Drop, G: Drop, C: Drop> TargetDevice<U, G, Mutex<Table<C>>> {
    ghost use Rattle.std.specs.Prelude.{◌≡◌};

    /// A target device of which no session has begun.
    pub fn new(alloc: Global, units: U, gate: G) -> TargetDevice<U, G, Mutex<Table<C>>>
        ensures { result.units ≡ units }
    {
        TargetDevice {
            units,
            gate,
            sessions: Mutex::new(Table::new(alloc)),
            beginning: Mutex::new(Turn { count: 0 }),
            spares: Spares::none(alloc),
        }
    }
}
