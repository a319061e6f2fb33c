//! Units that hold no registrations, whose registration files lie in memory.
ghost use Rattle.std.specs.Prelude.{IfOk};
ghost use Rattle.unit_state.specs.Serials.{IsOpening};

use aptpl_file::{FILE_BLOCKS, RegFile};
use block_file::{Blocks, FusedOpener, KeepOpener, MemBlocks, Opener};
use reservations::Record;
use scsi_types::Place;
use std::alloc::Global;
use std::test::Fail;
use unit_history::NewUnit;
use unit_state::{Unit, laws};

/// The unit at a place of so many, over this device.
pub fn opened<B: Blocks, O: Opener<B>>(
    alloc: Global,
    blocks: B,
    opener: O,
    unit: u8,
    units: u8,
) -> Result<Unit<B, MemBlocks, O>, Fail>
    ensures { IfOk result (λ u. IsOpening u.control) }
{
    if blocks.count() == 0 {
        return Err("a device of no block".into());
    }
    let Ok(file) = RegFile::format(MemBlocks::new(alloc, FILE_BLOCKS)?) else {
        return Err("a registration file".into());
    };
    let place = Place {
        unit,
        units,
        array: 1,
    };
    laws::nobody_is_attached_at_first();
    Ok(Unit::open(alloc, place, blocks, opener, file, Record::empty(alloc))?)
}

/// The same, before threads share it.
pub fn new_unit<B: Blocks, O: Opener<B>>(
    alloc: Global,
    blocks: B,
    opener: O,
    unit: u8,
    units: u8,
) -> Result<NewUnit<B, MemBlocks, O>, Fail> {
    let unit = opened(alloc, blocks, opener, unit, units)?;
    Ok(NewUnit::new(alloc, unit)?)
}

/// An opener that passes so many opens, and then fails.
pub type Opens = FusedOpener<KeepOpener>;
