//! Units in memory and over other devices, before they are shared.
ghost use Rattle.std.specs.Prelude.{◌≤◌, IfOk, length};

use aptpl_file::RegFile;
use block_file::{Blocks, FusedOpener, KeepOpener, MemBlocks, Opener};
use scsi_types::Place;
use std::alloc::Global;
use std::sync::{Arc, Wait};
use std::test::Fail;
use test_memory::{HeldBlocks, Latch, Opens, new_unit};
use unit_history::NewUnit;
use unit_state::{Unit, laws};

/// So many blocks a unit in memory has.
const BLOCKS: u32 = 2048;

/// A unit in memory, whose device may hang, and may not be opened anew.
pub type HeldUnit<R> = NewUnit<HeldBlocks<MemBlocks, R>, MemBlocks, Opens>;

// A unit of zeros, of so many, which holds no registrations, whose device hangs at this latch, and is opened anew so often.
fn held<R: Wait + Drop>(
    alloc: Global,
    latch: &Arc<Latch<R>, Global>,
    unit: u8,
    units: u8,
    opens: u64,
) -> Result<HeldUnit<R>, Fail> {
    let blocks = HeldBlocks {
        inner: MemBlocks::new(alloc, BLOCKS)?,
        unit: usize::from(unit),
        latch: Arc::try_clone(latch)?,
    };
    new_unit(
        alloc,
        blocks,
        FusedOpener::new(KeepOpener, opens),
        unit,
        units,
    )
}

/// Unit 0, alone or with unit 1, in memory. Their devices hang at this latch, and that of the last unit is opened anew so often.
pub fn in_memory<R: Wait + Drop>(
    alloc: Global,
    latch: &Arc<Latch<R>, Global>,
    is_alone: bool,
    opens: u64,
) -> Result<Vec<HeldUnit<R>>, Fail>
    ensures { IfOk result (λ v. length v.items ≤ 8) }
{
    let mut units = Vec::new(alloc);
    if is_alone {
        units.push(held(alloc, latch, 0, 1, opens)?)?;
    } else {
        units.push(held(alloc, latch, 0, 2, u64::MAX)?)?;
        units.push(held(alloc, latch, 1, 2, opens)?)?;
    }
    Ok(units)
}

// The calls of a registration file's device when it is opened: the root, the slot, and a flush.
const OPEN_CALLS: u64 = 3;

/// When the devices of a unit and its opener fail.
#[derive(Clone, Copy)]
pub struct Faults {
    /// So many calls of its blocks pass, and none behind them. The first of these, as a write, lands so many blocks of its run.
    pub passed: u64,
    pub landed: u32,
    /// So many calls of its registration file's device pass once the file is open.
    pub saving: u64,
    /// So many opens pass.
    pub opened: u64,
}

impl Faults {
    /// What fails by these words: nothing, where there are none.
    pub fn of(words: &str) -> Faults {
        match words {
            "the third block fails" => Faults {
                passed: 0,
                landed: 2,
                ..NO_FAULTS
            },
            "no open" => Faults {
                opened: 0,
                ..NO_FAULTS
            },
            "the fourth call of a save fails" => Faults {
                saving: 3,
                ..NO_FAULTS
            },
            _ => NO_FAULTS,
        }
    }

    /// So many calls of its registration file's device pass, those that open it among them.
    pub fn registration_calls(&self) -> u64 {
        self.saving.saturating_add(OPEN_CALLS)
    }
}

// Nothing fails.
const NO_FAULTS: Faults = Faults {
    passed: u64::MAX,
    landed: 0,
    saving: u64::MAX,
    opened: u64::MAX,
};

/// The one unit of an array over these devices, of which the second has a registration file.
pub fn opened<B: Blocks, F: Blocks, O: Opener<B>>(
    alloc: Global,
    blocks: B,
    opener: O,
    file: F,
) -> Result<Vec<NewUnit<B, F, O>>, Fail>
    ensures { IfOk result (λ v. length v.items ≤ 8) }
{
    if blocks.count() == 0 {
        return Err("a device of no block".into());
    }
    let place = Place {
        unit: 0,
        units: 1,
        array: 1,
    };
    let Ok((file, record)) = RegFile::open(alloc, file) else {
        return Err("a registration file".into());
    };
    laws::nobody_is_attached_at_first();
    let unit = Unit::open(alloc, place, blocks, opener, file, record)?;
    let mut units = Vec::new(alloc);
    units.push(NewUnit::new(alloc, unit)?)?;
    Ok(units)
}
