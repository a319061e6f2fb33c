//! The unit of a script, and its devices.
use crate::device::{Failing, FailingBlocks, crashed};
use crate::ended::Ended;
use crate::in_memory::{OPEN_CALLS, formatted};
use crate::rows::Row;
use crate::served::Served;
use block_file::{Blocks, DeviceFailed, FusedOpener, KeepOpener, MemBlocks};
use crash_blocks::Pick;
use scsi_types::Place;
use std::alloc::Global;
use std::test::Fail;
use unit_state::Unit;

/// The unit that a script has: for how many numbers it is played, the unit's number among two of the array 1, how many blocks of
/// zeros it has, and how its devices fail.
#[derive(Clone, Copy)]
pub struct Setup<'a> {
    pub script: &'a str,
    pub times: u64,
    pub place: Place,
    pub blocks: u32,
    pub faults: Faults,
    /// What a loss of power leaves of both devices.
    pub pick: Pick,
}

/// How the device of the blocks fails, how often the blocks are opened for another controller before an open fails, and how
/// the registration file's device fails, counted from the opening of the unit.
#[derive(Clone, Copy)]
pub struct Faults {
    pub disk: Failing,
    pub opens: u64,
    pub file: Failing,
}

/// None.
pub const NO_FAULTS: Faults = Faults {
    disk: NEVER,
    opens: u64::MAX,
    file: NEVER,
};

const NEVER: Failing = Failing {
    behind: u64::MAX,
    lands: 0,
    alone: u64::MAX,
};

// The same of a registration file's device, counted from where its file is opened.
fn from_the_open(failing: Failing) -> Failing {
    Failing {
        behind: failing.behind.saturating_add(OPEN_CALLS),
        lands: failing.lands,
        alone: failing.alone.saturating_add(OPEN_CALLS),
    }
}

/// A unit over such devices, and the sessions that were attached to it.
#[derive(Drop)]
pub struct Bench {
    served: Served<Unit<FailingBlocks, FailingBlocks, FusedOpener<KeepOpener>>>,
}

impl Bench {
    /// The unit of a script, with a registration file of nothing.
    pub fn open(alloc: Global, setup: &Setup) -> Result<Bench, Fail> {
        let blocks = MemBlocks::new(alloc, setup.blocks)?;
        let file = formatted(alloc).ok_or("a registration file")?.close();
        Bench::over(alloc, setup.place, &setup.faults, blocks, file)
    }

    // The unit that opens over this memory, of its blocks and of its registration file.
    fn over(
        alloc: Global,
        place: Place,
        faults: &Faults,
        blocks: MemBlocks,
        file: MemBlocks,
    ) -> Result<Bench, Fail> {
        let blocks = faults.disk.device(alloc, blocks)?;
        let file = from_the_open(faults.file).device(alloc, file)?;
        let opener = FusedOpener::new(KeepOpener, faults.opens);
        Ok(Bench {
            served: Served::open(alloc, place, blocks, file, opener)?,
        })
    }

    /// Makes the call of a row.
    pub fn call(&mut self, alloc: Global, row: &Row) -> Result<Ended, Fail> {
        self.served.call(alloc, row)
    }

    /// The unit as it opens after a power loss: with the blocks and the registration file that were left. No call fails.
    pub fn restart(self, alloc: Global, setup: &Setup) -> Result<Bench, Fail> {
        let (blocks, file) = self.lose_power(setup.pick);
        Bench::over(alloc, setup.place, &NO_FAULTS, blocks, file)
    }

    /// The memory of the blocks, and of the registration file, as a loss of power leaves them.
    pub fn lose_power(self, pick: Pick) -> (MemBlocks, MemBlocks) {
        let Bench { served } = self;
        let (blocks, file) = served.close();
        (crashed(blocks, pick), crashed(file, pick))
    }
}

/// The byte that fills a block, where one does.
pub fn filled_by(device: &mut MemBlocks, index: u32) -> Option<u8> {
    if index >= device.count() {
        return None;
    }
    let mut block = [0xEE; 512];
    match device.read_run(index, &mut block) {
        Ok(()) if block == [block[0]; 512] => Some(block[0]),
        Ok(()) | Err(DeviceFailed) => None,
    }
}
