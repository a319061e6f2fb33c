//! What opens a device anew whose calls have a deadline.
ghost use Rattle.std.specs.Prelude.{◌≡◌, ◌+◌, min, false};
ghost use Rattle.std.proofs.Common.{arith};
ghost use Rattle.block_file.specs.Failures.{last_count};
ghost use Rattle.deadline.specs.Answers.{calls, HasOpened};

use crate::blocks::Deadlined;
use block_file::{DeviceFailed, Opener};
use disk_files::FileDevice;
use std::sync::Wait;
use std::time::Clock;

/// Has the thread of a device open it anew, which has its opener.
#[derive(Drop)]
pub struct DeadlinedOpener {
    failed: u64,
}

impl DeadlinedOpener {
    /// One by which no open has failed.
    pub fn new() -> DeadlinedOpener {
        DeadlinedOpener { failed: 0 }
    }
}

impl<R: Wait + Clock + Drop, B: FileDevice, O: Opener<B>> Opener<Deadlined<R, B, O>>
    for DeadlinedOpener {
    ghost claims = { false };

    ghost opened = { λ old new. (new.opened ≡ min (old.opened + 1) last_count) × (new.node ≡ old.node) × (new.ended ≡ old.ended)
        × HasOpened (calls B.Blocks B.OnDisk B.has_read B.has_written B.lasts B.writes B.is_lost O.Opener) old.node old.ended };

    ghost opens_failed = { λ o. min o.failed last_count };

    ghost bounded = { λ o. Prim.omega arith };

    fn open(&mut self, device: &mut Deadlined<R, B, O>) -> Result<(), DeviceFailed> {
        if !device.is_opened_anew() {
            self.failed = self.failed.saturating_add(1);
            return Err(DeviceFailed);
        }
        device.opened = device.opened.saturating_add(1);
        Ok(())
    }
}
