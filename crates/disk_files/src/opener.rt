//! The same file, opened again.
ghost use Rattle.std.specs.Prelude.{◌≡◌, ◌⊎◌, ◌+◌, min, true, false, OnOk, OnErr};
ghost use Rattle.std.proofs.Common.{arith};
ghost use Rattle.block_file.specs.Failures.{last_count};
ghost use Rattle.disk_files.specs.Lasting.{IsSettled};
ghost use Rattle.disk_files.specs.System.{lasts};
ghost use Rattle.disk_files.specs.Tally.{IsOpenedAnew};

use crate::FileBlocks;
use crate::system::{SystemFile, number_of};
use block_file::{DeviceFailed, Opener};
use events::Call;
use std::alloc::{AllocError, Global};
use std::fs::{File, OpenFile};
use std::rt::Files;

/// Opens the file of a disk again by its name, for the other controller.
///
/// What is there by then has to be the same file, and no shorter: else the open fails, and the old handle stays.
/// The counts of failures go over to the new handle, and that a flush failed. The file is flushed first.
#[derive(Drop)]
pub struct FileOpener<R: Files<File = File> + Drop> {
    rt: R,
    path: String,
    failed: u64,
}

impl<R: Files<File = File> + Drop> FileOpener<R> {
    /// The opener of a file that has this name.
    pub(crate) fn new(rt: R, alloc: Global, path: &str) -> Result<FileOpener<R>, AllocError> {
        let path = String::from_str(alloc, path)?;
        Ok(FileOpener {
            rt,
            path,
            failed: 0,
        })
    }

    // Opens the file again and puts its handle into the device.
    fn renew(&self, device: &mut FileBlocks<SystemFile>) -> Result<(), DeviceFailed>
        ensures ok { OnOk result (IsOpenedAnew device.old.tally device.new.tally) }
        ensures flushed { OnOk result ((device.new.tally.is_lost ≡ true) ⊎ IsSettled (lasts device.old.file.node) device.old.writes.count) }
        ensures node { device.new.file.node ≡ device.old.file.node }
        ensures size { device.new.count ≡ device.old.count }
        ensures err { OnErr result (device.new ≡ device.old) }
    {
        let opened = File::options()
            .read(true)
            .write(true)
            .open(&self.rt, self.path.as_str());
        let file = match opened {
            Ok(file) => file,
            Err(e) => {
                device.tell(Call::Open, 0, 0, number_of(&e));
                return Err(DeviceFailed);
            }
        };
        let Some(file) = SystemFile::of(file) else {
            device.tell(Call::Open, 0, 0, 0);
            return Err(DeviceFailed);
        };
        device.renew(file)
    }
}

impl<R: Files<File = File> + Drop> Opener<FileBlocks<SystemFile>> for FileOpener<R> {
    ghost claims = { false };

    ghost opened = { λ old new. IsOpenedAnew old.tally new.tally × (new.file.node ≡ old.file.node)
        × ((new.tally.is_lost ≡ true) ⊎ IsSettled (lasts old.file.node) old.writes.count) };

    ghost opens_failed = { λ o. min o.failed last_count };

    ghost bounded = { λ o. Prim.omega arith };

    fn open(&mut self, device: &mut FileBlocks<SystemFile>) -> Result<(), DeviceFailed> {
        let Ok(()) = self.renew(device) else {
            self.failed = self.failed.saturating_add(1);
            return Err(DeviceFailed);
        };
        Ok(())
    }
}
