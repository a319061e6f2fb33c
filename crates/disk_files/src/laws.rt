//! Which devices claim what they hold, where a block lies, and what an open leaves.
ghost use Rattle.std.specs.Prelude.{◌≡◌, ◌<◌, ◌*◌, ℕ, take, drop, true, false, IsTrue};
ghost use Rattle.block_file.specs.Disk.{block_at};
ghost use Rattle.block_file.specs.Failures.{last_count};

use crate::{BackingFile, FileBlocks, FileOpener, SystemFile};
use block_file::{BLOCK_LENGTH, Blocks, Opener};
use std::fs::File;
use std::rt::Files;

/// The device of a file claims what its file claims, and nothing of moments inside its calls.
pub fn a_device_claims_what_its_file_claims<F: BackingFile>()
    ensures now { ⟦<FileBlocks<F> as Blocks>⟧.claims ≡ F.claims }
    ensures moments { ⟦<FileBlocks<F> as Blocks>⟧.claims_moments ≡ false }
{}

/// A file of the system claims nothing of its contents, nor of a crash, and its opener nothing of the device that it opens.
pub fn files_claim_nothing<R: Files<File = File> + Drop>()
    ensures now { ⟦<FileBlocks<SystemFile> as Blocks>⟧.claims ≡ false }
    ensures moments { ⟦<FileBlocks<SystemFile> as Blocks>⟧.claims_moments ≡ false }
    ensures opened { ⟦<FileOpener<R> as Opener<FileBlocks<SystemFile>>>⟧.claims ≡ false }
{}

/// Where a file claims its bytes, each block of its device is the 512 bytes from 512 times its number on.
pub fn a_block_lies_at_its_place<F: BackingFile>(device: &FileBlocks<F>)
    ensures { (k : ℕ) → IsTrue F.claims → k < ⟦<FileBlocks<F> as Blocks>⟧.size device.now
        → block_at (⟦<FileBlocks<F> as Blocks>⟧.contents device.now) k
        ≡ take BLOCK_LENGTH (drop (BLOCK_LENGTH * k) (F.bytes device.now.file)) }
{}

/// A disk that was opened anew was opened once more, by a handle of the same file: no open can be left out.
pub fn an_open_is_counted<R: Files<File = File> + Drop>(
    old: &FileBlocks<SystemFile>,
    new: &FileBlocks<SystemFile>,
)
    ensures counted { ⟦<FileOpener<R> as Opener<FileBlocks<SystemFile>>>⟧.opened old.now new.now → old.now.tally.opened < last_count
        → old.now.tally.opened < new.now.tally.opened }
    ensures same { ⟦<FileOpener<R> as Opener<FileBlocks<SystemFile>>>⟧.opened old.now new.now → new.now.file.node ≡ old.now.file.node }
{}

/// It has not forgotten that a flush failed: each later one fails too.
pub fn an_open_forgets_no_failed_flush<R: Files<File = File> + Drop>(
    old: &FileBlocks<SystemFile>,
    new: &FileBlocks<SystemFile>,
)
    ensures { ⟦<FileOpener<R> as Opener<FileBlocks<SystemFile>>>⟧.opened old.now new.now → old.now.tally.is_lost ≡ true
        → new.now.tally.is_lost ≡ true }
{}
