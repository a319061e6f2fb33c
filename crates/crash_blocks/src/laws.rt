//! What a device that a crash takes back claims.
ghost use Rattle.std.specs.Prelude.{IsTrue};

use crate::CrashBlocks;
use block_file::Blocks;

/// It keeps what is said of contents and of a crash now, and what is said of a crash at some moment since an earlier one.
pub fn all_is_claimed()
    ensures now { IsTrue (⟦<CrashBlocks as Blocks>⟧.claims) }
    ensures moments { IsTrue (⟦<CrashBlocks as Blocks>⟧.claims_moments) }
{}
