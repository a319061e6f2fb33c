//! What the definitions of disks and writes say, in other words, and which devices claim them.
ghost use Rattle.std.specs.Prelude.{◌≡◌, ◌⊎◌, ◌+◌, ◌-◌, ◌*◌, ◌<◌, ◌≤◌, ℕ, List, length, min, take, IsTrue};
ghost use Rattle.block_file.specs.Cut.{cut};
ghost use Rattle.block_file.specs.Failures.{last_count};
ghost use Rattle.block_file.specs.Disk.{block_at, written, range_bytes, Between};

use crate::{BLOCK_LENGTH, Blocks, FusedBlocks, FusedOpener, KeepOpener, MemBlocks, Opener};

/// A block has 512 bytes (SBC-3, READ CAPACITY (10): LOGICAL BLOCK LENGTH IN BYTES).
pub fn a_block_has_512_bytes()
    ensures { BLOCK_LENGTH ≡ 512 }
{}

/// Outside its range a write that may have stopped leaves each block as it was.
pub fn outside_the_range()
    ensures { (old after blocks : List (List ℕ)) (first k : ℕ) → Between old first blocks after
        → (k < first) ⊎ (first + length blocks ≤ k) → block_at after k ≡ block_at old k }
{}

/// Inside its range each block is the old one or the new one.
pub fn inside_the_range()
    ensures { (old after blocks : List (List ℕ)) (first k : ℕ) → Between old first blocks after → k < length blocks
        → (block_at after (first + k) ≡ block_at old (first + k)) ⊎ (block_at after (first + k) ≡ block_at blocks k) }
{}

/// A range that was written gives the bytes that were written.
pub fn a_range_that_was_written_is_read()
    ensures { (disk : List (List ℕ)) (first n : ℕ) (bytes : List ℕ) → first + n ≤ length disk
        → range_bytes (written disk first (cut n bytes)) first n ≡ take (BLOCK_LENGTH * n) bytes }
{}

/// Memory keeps what is said of contents and of a crash now.
pub fn memory_claims()
    ensures { IsTrue (⟦<MemBlocks as Blocks>⟧.claims) }
{}

/// A fuse claims what its device claims.
pub fn a_fuse_claims_what_its_device_claims<B: Blocks>()
    ensures now { ⟦<FusedBlocks<B> as Blocks>⟧.claims ≡ B.claims }
    ensures moments { ⟦<FusedBlocks<B> as Blocks>⟧.claims_moments ≡ B.claims_moments }
{}

/// The failures of a device are those of its reads and those of its writes and flushes, up to the count's end.
pub fn failures_are_of_two_kinds<B: Blocks>()
    ensures { (d : B) → B.failures d ≡ min (B.reads_failed d + B.writes_failed d) last_count }
{}

/// An opener that keeps the device says of two that the second is the first.
pub fn a_kept_device_is_the_same<B: Blocks>()
    ensures { (old new : B) → ⟦<KeepOpener as Opener<B>>⟧.opened old new → new ≡ old }
{}

/// A fuse before an opener says opened where that says so.
pub fn a_fuse_opens_what_its_opener_opens<B: Blocks, O: Opener<B>>()
    ensures { (old new : B) → ⟦<FusedOpener<O> as Opener<B>>⟧.opened old new → O.opened old new }
{}

/// An opener that keeps the device keeps what is said of it, and a fuse before an opener claims what that claims.
pub fn openers_claim<B: Blocks, O: Opener<B>>()
    ensures keep { IsTrue (⟦<KeepOpener as Opener<B>>⟧.claims) }
    ensures fuse { ⟦<FusedOpener<O> as Opener<B>>⟧.claims ≡ O.claims }
{}
