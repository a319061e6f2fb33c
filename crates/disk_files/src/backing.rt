//! The file behind a device.
ghost use Rattle.std.specs.Prelude.{◌≡◌, ◌<◌, ◌+◌, ◌/◌, List, ℕ, Bool, length, min, take, drop, IsTrue, IfOk, OnOk};
ghost use Rattle.block_file.specs.declared.blocks.TheConstants.{BLOCK_LENGTH};
ghost use Rattle.block_file.specs.Cut.{run_of};
ghost use Rattle.block_file.specs.Disk.{block_at, Between, NoMore, Adds, Only};
ghost use Rattle.block_file.specs.Failures.{last_count};
ghost use Rattle.disk_files.specs.Backing.{put, LiesIn};

use block_file::BLOCK_LENGTH;
use disk_preparer::Node;

/// Files by what is known of the writes that devices made of them.
pub trait Counted: Drop {
    /// So many writes of a device have ended, well or not. Nothing but a write of such a file says so, of itself and those before it.
    ghost ended: { ℕ → Bool };
}

/// A file that is read and written at offsets. A call that fails gives the error of the system, 0 where that told none.
///
/// What is said of its bytes, and of a crash between two calls, holds where the type claims it, and of calls that lie in the
/// file. A crash, and a write that failed, leave of each sector of 512 bytes one that it had or was to have.
///
/// Of every file its calls say which of them were made (`has_read`, `has_written`, `ended`, `lasts`), and nothing else says so. Each
/// says it of the file that its handle is of (`node`), which stays the same. A file that stands before another one passes these words on:
/// they are those of the file behind it.
pub trait BackingFile: Counted {
    ghost use Rattle.disk_preparer.specs.declared.Node.{Node};

    /// Whether the type keeps what is said of bytes and of a crash now.
    ghost claims: { Bool };

    /// The bytes, as reads return them.
    ghost bytes: { Self → List ℕ };

    /// What the sector at a place may hold after a crash now.
    ghost may_hold: { Self → ℕ → List ℕ → Type 0 };

    /// Which file it is a handle of.
    ghost node: { Self → Node };

    /// These bytes were read from an offset of a file on.
    ghost has_read: { Node → ℕ → List ℕ → Type 0 };

    /// These bytes were written from an offset of a file on.
    ghost has_written: { Node → ℕ → List ℕ → Type 0 };

    /// A flush of a file ended well that began when so many writes of its device had ended.
    ghost lasts: { Node → ℕ → Type 0 };

    fn node(&self) -> Node
        ensures { result ≡ node self.now };

    /// Where the file ends, in bytes.
    fn end(&self) -> Result<u64, u32>
        ensures { IsTrue claims → IfOk result (λ end. end ≡ length (bytes self.now)) };

    /// Reads as many bytes as there is room for, from an offset on.
    fn read_at(&self, room: &mut [u8], offset: u64) -> Result<(), u32>
        ensures said { OnOk result (has_read (node self.now) offset room.new) }
        ensures read { IsTrue claims → LiesIn (bytes self.now) offset (length room.old)
            → OnOk result (room.new ≡ take (length room.old) (drop offset (bytes self.now))) };

    /// Writes these bytes over those from an offset on, behind so many writes that have ended.
    fn write_at(&mut self, part: &[u8], offset: u64, writes: u64) -> Result<(), u32>
        requires { IsTrue (Self.ended writes) }
        ensures node { node self.new ≡ node self.old }
        ensures said { OnOk result (has_written (node self.old) offset part.now) }
        ensures ended { IsTrue (Self.ended (min (writes + 1) last_count)) }
        ensures length { IsTrue claims → LiesIn (bytes self.old) offset (length part.now)
            → length (bytes self.new) ≡ length (bytes self.old) }
        ensures written { IsTrue claims → LiesIn (bytes self.old) offset (length part.now)
            → OnOk result (bytes self.new ≡ put (bytes self.old) offset part.now) }
        ensures torn { IsTrue claims → LiesIn (bytes self.old) offset (length part.now)
            → Between (run_of (bytes self.old)) 0 (run_of (put (bytes self.old) offset part.now)) (run_of (bytes self.new)) }
        ensures crash { IsTrue claims → LiesIn (bytes self.old) offset (length part.now)
            → Adds 0 (run_of (put (bytes self.old) offset part.now)) (may_hold self.old) (may_hold self.new) };

    /// Makes all that was written last, where so many writes of the file's device have ended.
    fn flush(&mut self, writes: u64) -> Result<(), u32>
        requires { IsTrue (Self.ended writes) }
        ensures node { node self.new ≡ node self.old }
        ensures bytes { IsTrue claims → bytes self.new ≡ bytes self.old }
        ensures durable { IsTrue claims → OnOk result (Only (run_of (bytes self.old)) (may_hold self.new)) }
        ensures crash { IsTrue claims → NoMore (may_hold self.old) (may_hold self.new) }
        ensures lasts { OnOk result (lasts (node self.old) writes) };

    /// What reads return is one of the outcomes of a crash now.
    ghost is_outcome: { (f : Self) (k : ℕ) → IsTrue claims → k < length (bytes f) / BLOCK_LENGTH
        → may_hold f k (block_at (run_of (bytes f)) k) };

    /// Before the first write none is missing.
    ghost none_has_ended: { IsTrue (Self.ended 0) };
}
