//! How the controller that takes a unit over opens its disk anew.
ghost use Rattle.std.specs.Prelude.{◌≡◌, ◌<◌, ◌≤◌, ℕ, Bool, true, IsTrue, IsOk, OnOk, OnErr};
ghost use Rattle.std.proofs.Common.{arith};
ghost use Rattle.block_file.specs.Disk.{HoldsTheSame};
ghost use Rattle.block_file.specs.Moment.{LeavesTheSame};
ghost use Rattle.block_file.specs.Failures.{Counts, last_count};
ghost use Rattle.block_file.specs.OpenFuse.{unopened, all_opens_failed, PassesOpen, FailsOpen};

use crate::{Blocks, DeviceFailed};
use std::marker::Model;

/// Opens a device anew, for the controller that takes it over.
///
/// What is said of the disk holds where the type claims it. The rest holds of every opener.
pub trait Opener<B: Blocks>: Drop {
    /// Whether the type keeps what is said of the device that it opens.
    ghost claims: { Bool };

    /// The second device is the first one, opened anew. Nothing but `open` says so.
    ghost opened: { B → B → Type 0 };

    /// How often an open has failed.
    ghost opens_failed: { Self → ℕ };

    /// Puts the device, opened anew, in the place of the one that is there: it has the contents, what a crash may
    /// leave of it and the count of failures of that one. After a failure that one stays.
    fn open(&mut self, device: &mut B) -> Result<(), DeviceFailed>
        ensures opened { OnOk result (opened device.old device.new) }
        ensures size { B.size device.new ≡ B.size device.old }
        ensures device_failures { B.failures device.new ≡ B.failures device.old }
        ensures device_reads { B.reads_failed device.new ≡ B.reads_failed device.old }
        ensures device_writes { B.writes_failed device.new ≡ B.writes_failed device.old }
        ensures contents { IsTrue claims → B.contents device.new ≡ B.contents device.old }
        ensures crash { IsTrue claims → HoldsTheSame (B.may_hold device.old) (B.may_hold device.new) }
        ensures moment { IsTrue claims → B.moment device.new ≡ B.moment device.old }
        ensures time { IsTrue claims → LeavesTheSame (B.left_since device.old) (B.left_since device.new) }
        ensures err { OnErr result (device.new ≡ device.old) }
        ensures failures { Counts (opens_failed self.old) (opens_failed self.new) result };

    /// The count of failures has an end.
    ghost bounded: { (o : Self) → opens_failed o ≤ last_count };
}

/// Leaves the device in its place: both controllers reach the same one.
#[derive(Drop)]
pub struct KeepOpener;

impl<B: Blocks> Opener<B> for KeepOpener {
    ghost claims = { true };

    ghost opened = { λ old new. new ≡ old };

    ghost opens_failed = { λ o. 0 };

    ghost bounded = { λ o. Prim.omega arith };

    fn open(&mut self, device: &mut B) -> Result<(), DeviceFailed>
        ensures ok { IsOk result }
        ensures kept { device.new ≡ device.old }
    {
        let _ = device;
        Ok(())
    }
}

/// An opener that passes on some opens, and fails each one after them.
#[derive(Drop)]
pub struct FusedOpener<O> {
    inner: O,
    left: u64,
    failed: u64,
}

impl<O> Model for FusedOpener<O> {
    ghost use Rattle.block_file.specs.OpenFuse.{OpenFuse};

    ghost Value = { OpenFuse O };

    ghost view = { λ o. record { inner = o.inner; left = o.left; failed = o.failed } };
}

impl<O: Drop> FusedOpener<O> {
    /// Passes on `opens` opens, then fails each.
    pub fn new(inner: O, opens: u64) -> Self
        ensures { result ≡ unopened inner opens }
    {
        FusedOpener {
            inner,
            left: opens,
            failed: 0,
        }
    }
}

impl<B: Blocks, O: Opener<B>> Opener<B> for FusedOpener<O> {
    ghost claims = { O.claims };

    ghost opened = { O.opened };

    ghost opens_failed = { λ o. all_opens_failed O.opens_failed o };

    ghost bounded = { λ o. Prim.omega arith };

    fn open(&mut self, device: &mut B) -> Result<(), DeviceFailed>
        ensures opened { OnOk result (O.opened device.old device.new) }
        ensures size { B.size device.new ≡ B.size device.old }
        ensures device_failures { B.failures device.new ≡ B.failures device.old }
        ensures device_reads { B.reads_failed device.new ≡ B.reads_failed device.old }
        ensures device_writes { B.writes_failed device.new ≡ B.writes_failed device.old }
        ensures contents { IsTrue O.claims → B.contents device.new ≡ B.contents device.old }
        ensures crash { IsTrue O.claims → HoldsTheSame (B.may_hold device.old) (B.may_hold device.new) }
        ensures moment { IsTrue O.claims → B.moment device.new ≡ B.moment device.old }
        ensures time { IsTrue O.claims → LeavesTheSame (B.left_since device.old) (B.left_since device.new) }
        ensures err { OnErr result (device.new ≡ device.old) }
        ensures failures { Counts
            (all_opens_failed O.opens_failed self.old) (all_opens_failed O.opens_failed self.new) result }
        ensures passed { 0 < self.old.left → PassesOpen O.opens_failed self.old self.new result }
        ensures failed { self.old.left ≡ 0 → FailsOpen self.old self.new result }
    {
        if self.left == 0 {
            self.failed = self.failed.saturating_add(1);
            return Err(DeviceFailed);
        }
        self.left -= 1;
        self.inner.open(device)
    }
}
