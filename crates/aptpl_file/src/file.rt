//! The registration file.
ghost use Rattle.std.specs.Prelude.{◌≡◌, ◌<◌, ◌≤◌, IsErrOf, List, [], ◌∷◌, IfOk, IfErr, OnOk, OnErr, IsTrue, true, false, None};
ghost use Rattle.block_file.specs.Disk.{or_new, Adds};
ghost use Rattle.block_file.specs.Moment.{StopsAmong};
ghost use Rattle.block_file.specs.Failures.{CanFail, Counts, Tells};
ghost use Rattle.registrants.specs.Registry.{RecordValue};
ghost use Rattle.aptpl_format.specs.Format.{file_blocks};

use crate::reading::read_record;
use crate::writing::{save_root, save_slot};
use crate::{FILE_BLOCKS, FileVersion, OpenFault, SaveFault, Slot};
use block_file::{Blocks, DeviceFailed};
use registrants::{Lasting, Record};
use std::alloc::Global;
use std::marker::Model;

/// A registration file on a device: a root and two slots, one of which the root names. The other is written by the next
/// save, in version 2.
#[derive(Drop)]
pub struct RegFile<B: Blocks> {
    device: B,
    version: FileVersion,
    slot: Slot,
    undecided: bool,
}

impl<B: Blocks> Model for RegFile<B> {
    ghost use Rattle.std.specs.Prelude.{◌≤◌};
    ghost use Rattle.aptpl_format.specs.Format.{file_blocks};
    ghost use Rattle.aptpl_file.specs.Lasts.{FileValue};

    ghost Value = { FileValue B };

    ghost view = { λ f. record {
      device = f.device;
      version = f.version;
      slot = f.slot;
      undecided = f.undecided;
    } };

    ghost invariant = { λ f. file_blocks ≤ B.size f.device };
}

impl<B: Blocks> RegFile<B> {
    ghost use Rattle.aptpl_file.specs.Holds.{Holds, IsRefusal};
    ghost use Rattle.aptpl_format.specs.Format.{root_block};
    ghost use Rattle.aptpl_file.specs.Formatting.{nothing, FailsAt, IsFormatted, StopsInFormat};
    ghost use Rattle.aptpl_file.specs.Lasts.{LastsAmong, RootLasts, StopLeavesOneOf, left_by_fault};

    /// Makes a registration file of nothing on a device of at least 67 blocks: writes the first slot and makes it last,
    /// and then the root that names it. Refused, it drops the device.
    ///
    /// What an older file left there is not taken up again: until the root is written the old one stands, and it is
    /// written only over a slot that spells nothing.
    pub fn format(mut device: B) -> Result<RegFile<B>, SaveFault>
        requires { file_blocks ≤ B.size device }
        ensures size { IfOk result (λ file. B.size file.device ≡ B.size device) }
        ensures formatted { IfOk result (λ file. IsFormatted file) }
        ensures lasts { IsTrue B.claims → IfOk result (λ file. LastsAmong B.size B.may_hold file (nothing ∷ [])) }
        ensures stop { IsTrue B.claims → IsTrue B.claims_moments → IfOk result (λ file.
            StopsInFormat B.moment B.left_since B.size B.may_hold device file.device) }
        ensures left { IsTrue B.claims → IfErr result (FailsAt B.may_hold device) }
        ensures failures { IfOk result (λ file. Tells (B.failures device) (B.failures file.device) (Unit {0})) }
        ensures failed { IfErr result (λ fault. CanFail B.failures device) }
    {
        let version = FileVersion::Version2;
        let slot = Slot::First;
        let Ok(()) = save_slot(&mut device, slot, false, &[], &None) else {
            return Err(SaveFault::IdleSlot);
        };
        let Ok(()) = save_root(&mut device, version, slot) else {
            return Err(SaveFault::NewRoot);
        };
        Ok(RegFile {
            device,
            version,
            slot,
            undecided: false,
        })
    }

    /// Opens a registration file of either version, and gives the record that it holds, which a crash leaves from then on.
    /// Refused, it drops the device.
    pub fn open(alloc: Global, mut device: B) -> Result<(RegFile<B>, Record), OpenFault>
        ensures size { IfOk result (λ found. B.size found.0.device ≡ B.size device) }
        ensures holds { IsTrue B.claims → IfOk result (λ found. Holds (B.contents device) found.1) }
        ensures contents { IsTrue B.claims → IfOk result (λ found.
            B.contents found.0.device ≡ B.contents device) }
        ensures lasts { IsTrue B.claims → IfOk result (λ found.
            LastsAmong B.size B.may_hold found.0 (found.1 ∷ [])) }
        ensures refused { IsTrue B.claims → IfErr result (IsRefusal (B.contents device)) }
        ensures few { B.size device < file_blocks → IsErrOf result OpenFault.NotARegFile }
        ensures failures { IfOk result (λ found. Tells (B.failures device) (B.failures found.0.device) (Unit {0})) }
        ensures failed { IsErrOf result OpenFault.DeviceFailed → CanFail B.failures device }
    {
        if device.count() < FILE_BLOCKS {
            return Err(OpenFault::NotARegFile);
        }
        let (version, slot, record) = match read_record(&mut device, alloc) {
            Ok(found) => found,
            Err(fault) => return Err(fault),
        };
        let file = RegFile {
            device,
            version,
            slot,
            undecided: false,
        };
        Ok((file, record))
    }

    /// Makes a record last. Takes no memory.
    ///
    /// It is written in version 2, whatever version the file had. Done, a crash leaves this record alone. Failed, a crash leaves one
    /// that it might have left before, or this one; and so does a stop at any moment of the call.
    pub fn save(&mut self, saved: &Lasting<'_>) -> Result<(), SaveFault>
        ensures size { B.size self.new.device ≡ B.size self.old.device }
        ensures saved { IsTrue B.claims → OnOk result (LastsAmong B.size B.may_hold self.new (saved.now ∷ [])) }
        ensures failed { IsTrue B.claims → IfErr result (λ fault. (records : List RecordValue)
            → LastsAmong B.size B.may_hold self.old records
            → LastsAmong B.size B.may_hold self.new (left_by_fault fault records saved.now)) }
        ensures stop { IsTrue B.claims → IsTrue B.claims_moments → (records : List RecordValue)
            → LastsAmong B.size B.may_hold self.old records
            → StopLeavesOneOf B.moment B.left_since (saved.now ∷ records) self.old.device self.new.device }
        ensures failures { Counts (B.failures self.old.device) (B.failures self.new.device) result }
    {
        let aptpl = saved.aptpl();
        let Ok(()) = self.decide() else {
            return Err(SaveFault::OldRoot);
        };
        let idle = self.slot.other();
        let Ok(()) = save_slot(
            &mut self.device,
            idle,
            aptpl,
            saved.registrants(),
            saved.reservation(),
        ) else {
            return Err(SaveFault::IdleSlot);
        };
        let Ok(()) = save_root(&mut self.device, FileVersion::Version2, idle) else {
            self.undecided = true;
            return Err(SaveFault::NewRoot);
        };
        self.version = FileVersion::Version2;
        self.slot = idle;
        Ok(())
    }

    // Writes the old root again where a save left it undecided.
    fn decide(&mut self) -> Result<(), DeviceFailed>
        ensures size { B.size self.new.device ≡ B.size self.old.device }
        ensures version { self.new.version ≡ self.old.version }
        ensures slot { self.new.slot ≡ self.old.slot }
        ensures decided { OnOk result (self.new.undecided ≡ false) }
        ensures root { IsTrue B.claims → self.old.undecided ≡ true
            → OnOk result (RootLasts (B.may_hold self.new.device) self.old.version self.old.slot) }
        ensures same { self.old.undecided ≡ false → self.new ≡ self.old }
        ensures failed { OnErr result (self.new.undecided ≡ self.old.undecided) }
        ensures crash { IsTrue B.claims → Adds 0 (root_block self.old.version self.old.slot ∷ [])
            (B.may_hold self.old.device) (B.may_hold self.new.device) }
        ensures stop { IsTrue B.claims → IsTrue B.claims_moments → StopsAmong B.moment B.left_since B.size
            (or_new 0 (root_block self.old.version self.old.slot ∷ []) (B.may_hold self.old.device))
            self.old.device self.new.device }
        ensures failures { Counts (B.failures self.old.device) (B.failures self.new.device) result }
    {
        if self.undecided {
            let Ok(()) = save_root(&mut self.device, self.version, self.slot) else {
                return Err(DeviceFailed);
            };
            self.undecided = false;
        }
        Ok(())
    }

    /// Hands the device back.
    pub fn close(self) -> B
        ensures { result ≡ self.device }
    {
        self.device
    }
}
