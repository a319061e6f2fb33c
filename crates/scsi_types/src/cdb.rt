//! From a command descriptor block (CDB) to the command that it asks for.
ghost use Rattle.std.specs.Prelude.{◌≡◌, Result};
ghost use Rattle.scsi_types.specs.declared.command.CdbFault.{CdbFault};
ghost use Rattle.scsi_types.specs.declared.command.Command.{Command};
ghost use Rattle.scsi_types.specs.Cdb.{Decodes, Means};

use crate::inquiries::{inquiry, mode_sense_6, mode_sense_10, report_luns, request_sense};
use crate::medium::{
    compare_and_write, read_capacity_16, synchronize_cache_10, synchronize_cache_16, transfer_6,
    transfer_10, transfer_16,
};
use crate::persistent_reserve::{persistent_reserve_in, persistent_reserve_out};
use crate::port_groups::{report_target_port_groups, set_target_port_groups};
use crate::{Asked, CdbFault, CdbForm, Command};

/// What a CDB asks for (SPC-4, section 6; SBC-3, section 5). All else of a CDB is not looked at: DPO, IMMED, DBD, the LBA and PMI of READ
/// CAPACITY, the group number, the control byte, what is reserved, and the bytes behind the end of a shorter CDB.
///
/// An operation code of no command is `UnknownOpcode`, and so is an unknown service action of the operation codes 9Eh, A3h and A4h.
/// `BadField` is
///
/// - a READ, WRITE or COMPARE AND WRITE whose RDPROTECT or WRPROTECT is not 0; a READ or WRITE of more than 2048 blocks; a COMPARE AND
///   WRITE of more than 32;
/// - REQUEST SENSE in descriptor format; an INQUIRY for an unknown VPD page, or with a PAGE CODE other than 0 without EVPD; an unknown page
///   or a subpage in MODE SENSE (saved values are no bad field here); an unknown selection in REPORT LUNS;
/// - an unknown service action of PERSISTENT RESERVE IN and OUT; a RESERVE of another scope than the logical unit, or of an unknown type; a
///   PARAMETER DATA FORMAT other than 000b in REPORT TARGET PORT GROUPS.
pub fn decode(cdb: &[u8; 16]) -> Asked
    ensures means { Means cdb.now result }
    ensures only { (asked : Result Command CdbFault) → Means cdb.now asked → asked ≡ result }
{
    match CdbForm::of(cdb) {
        Some(form) => match command_of(form, cdb) {
            Some(command) => Ok(command),
            None => Err(CdbFault::BadField(form.op())),
        },
        None => Err(CdbFault::UnknownOpcode),
    }
}

// The command that a CDB of this form asks for, unless a field is bad.
fn command_of(form: CdbForm, cdb: &[u8; 16]) -> Option<Command>
    ensures { Decodes form cdb.now result }
{
    match form {
        CdbForm::TestUnitReady => Some(Command::TestUnitReady),
        CdbForm::RequestSense => request_sense(cdb),
        CdbForm::Read6 => Some(transfer_6(cdb).read()),
        CdbForm::Write6 => Some(transfer_6(cdb).write()),
        CdbForm::Inquiry => inquiry(cdb),
        CdbForm::ModeSense6 => mode_sense_6(cdb),
        CdbForm::ReadCapacity10 => Some(Command::ReadCapacity10),
        CdbForm::Read10 => Some(transfer_10(cdb)?.read()),
        CdbForm::Write10 => Some(transfer_10(cdb)?.write()),
        CdbForm::SynchronizeCache10 => Some(synchronize_cache_10(cdb)),
        CdbForm::ModeSense10 => mode_sense_10(cdb),
        CdbForm::PersistentReserveIn => persistent_reserve_in(cdb),
        CdbForm::PersistentReserveOut => persistent_reserve_out(cdb),
        CdbForm::Read16 => Some(transfer_16(cdb)?.read()),
        CdbForm::CompareAndWrite => compare_and_write(cdb),
        CdbForm::Write16 => Some(transfer_16(cdb)?.write()),
        CdbForm::SynchronizeCache16 => Some(synchronize_cache_16(cdb)),
        CdbForm::ReadCapacity16 => Some(read_capacity_16(cdb)),
        CdbForm::ReportLuns => report_luns(cdb),
        CdbForm::ReportTargetPortGroups => report_target_port_groups(cdb),
        CdbForm::SetTargetPortGroups => Some(set_target_port_groups(cdb)),
    }
}
