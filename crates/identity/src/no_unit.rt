//! What is answered for a unit that is not there.
ghost use Rattle.std.specs.Prelude.{◌≡◌, IfOk, OnErr};
ghost use Rattle.scsi_types.specs.ReplyValue.{good};
ghost use Rattle.scsi_types.specs.declared.status.Status.TheVariants.{Good};
ghost use Rattle.scsi_types.specs.Sense.{sense_bytes, logical_unit_not_supported};
ghost use Rattle.identity.specs.Table.{cut, spell};
ghost use Rattle.identity.specs.Inquiry.{nothing, standard_inquiry};
ghost use Rattle.identity.specs.Absent.{absent_reply};

use crate::cut::cut_to;
use crate::inquiry_pages::standard;
use scsi_types::{Asked, CdbFault, Command, InquiryPage, NoMemory, Op, Reply, Sense};
use std::alloc::Global;

/// The PERIPHERAL QUALIFIER and PERIPHERAL DEVICE TYPE where no device can be (SPC-4, 6.6.2).
const NOTHING: u8 = 0x7F;

/// The reply to a command for a logical unit that is not there: INQUIRY tells just that, REQUEST SENSE tells it as data,
/// and any other command is LOGICAL UNIT NOT SUPPORTED; a bad field of these two, or a page of vital product data, is
/// INVALID FIELD IN CDB (SPC-4, 6.6.1 and 6.39).
pub fn absent(alloc: Global, asked: &Asked) -> Result<Reply, NoMemory>
    ensures reply { IfOk result (λ reply. reply ≡ absent_reply asked.now) }
    ensures memory { OnErr result ((absent_reply asked.now).status ≡ Good) }
{
    match asked {
        Ok(
            Command::Inquiry {
                page: InquiryPage::Standard,
                allocation,
            },
        ) => tell_nothing(alloc, *allocation),
        Ok(Command::RequestSense { allocation }) => tell_absence(alloc, *allocation),
        Ok(Command::Inquiry { .. })
        | Err(CdbFault::BadField(Op::Inquiry))
        | Err(CdbFault::BadField(Op::RequestSense)) => Ok(Reply::check(
            alloc,
            Sense::INVALID_FIELD_IN_CDB,
        )),
        _ => Ok(Reply::check(alloc, Sense::LOGICAL_UNIT_NOT_SUPPORTED)),
    }
}

// Standard INQUIRY data of no device.
fn tell_nothing(alloc: Global, allocation: u16) -> Result<Reply, NoMemory>
    ensures { IfOk result (λ reply. reply ≡ good (cut allocation (spell (standard_inquiry nothing)))) }
{
    let mut standard = standard();
    standard[0] = NOTHING;
    Ok(Reply::good(cut_to(alloc, u32::from(allocation), &standard)?))
}

// Sense data of no unit.
fn tell_absence(alloc: Global, allocation: u8) -> Result<Reply, NoMemory>
    ensures { IfOk result (λ reply. reply ≡ good (cut allocation (sense_bytes logical_unit_not_supported))) }
{
    let sense = Sense::LOGICAL_UNIT_NOT_SUPPORTED.to_bytes();
    Ok(Reply::good(cut_to(alloc, u32::from(allocation), &sense)?))
}
