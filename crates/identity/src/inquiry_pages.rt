//! INQUIRY data.
ghost use Rattle.std.specs.Prelude.{◌≡◌, IfOk};
ghost use Rattle.identity.specs.Table.{cut, spell};
ghost use Rattle.identity.specs.Inquiry.{disk, standard_inquiry};
ghost use Rattle.identity.specs.InquiryData.{inquiry_data};

use crate::cut::cut_to;
use crate::vital::{block_limits, device_identification, serial_number, supported_pages};
use scsi_types::{Group, InquiryPage, NoMemory, Place};
use std::alloc::Global;

/// INQUIRY data of the unit at a place, for a command that came by this group, cut to the allocation length (SPC-4, 6.6
/// and 7.8).
pub fn inquiry(
    alloc: Global,
    place: Place,
    group: Group,
    page: InquiryPage,
    allocation: u16,
) -> Result<Vec<u8>, NoMemory>
    ensures { IfOk result (λ v. v.items ≡ cut allocation (spell (inquiry_data place group page))) }
{
    let allocation = u32::from(allocation);
    match page {
        InquiryPage::Standard => cut_to(alloc, allocation, &standard()),
        InquiryPage::SupportedPages => cut_to(alloc, allocation, &supported_pages()),
        InquiryPage::UnitSerialNumber => cut_to(alloc, allocation, &serial_number(place)),
        InquiryPage::DeviceIdentification => cut_to(
            alloc,
            allocation,
            &device_identification(place, group),
        ),
        InquiryPage::BlockLimits => cut_to(alloc, allocation, &block_limits()),
    }
}

// Standard INQUIRY data of a unit that is there.
pub(crate) fn standard() -> [u8; 36]
    ensures { result ≡ spell (standard_inquiry disk) }
{
    *b"\x00\x00\x06\x12\x1F\x30\x10\x02TWINCTL ALUA DISK       0001"
}
