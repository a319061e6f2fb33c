//! The fields of the commands that ask what a logical unit is (SPC-4, section 6).
ghost use Rattle.std.specs.Prelude.{MatchOption};
ghost use Rattle.scsi_types.specs.declared.form.CdbForm.TheVariants as forms;
ghost use Rattle.scsi_types.specs.declared.pages.ModePage.{ModePage};
ghost use Rattle.scsi_types.specs.declared.pages.PageControl.{PageControl};
ghost use Rattle.scsi_types.specs.Cdb.{Decodes, IsModeSense};

use crate::{Command, InquiryPage, LunSelect, ModeHeader, ModePage, PageControl};
use byteorder::{BigEndian, ByteOrder};

/// REQUEST SENSE (6.39).
pub fn request_sense(cdb: &[u8; 16]) -> Option<Command>
    ensures { Decodes forms.RequestSense cdb.now result }
{
    if cdb[1] % 2 != 0 {
        return None;
    }
    Some(Command::RequestSense { allocation: cdb[4] })
}

/// INQUIRY (6.6).
pub fn inquiry(cdb: &[u8; 16]) -> Option<Command>
    ensures { Decodes forms.Inquiry cdb.now result }
{
    let page = InquiryPage::of(cdb[1] % 2, cdb[2])?;
    let allocation = BigEndian::read_u16(&cdb[3..]);
    Some(Command::Inquiry { page, allocation })
}

// The page control and the page of a MODE SENSE, unless a field is bad.
fn mode_page(cdb: &[u8; 16]) -> Option<(PageControl, ModePage)>
    ensures { MatchOption result
        ((control : PageControl) (page : ModePage) → IsModeSense cdb.now control page → ⊥)
        (λ t. IsModeSense cdb.now t.0 t.1) }
{
    if cdb[3] != 0 {
        return None;
    }
    let page = ModePage::of(cdb[2] % 64)?;
    Some((PageControl::of(cdb[2] / 64), page))
}

/// MODE SENSE (6) (6.13).
pub fn mode_sense_6(cdb: &[u8; 16]) -> Option<Command>
    ensures { Decodes forms.ModeSense6 cdb.now result }
{
    let Some((control, page)) = mode_page(cdb) else {
        return None;
    };
    Some(Command::ModeSense {
        header: ModeHeader::Six,
        control,
        page,
        allocation: u16::from(cdb[4]),
    })
}

/// MODE SENSE (10) (6.14).
pub fn mode_sense_10(cdb: &[u8; 16]) -> Option<Command>
    ensures { Decodes forms.ModeSense10 cdb.now result }
{
    let Some((control, page)) = mode_page(cdb) else {
        return None;
    };
    Some(Command::ModeSense {
        header: ModeHeader::Ten,
        control,
        page,
        allocation: BigEndian::read_u16(&cdb[7..]),
    })
}

/// REPORT LUNS (6.33).
pub fn report_luns(cdb: &[u8; 16]) -> Option<Command>
    ensures { Decodes forms.ReportLuns cdb.now result }
{
    let select = LunSelect::of(cdb[2])?;
    let allocation = BigEndian::read_u32(&cdb[6..]);
    Some(Command::ReportLuns { select, allocation })
}
