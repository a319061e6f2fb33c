//! What INQUIRY, MODE SENSE and REPORT LUNS are asked to tell.
ghost use Rattle.std.specs.Prelude.{◌≡◌, ◌/◌};
ghost use Rattle.scsi_types.specs.Found.{IsFoundBy};

use crate::found::found_by;

/// A page of INQUIRY data.
#[derive(Clone, Copy, Debug, PartialEq, Eq)]
pub enum InquiryPage {
    /// Standard INQUIRY data (SPC-4, 6.6.2).
    Standard,
    /// The Supported VPD Pages page, 00h (SPC-4, 7.8).
    SupportedPages,
    /// The Unit Serial Number page, 80h (SPC-4, 7.8).
    UnitSerialNumber,
    /// The Device Identification page, 83h (SPC-4, 7.8).
    DeviceIdentification,
    /// The Block Limits page, B0h (SBC-3, Block Limits VPD page).
    BlockLimits,
}

/// The header of MODE SENSE data, which is that of the (6) or of the (10) command (SPC-4, 7.5.5).
#[derive(Clone, Copy, Debug, PartialEq, Eq)]
pub enum ModeHeader {
    Six,
    Ten,
}

/// Which values of a mode page are asked for: the page control, 0 to 3 in this order (SPC-4, 6.13.1).
#[derive(Clone, Copy, Debug, PartialEq, Eq)]
pub enum PageControl {
    Current,
    Changeable,
    Default,
    Saved,
}

/// A mode page, or all of them.
#[derive(Clone, Copy, Debug, PartialEq, Eq)]
pub enum ModePage {
    /// The Caching mode page, 08h (SBC-3, Caching mode page).
    Caching,
    /// The Control mode page, 0Ah (SPC-4, 7.5.10).
    Control,
    /// All pages, 3Fh (SPC-4, 6.13.1).
    All,
}

/// Which logical units are to be reported: SELECT REPORT, 0 to 2 in this order (SPC-4, 6.33).
#[derive(Clone, Copy, Debug, PartialEq, Eq)]
pub enum LunSelect {
    /// All but the well known ones.
    Units,
    /// The well known ones, of which this array has none.
    WellKnown,
    /// All.
    All,
}

impl InquiryPage {
    ghost use Rattle.scsi_types.specs.Pages.{IsInquiryPage};

    // The page of an EVPD bit and a PAGE CODE.
    pub(crate) fn of(evpd: u8, code: u8) -> Option<InquiryPage>
        ensures { IsFoundBy (IsInquiryPage evpd code) result }
    {
        match (evpd, code) {
            (0, 0x00) => Some(InquiryPage::Standard),
            (1, 0x00) => Some(InquiryPage::SupportedPages),
            (1, 0x80) => Some(InquiryPage::UnitSerialNumber),
            (1, 0x83) => Some(InquiryPage::DeviceIdentification),
            (1, 0xB0) => Some(InquiryPage::BlockLimits),
            _ => None,
        }
    }
}

impl PageControl {
    ghost use Rattle.std.specs.Prelude.{◌<◌};
    ghost use Rattle.scsi_types.specs.Pages.{control_code};

    // The page control of two bits.
    pub(crate) fn of(bits: u8) -> PageControl
        requires { bits < 4 }
        ensures { bits ≡ control_code result }
    {
        match bits {
            0 => PageControl::Current,
            1 => PageControl::Changeable,
            2 => PageControl::Default,
            _ => PageControl::Saved,
        }
    }
}

impl ModePage {
    ghost use Rattle.scsi_types.specs.Pages.{mode_page_code};

    // The page of a PAGE CODE.
    pub(crate) fn of(code: u8) -> Option<ModePage>
        ensures { IsFoundBy (λ page. code ≡ mode_page_code page) result }
    {
        found_by!(code, ModePage: 0x08 = Caching, 0x0A = Control, 0x3F = All)
    }
}

impl LunSelect {
    ghost use Rattle.scsi_types.specs.Pages.{select_code};

    // The choice of a SELECT REPORT byte.
    pub(crate) fn of(code: u8) -> Option<LunSelect>
        ensures { IsFoundBy (λ select. code ≡ select_code select) result }
    {
        found_by!(code, LunSelect: 0 = Units, 1 = WellKnown, 2 = All)
    }
}
