//! MODE SENSE data.
ghost use Rattle.std.specs.Prelude.{◌≡◌, ◌≤◌, length, IfOk};
ghost use Rattle.identity.specs.Table.{cut, spell};
ghost use Rattle.identity.specs.Mode.{mode_data, mode_pages};

use crate::cut::cut_to;
use byteorder::{BigEndian, ByteOrder};
use scsi_types::{ModeHeader, ModePage, NoMemory, PageControl};
use std::alloc::Global;

/// The Caching page and the Control page with their values.
static VALUES: [u8; 32] = [
    0x08, 18, 0x04, 0, 0, 0, 0, 0, 0, 0, 0, 0, 0, 0, 0, 0, 0, 0, 0, 0, // WCE
    0x0A, 10, 0x00, 0x10, 0, 0, 0, 0, 0, 0, 0, 0, // QUEUE ALGORITHM MODIFIER 1
];

/// The same pages with the masks of what may be changed: nothing.
static MASKS: [u8; 32] = [
    0x08, 18, 0, 0, 0, 0, 0, 0, 0, 0, 0, 0, 0, 0, 0, 0, 0, 0, 0, 0, //
    0x0A, 10, 0, 0, 0, 0, 0, 0, 0, 0, 0, 0,
];

/// The length of the Caching page.
const CACHING: usize = 20;

/// DPOFUA, in the DEVICE-SPECIFIC PARAMETER.
const DPOFUA: u8 = 0x10;

/// Mode parameter data with these pages and no block descriptors, cut to the allocation length (SPC-4, 6.13 and 7.5).
pub fn mode_sense(
    alloc: Global,
    header: ModeHeader,
    control: PageControl,
    page: ModePage,
    allocation: u16,
) -> Result<Vec<u8>, NoMemory>
    ensures { IfOk result (λ v. v.items ≡ cut allocation (spell (mode_data header control page))) }
{
    let pages = asked_pages(control, page);
    let length = pages.len();
    let allocation = u32::from(allocation);
    let mut list = [0; 40];
    match header {
        ModeHeader::Six => {
            list[0] = 3 + length as u8;
            list[2] = DPOFUA;
            list[4..4 + length].copy_from_slice(pages);
            cut_to(alloc, allocation, &list[..4 + length])
        }
        ModeHeader::Ten => {
            BigEndian::write_u16(&mut list, 6 + length as u16);
            list[3] = DPOFUA;
            list[8..8 + length].copy_from_slice(pages);
            cut_to(alloc, allocation, &list[..8 + length])
        }
    }
}

// The pages that are asked for.
fn asked_pages(control: PageControl, page: ModePage) -> &'static [u8]
    ensures pages { result.now ≡ spell (mode_pages control page) }
    ensures few { length result.now ≤ 32 }
{
    let pages = match control {
        PageControl::Current | PageControl::Default | PageControl::Saved => &VALUES,
        PageControl::Changeable => &MASKS,
    };
    match page {
        ModePage::Caching => &pages[..CACHING],
        ModePage::Control => &pages[CACHING..],
        ModePage::All => pages,
    }
}
