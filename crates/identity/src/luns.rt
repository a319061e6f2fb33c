//! REPORT LUNS data.
ghost use Rattle.std.specs.Prelude.{◌≡◌, IfOk};
ghost use Rattle.identity.specs.Table.{cut, spell};
ghost use Rattle.identity.specs.Luns.{lun_list, selected};

use crate::cut::cut_to;
use byteorder::{BigEndian, ByteOrder};
use scsi_types::{LunSelect, NoMemory, Place};
use std::alloc::Global;

/// The bytes of a LUN, and those before the first.
const LUN: usize = 8;

/// The LUNs of the array's units, cut to the allocation length (SPC-4, 6.33). There are no well known logical units.
pub fn report_luns(
    alloc: Global,
    place: Place,
    select: LunSelect,
    allocation: u32,
) -> Result<Vec<u8>, NoMemory>
    ensures { IfOk result (λ v. v.items ≡ cut allocation (spell (lun_list place select))) }
{
    let units = how_many(place, select);
    let mut list = [0; LUN + LUN * 255];
    BigEndian::write_u32(&mut list, 8 * u32::from(units));
    for unit in 0..units {
        list[LUN + LUN * unit as usize + 1] = unit;
    }
    cut_to(alloc, allocation, &list[..LUN + LUN * units as usize])
}

// How many units are selected.
fn how_many(place: Place, select: LunSelect) -> u8
    ensures { result ≡ selected place select }
{
    match select {
        LunSelect::Units | LunSelect::All => place.units,
        LunSelect::WellKnown => 0,
    }
}
