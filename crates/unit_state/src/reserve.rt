//! PERSISTENT RESERVE IN and OUT (SPC-4, 6.15 and 6.16).
ghost use Rattle.std.specs.Prelude.{◌≡◌, ◌<◌, ◌≤◌, length, IfOk};
ghost use Rattle.identity.specs.Table.{cut};
ghost use Rattle.unit_control.specs.Reserve.{flag_of, in_data, pr_out};

use byteorder::{BigEndian, ByteOrder};
use reservations::{PrOut, Registry};
use scsi_types::{NoMemory, PrInAction, PrOutAction};

/// The length of the parameter list of PERSISTENT RESERVE OUT.
pub const LIST_LENGTH: u32 = 24;

/// SPEC_I_PT, in byte 20 of the list.
pub const SPEC_I_PT: u8 = 8;

/// ALL_TG_PT, there too.
pub const ALL_TG_PT: u8 = 4;

/// APTPL, there too.
pub const APTPL: u8 = 1;

/// Whether a flag is set in a parameter list; one that is not there has none.
pub fn has_flag(list: &[u8], flag: u8) -> bool
    requires { 0 < flag }
    ensures { result ≡ flag_of flag list.now }
{
    match list.get(20) {
        Some(flags) => *flags / flag % 2 == 1,
        None => false,
    }
}

/// A PERSISTENT RESERVE OUT by the fields of its CDB and its parameter list.
pub fn pr_out(action: PrOutAction, scope: u8, kind: u8, list: &[u8]) -> PrOut
    requires { LIST_LENGTH ≤ length list.now }
    ensures { result ≡ pr_out action scope kind list.now }
{
    PrOut {
        action,
        scope,
        kind,
        key: BigEndian::read_u64(list),
        sakey: BigEndian::read_u64(&list[8..]),
        spec_i_pt: has_flag(list, SPEC_I_PT),
        all_tg_pt: has_flag(list, ALL_TG_PT),
        aptpl: has_flag(list, APTPL),
    }
}

/// The data of PERSISTENT RESERVE IN, cut to the allocation length.
pub fn reservation_data(
    registry: &Registry,
    action: PrInAction,
    allocation: u16,
) -> Result<Vec<u8>, NoMemory>
    ensures { IfOk result (λ v. v.items ≡ cut allocation (in_data registry.now action)) }
{
    let allocation = u32::from(allocation);
    match action {
        PrInAction::ReadKeys => registry.keys(allocation),
        PrInAction::ReadReservation => registry.reservation(allocation),
        PrInAction::ReportCapabilities => registry.capabilities(allocation),
        PrInAction::ReadFullStatus => registry.full_status(allocation),
    }
}
