//! REQUEST SENSE data.
ghost use Rattle.std.specs.Prelude.{◌≡◌, IfOk};
ghost use Rattle.scsi_types.specs.Sense.{sense_bytes};
ghost use Rattle.identity.specs.Table.{cut};
ghost use Rattle.identity.specs.SenseData.{told_sense};

use crate::cut::cut_to;
use scsi_types::{NoMemory, Sense, UnitAttention};
use std::alloc::Global;

/// REQUEST SENSE data, 18 bytes: a unit attention, or NO SENSE, cut to the allocation length (SPC-4, 6.39).
pub fn request_sense(
    alloc: Global,
    told: Option<UnitAttention>,
    allocation: u8,
) -> Result<Vec<u8>, NoMemory>
    ensures { IfOk result (λ v. v.items ≡ cut allocation (sense_bytes (told_sense told))) }
{
    let sense = match told {
        Some(attention) => attention.sense(),
        None => Sense::NO_SENSE,
    };
    cut_to(alloc, u32::from(allocation), &sense.to_bytes())
}
