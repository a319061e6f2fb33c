//! The one place where data is cut.
ghost use Rattle.std.specs.Prelude.{◌≡◌, IfOk};
ghost use Rattle.identity.specs.Table.{cut};

use scsi_types::NoMemory;
use std::alloc::Global;

/// As many of the bytes as the ALLOCATION LENGTH lets through (SPC-4, 4.2.5.6). Takes the memory of these alone.
pub(crate) fn cut_to(alloc: Global, allocation: u32, bytes: &[u8]) -> Result<Vec<u8>, NoMemory>
    ensures { IfOk result (λ v. v.items ≡ cut allocation bytes.now) }
{
    let length = bytes.len().min(allocation as usize);
    Ok(bytes[..length].to_vec(alloc)?)
}
