//! READ CAPACITY data.
ghost use Rattle.std.specs.Prelude.{◌≡◌, IfOk};
ghost use Rattle.identity.specs.Table.{cut, spell};
ghost use Rattle.identity.specs.Capacity.{capacity_10, capacity_16};

use crate::cut::cut_to;
use byteorder::{BigEndian, ByteOrder};
use scsi_types::NoMemory;
use std::alloc::Global;

/// The LOGICAL BLOCK LENGTH IN BYTES.
const BLOCK_LENGTH: u32 = 512;

/// READ CAPACITY (10) data, 8 bytes, of a unit of 1 to 2^32 - 1 blocks (SBC-3, READ CAPACITY (10) command).
pub fn read_capacity_10(alloc: Global, blocks: u32) -> Result<Vec<u8>, NoMemory>
    ensures { IfOk result (λ v. v.items ≡ spell (capacity_10 blocks)) }
{
    let mut bytes = [0; 8];
    BigEndian::write_u32(&mut bytes, blocks.saturating_sub(1));
    BigEndian::write_u32(&mut bytes[4..], BLOCK_LENGTH);
    Ok(bytes.to_vec(alloc)?)
}

/// READ CAPACITY (16) data, 32 bytes, of a unit of 1 to 2^32 - 1 blocks, cut to the allocation length (SBC-3, READ
/// CAPACITY (16) command).
pub fn read_capacity_16(alloc: Global, blocks: u32, allocation: u32) -> Result<Vec<u8>, NoMemory>
    ensures { IfOk result (λ v. v.items ≡ cut allocation (spell (capacity_16 blocks))) }
{
    cut_to(alloc, allocation, &capacity(blocks))
}

// READ CAPACITY (16) data, whole.
fn capacity(blocks: u32) -> [u8; 32]
    ensures { result ≡ spell (capacity_16 blocks) }
{
    let mut bytes = [0; 32];
    BigEndian::write_u64(&mut bytes, u64::from(blocks.saturating_sub(1)));
    BigEndian::write_u32(&mut bytes[8..], BLOCK_LENGTH);
    bytes
}
