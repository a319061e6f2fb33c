//! The fields of the commands on the medium (SBC-3, section 5).
ghost use Rattle.std.specs.Prelude.{◌≡◌, ◌↔◌, IsTrue, false};
ghost use Rattle.scsi_types.specs.declared.form.CdbForm.TheVariants as forms;
ghost use Rattle.scsi_types.specs.Cdb.{Asks, Decodes, HasTransfer, IsGoodTransfer, blocks_6, field, fua_of, lba_6};

use crate::Command;
use byteorder::{BigEndian, ByteOrder};

/// The most blocks that one READ or WRITE moves (SBC-3, Block Limits VPD page).
pub const MOST_BLOCKS: u16 = 2048;

/// The most blocks that one COMPARE AND WRITE compares.
const MOST_COMPARED: u32 = 32;

// RDPROTECT or WRPROTECT is 0, and there are no more blocks than the most.
fn is_good_transfer(cdb: &[u8; 16], blocks: u32, most: u32) -> bool
    ensures { IsTrue result ↔ IsGoodTransfer cdb.now blocks most }
{
    cdb[1] / 32 == 0 && blocks <= most
}

// FUA: past every cache.
fn fua(cdb: &[u8; 16]) -> bool
    ensures { result ≡ fua_of cdb.now }
{
    cdb[1] / 8 % 2 == 1
}

/// What a READ or a WRITE moves: from which block on, how many, and whether past every cache.
pub struct Transfer {
    lba: u64,
    blocks: u16,
    fua: bool,
}

impl Transfer {
    /// The READ that moves it.
    pub fn read(self) -> Command
        ensures { result ≡ Command.Read self.lba self.blocks self.fua }
    {
        let Transfer { lba, blocks, fua } = self;
        Command::Read { lba, blocks, fua }
    }

    /// The WRITE that moves it.
    pub fn write(self) -> Command
        ensures { result ≡ Command.Write self.lba self.blocks self.fua }
    {
        let Transfer { lba, blocks, fua } = self;
        Command::Write { lba, blocks, fua }
    }
}

/// The fields of READ (6) and WRITE (6), which have no FUA.
pub fn transfer_6(cdb: &[u8; 16]) -> Transfer
    ensures { result ≡ record { lba = lba_6 cdb.now; blocks = blocks_6 cdb.now; fua = false } }
{
    let lba = BigEndian::read_u24(&cdb[1..]) % 0x20_0000;
    let blocks = if cdb[4] == 0 { 256 } else { u16::from(cdb[4]) };
    Transfer {
        lba: u64::from(lba),
        blocks,
        fua: false,
    }
}

// The fields of a READ or a WRITE with this LBA and length, unless one is bad.
fn transfer_of(cdb: &[u8; 16], lba: u64, blocks: u32) -> Option<Transfer>
    ensures { HasTransfer cdb.now lba blocks result }
{
    if !is_good_transfer(cdb, blocks, u32::from(MOST_BLOCKS)) {
        return None;
    }
    Some(Transfer {
        lba,
        blocks: blocks as u16,
        fua: fua(cdb),
    })
}

/// The fields of READ (10) and WRITE (10), unless one is bad.
pub fn transfer_10(cdb: &[u8; 16]) -> Option<Transfer>
    ensures { HasTransfer cdb.now (field 2 5 cdb.now) (field 7 8 cdb.now) result }
{
    let lba = BigEndian::read_u32(&cdb[2..]);
    let blocks = BigEndian::read_u16(&cdb[7..]);
    transfer_of(cdb, u64::from(lba), u32::from(blocks))
}

/// The fields of READ (16) and WRITE (16), unless one is bad.
pub fn transfer_16(cdb: &[u8; 16]) -> Option<Transfer>
    ensures { HasTransfer cdb.now (field 2 9 cdb.now) (field 10 13 cdb.now) result }
{
    let lba = BigEndian::read_u64(&cdb[2..]);
    transfer_of(cdb, lba, BigEndian::read_u32(&cdb[10..]))
}

/// COMPARE AND WRITE.
pub fn compare_and_write(cdb: &[u8; 16]) -> Option<Command>
    ensures { Decodes forms.CompareAndWrite cdb.now result }
{
    let blocks = cdb[13];
    if !is_good_transfer(cdb, u32::from(blocks), MOST_COMPARED) {
        return None;
    }
    Some(Command::CompareAndWrite {
        lba: BigEndian::read_u64(&cdb[2..]),
        blocks: u16::from(blocks),
        fua: fua(cdb),
    })
}

/// SYNCHRONIZE CACHE (10).
pub fn synchronize_cache_10(cdb: &[u8; 16]) -> Command
    ensures { Asks forms.SynchronizeCache10 cdb.now result }
{
    Command::SynchronizeCache {
        lba: u64::from(BigEndian::read_u32(&cdb[2..])),
        blocks: u32::from(BigEndian::read_u16(&cdb[7..])),
    }
}

/// SYNCHRONIZE CACHE (16).
pub fn synchronize_cache_16(cdb: &[u8; 16]) -> Command
    ensures { Asks forms.SynchronizeCache16 cdb.now result }
{
    Command::SynchronizeCache {
        lba: BigEndian::read_u64(&cdb[2..]),
        blocks: BigEndian::read_u32(&cdb[10..]),
    }
}

/// READ CAPACITY (16).
pub fn read_capacity_16(cdb: &[u8; 16]) -> Command
    ensures { Asks forms.ReadCapacity16 cdb.now result }
{
    Command::ReadCapacity16 {
        allocation: BigEndian::read_u32(&cdb[10..]),
    }
}
