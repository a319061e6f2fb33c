//! Bits and numbers at their places in a basic header segment.

ghost use Rattle.std.specs.Prelude.{◌≡◌, ◌+◌, ◌≤◌, ◌<◌, length, slice_range};
ghost use Rattle.iscsi_pdu.specs.Number.{bit, half_at, three_at, word_at};
ghost use Rattle.iscsi_pdu.specs.Fields.{command_numbers_at, numbers_at};

use crate::BHS_LENGTH;
use crate::header::{CommandNumbers, Numbers};
use byteorder::{BigEndian, ByteOrder};

/// Whether the bit of this value is set in the byte at a place.
pub fn has_bit(bytes: &[u8], at: usize, value: u8) -> bool
    requires place { at < length bytes.now }
    requires bit { 0 < value }
    ensures { result ≡ bit bytes.now at value }
{
    bytes[at] / value % 2 == 1
}

/// The number in two bytes from a place on.
#[tactic(auto, unfolding(crate::specs::Number::half_at))]
pub fn half(bytes: &[u8], at: usize) -> u16
    requires { at + 2 ≤ length bytes.now }
    ensures { result ≡ half_at bytes.now at }
{
    BigEndian::read_u16(&bytes[at..])
}

/// The number in three bytes from a place on.
#[tactic(auto, unfolding(crate::specs::Number::three_at))]
pub fn three(bytes: &[u8], at: usize) -> u32
    requires { at + 3 ≤ length bytes.now }
    ensures { result ≡ three_at bytes.now at }
{
    BigEndian::read_u24(&bytes[at..])
}

/// The number in four bytes from a place on.
#[tactic(auto, unfolding(crate::specs::Number::word_at))]
pub fn word(bytes: &[u8], at: usize) -> u32
    requires { at + 4 ≤ length bytes.now }
    ensures { result ≡ word_at bytes.now at }
{
    BigEndian::read_u32(&bytes[at..])
}

/// The LUN's eight bytes.
pub fn lun(bhs: &[u8; BHS_LENGTH]) -> [u8; 8]
    ensures { result ≡ slice_range bhs.now 8 16 }
{
    let mut lun = [0; 8];
    lun.copy_from_slice(&bhs[8..16]);
    lun
}

/// The ISID's six bytes.
pub fn isid(bhs: &[u8; BHS_LENGTH]) -> [u8; 6]
    ensures { result ≡ slice_range bhs.now 8 14 }
{
    let mut isid = [0; 6];
    isid.copy_from_slice(&bhs[8..14]);
    isid
}

/// The CDB's sixteen bytes.
pub fn cdb(bhs: &[u8; BHS_LENGTH]) -> [u8; 16]
    ensures { result ≡ slice_range bhs.now 32 48 }
{
    let mut cdb = [0; 16];
    cdb.copy_from_slice(&bhs[32..48]);
    cdb
}

/// CmdSN and ExpStatSN.
pub fn command_numbers(bhs: &[u8; BHS_LENGTH]) -> CommandNumbers
    ensures { result ≡ command_numbers_at bhs.now }
{
    CommandNumbers {
        cmd_sn: word(bhs, 24),
        exp_stat_sn: word(bhs, 28),
    }
}

/// StatSN, ExpCmdSN and MaxCmdSN.
pub fn numbers(bhs: &[u8; BHS_LENGTH]) -> Numbers
    ensures { result ≡ numbers_at bhs.now }
{
    Numbers {
        stat_sn: word(bhs, 24),
        exp_cmd_sn: word(bhs, 28),
        max_cmd_sn: word(bhs, 32),
    }
}
