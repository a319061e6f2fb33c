//! The pieces of a basic header segment (RFC 7143, 11.2.1).

ghost use Rattle.std.specs.Prelude.{◌≡◌, ◌<◌, ◌^◌, ◌++◌, ◌∷◌, [], flat_map};
ghost use Rattle.byteorder.specs.Endian.{big_bytes};
ghost use Rattle.iscsi_pdu.specs.Spelling.{cells, flag, half, login_flags, word, zeros};

use crate::BHS_LENGTH;
use crate::header::{CommandNumbers, Numbers};
use byteorder::{BigEndian, ByteOrder};

/// A flag's value in its byte.
pub fn flag_value(set: bool, value: u8) -> u8
    ensures { result ≡ flag set value }
{
    if set { value } else { 0 }
}

/// Byte 1 of a login: T, C, CSG and NSG.
pub fn login_flags_value(transit: bool, continues: bool, current: u8, next: u8) -> u8
    ensures { result ≡ login_flags transit continues current next }
{
    flag_value(transit, 0x80) + flag_value(continues, 0x40) + (current % 4 * 4 + next % 4)
}

/// Two numbers of two bytes, as one of four.
pub fn halves(high: u16, low: u16) -> u32
    ensures { word result ≡ half high ++ half low }
{
    u32::from(high) * 65536 + u32::from(low)
}

/// The status of a Login Response, its class first, as a number of four bytes.
pub fn status_value(class: u8, detail: u8) -> u32
    ensures { word result ≡ class ∷ detail ∷ zeros 2 }
{
    u32::from(class) * 16_777_216 + u32::from(detail) * 65536
}

/// The ISID and the TSIH, which stand where other PDUs have a LUN.
pub fn session_place(isid: &[u8; 6], tsih: u16) -> [u8; 8]
    ensures { result ≡ cells 6 isid.now ++ half tsih }
{
    let mut place = [0; 8];
    BigEndian::write_u16(&mut place[6..], tsih);
    place[..6].copy_from_slice(isid);
    place
}

/// The words of an initiator's BHS from byte 16 on.
pub fn initiator_words(task_tag: u32, at_20: u32, n: &CommandNumbers, rest: [u32; 4]) -> [u32; 8]
    ensures { result ≡ task_tag ∷ at_20 ∷ n.now.cmd_sn ∷ n.now.exp_stat_sn ∷ rest }
{
    [
        task_tag,
        at_20,
        n.cmd_sn,
        n.exp_stat_sn,
        rest[0],
        rest[1],
        rest[2],
        rest[3],
    ]
}

/// The words of a target's BHS from byte 16 on.
pub fn target_words(task_tag: u32, at_20: u32, n: &Numbers, rest: [u32; 3]) -> [u32; 8]
    ensures { result ≡ task_tag ∷ at_20 ∷ n.now.stat_sn ∷ n.now.exp_cmd_sn ∷ n.now.max_cmd_sn ∷ rest }
{
    [
        task_tag,
        at_20,
        n.stat_sn,
        n.exp_cmd_sn,
        n.max_cmd_sn,
        rest[0],
        rest[1],
        rest[2],
    ]
}

/// A BHS by its parts: bytes 0 to 3, the length of the data segment, bytes 8 to 15, and the words from byte 16 on.
pub fn bhs_with(first: [u8; 4], len: u32, at_8: [u8; 8], words: [u32; 8]) -> [u8; BHS_LENGTH]
    requires { len < 2 ^ 24 }
    ensures { result ≡ cells 4 first ++ 0 ∷ [] ++ big_bytes 3 len ++ cells 8 at_8 ++ flat_map (big_bytes 4) words }
{
    let mut bhs = [0; BHS_LENGTH];
    BigEndian::write_u32_into(&words, &mut bhs[16..]);
    bhs[8..16].copy_from_slice(&at_8);
    BigEndian::write_u24(&mut bhs[5..8], len);
    bhs[..4].copy_from_slice(&first);
    bhs
}
