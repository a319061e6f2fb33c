//! Vital product data.
ghost use Rattle.std.specs.Prelude.{◌≡◌, ◌%◌};
ghost use Rattle.identity.specs.Table.{spell};
ghost use Rattle.identity.specs.VitalProductData as vpd;

use byteorder::{BigEndian, ByteOrder};
use scsi_types::{Group, MOST_BLOCKS, Place};

/// The page of the pages that there are (SPC-4, 7.8).
pub fn supported_pages() -> [u8; 8]
    ensures { result ≡ spell vpd.supported_pages }
{
    [0x00, 0x00, 0x00, 4, 0x00, 0x80, 0x83, 0xB0]
}

/// The Unit Serial Number page (SPC-4, 7.8).
pub fn serial_number(place: Place) -> [u8; 14]
    ensures { result ≡ spell (vpd.serial_number place) }
{
    let array = place.array;
    [
        0x00,
        0x80,
        0x00,
        10,
        hexadecimal(array / 0x1000_0000),
        hexadecimal(array / 0x100_0000),
        hexadecimal(array / 0x10_0000),
        hexadecimal(array / 0x1_0000),
        hexadecimal(array / 0x1000),
        hexadecimal(array / 0x100),
        hexadecimal(array / 0x10),
        hexadecimal(array),
        b'0' + place.unit / 10 % 10,
        b'0' + place.unit % 10,
    ]
}

// The lowest hexadecimal digit of a number.
fn hexadecimal(number: u32) -> u8
    ensures { result ≡ vpd.digit (number % 16) }
{
    let value = (number % 16) as u8;
    if value < 10 {
        b'0' + value
    } else {
        b'a' + (value - 10)
    }
}

/// The Device Identification page (SPC-4, 7.8) for a command that came by this group.
pub fn device_identification(place: Place, group: Group) -> [u8; 32]
    ensures { result ≡ spell (vpd.device_identification place group) }
{
    let number = group.number();
    let mut page = [
        0x00, 0x83, 0x00, 28, // the page
        0x01, 0x03, 0x00, 8, 0x30, 0x00, 0, 0, 0, 0, 0x00, place.unit, // NAA, locally assigned
        0x51, 0x94, 0x00, 4, 0x00, 0x00, 0x00, number, // relative target port
        0x51, 0x95, 0x00, 4, 0x00, 0x00, 0x00, number, // target port group
    ];
    BigEndian::write_u32(&mut page[10..14], place.array);
    page
}

/// The Block Limits page (SBC-3, Block Limits VPD page).
pub fn block_limits() -> [u8; 64]
    ensures { result ≡ spell vpd.block_limits }
{
    let mut page = [0; 64];
    page[1] = 0xB0;
    page[3] = 60;
    page[5] = 32;
    page[7] = 1;
    BigEndian::write_u32(&mut page[8..12], u32::from(MOST_BLOCKS));
    BigEndian::write_u32(&mut page[12..16], u32::from(MOST_BLOCKS));
    page
}
