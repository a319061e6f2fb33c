//! The blocks that spell a record.
ghost use Rattle.std.specs.Prelude.{◌≡◌, ◌+◌, ◌^◌, ◌≤◌, ◌<◌, [], ◌∷◌, ◌++◌, false, length, take, drop, Some};
ghost use Rattle.byteorder.specs.Endian.{big_bytes};
ghost use Rattle.block_file.specs.declared.blocks.TheConstants.{BLOCK_LENGTH};
ghost use Rattle.registrants.specs.Registry.{holder_of};
ghost use Rattle.aptpl_format.specs.Format.{entry_bytes, group_code, group_of, header_block, padded, place_of, root_block};
ghost use Rattle.aptpl_format.specs.Format.{slot_bytes, type_byte};

use crate::entry::{MOST_ENTRIES, NO_HOLDER, entry_count, first_entry, place_of};
use crate::{FileVersion, Slot};
use block_file::BLOCK_LENGTH;
use byteorder::{BigEndian, ByteOrder};
use registrants::{Nexus, Registrant, Reservation};
use scsi_types::Group;

/// How many blocks a registration file takes.
pub const FILE_BLOCKS: u32 = 67;

/// How many of them a slot takes.
const SLOT_BLOCKS: usize = 33;

/// The length of a slot in bytes.
pub const SLOT_LENGTH: usize = BLOCK_LENGTH * SLOT_BLOCKS;

/// The length of an entry in bytes.
pub const ENTRY_LENGTH: usize = 256;

/// How a root begins.
pub const ROOT_MAGIC: [u8; 8] = [0x41, 0x4C, 0x55, 0x41, 0x52, 0x45, 0x47, 0x31];

/// How a slot begins.
const SLOT_MAGIC: [u8; 8] = [0x41, 0x4C, 0x55, 0x41, 0x53, 0x4C, 0x54, 0x31];

/// Writes bytes over those from a place on.
pub fn put(place: &mut [u8], at: usize, bytes: &[u8])
    requires { at + length bytes.now ≤ length place.old }
    ensures { place.new ≡ take at place.old ++ (bytes.now ++ drop (at + length bytes.now) place.old) }
{
    let end = at + bytes.len();
    place[at..end].copy_from_slice(bytes);
}

// A block that begins so.
fn block_of(bytes: &[u8]) -> [u8; 512]
    requires { length bytes.now ≤ BLOCK_LENGTH }
    ensures { result ≡ padded BLOCK_LENGTH bytes.now }
{
    let mut block = [0; 512];
    put(&mut block, 0, bytes);
    block
}

/// The root that names this version and this slot.
#[tactic(auto, unfolding(crate::specs::Format::root_block))]
pub fn root_block(version: FileVersion, slot: Slot) -> [u8; 512]
    ensures { result ≡ root_block version slot }
{
    let [a, b, c, d, e, f, g, h] = ROOT_MAGIC;
    let [high, low] = version.bytes();
    block_of(&[a, b, c, d, e, f, g, h, high, low, slot.number()])
}

// ---- a slot's first block

fn type_byte(reservation: &Option<Reservation>) -> u8
    ensures { result ≡ type_byte reservation.now }
{
    match reservation {
        Some(held) => held.kind.code(),
        None => 0,
    }
}

/// The byte of the holder's group.
pub fn group_of(version: FileVersion, holder: &Nexus) -> u8
    ensures { result ≡ group_of version (Some holder.now) }
{
    match version {
        FileVersion::Version1 => 0,
        FileVersion::Version2 => holder.group().number(),
    }
}

// The place and the group of the holder.
fn holder_bytes(
    version: FileVersion,
    registrants: &[Registrant],
    reservation: &Option<Reservation>,
) -> (u8, u8)
    requires { length registrants.now ≤ 64 }
    ensures place { result.0 ≡ place_of version (holder_of reservation.now) registrants.now }
    ensures group { result.1 ≡ group_of version (holder_of reservation.now) }
{
    let Some(held) = reservation else {
        return (NO_HOLDER, 0);
    };
    match &held.holder {
        Some(holder) => (
            place_of(version, holder, registrants),
            group_of(version, holder),
        ),
        None => (NO_HOLDER, 0),
    }
}

/// A slot's first block.
#[tactic(auto, unfolding(crate::specs::Format::header_block))]
pub fn header_block(
    version: FileVersion,
    aptpl: bool,
    registrants: &[Registrant],
    reservation: &Option<Reservation>,
) -> [u8; 512]
    requires { length registrants.now ≤ 64 }
    ensures { result ≡ header_block version
        (record { aptpl = aptpl; registrants = registrants.now; reservation = reservation.now }) }
{
    let [a, b, c, d, e, f, g, h] = SLOT_MAGIC;
    let aptpl = u8::from(aptpl);
    let count = entry_count(version, registrants) as u8;
    let kind = type_byte(reservation);
    let (place, group) = holder_bytes(version, registrants, reservation);
    block_of(&[a, b, c, d, e, f, g, h, aptpl, count, kind, place, group])
}

// ---- its entries

// The group in an entry.
fn group_code(group: Group, both: bool) -> u16
    ensures { result ≡ group_code group both }
{
    if both { 3 } else { u16::from(group.number()) }
}

// An entry up to the name.
fn entry_head(key: u64, code: u16, isid: u64, length_of_name: u8) -> [u8; 17]
    requires { isid < 2 ^ 48 }
    ensures { result ≡ big_bytes 8 key ++ big_bytes 2 code ++ big_bytes 6 isid ++ length_of_name ∷ [] }
{
    let mut head = [0; 17];
    BigEndian::write_u64(&mut head[..8], key);
    BigEndian::write_u16(&mut head[8..10], code);
    BigEndian::write_uint(&mut head[10..16], isid, 6);
    head[16] = length_of_name;
    head
}

/// The entry of a registrant, of both groups or of its own.
#[tactic(auto, unfolding(crate::specs::Format::entry_bytes))]
pub fn entry_bytes(x: &Registrant, both: bool) -> [u8; 256]
    ensures { result ≡ entry_bytes (record { registrant = x.now; both = both }) }
{
    let name = x.nexus.name();
    let code = group_code(x.nexus.group(), both);
    let head = entry_head(x.key, code, x.nexus.isid(), name.len() as u8);
    let mut entry = [0; 256];
    put(&mut entry, 0, &head);
    put(&mut entry, 17, name);
    entry
}

/// The bytes of a slot, which are the one spelling of a record.
#[tactic(auto, unfolding(crate::specs::Format::slot_bytes))]
pub fn slot_bytes(
    version: FileVersion,
    aptpl: bool,
    registrants: &[Registrant],
    reservation: &Option<Reservation>,
) -> [u8; SLOT_LENGTH]
    requires { length registrants.now ≤ 64 }
    ensures { result ≡ slot_bytes version
        (record { aptpl = aptpl; registrants = registrants.now; reservation = reservation.now }) }
{
    let mut bytes = [0; SLOT_LENGTH];
    let header = header_block(version, aptpl, registrants, reservation);
    put(&mut bytes, 0, &header);
    let mut rest = registrants;
    for k in 0..MOST_ENTRIES {
        let Some((x, both, behind)) = first_entry(version, rest) else {
            return bytes;
        };
        let at = BLOCK_LENGTH + ENTRY_LENGTH * k;
        put(&mut bytes, at, &entry_bytes(x, both));
        rest = behind;
    }
    bytes
}
