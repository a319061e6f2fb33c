//! What the bytes of a file spell. A slot is read, spelled again and compared, so that only its one spelling is taken.
ghost use Rattle.std.specs.Prelude.{◌≡◌, ◌↔◌, ◌≤◌, ◌+◌, ◌*◌, ◌<◌, ◌++◌, ◌∷◌, [], Bool, List, not, nat_eq, true};
ghost use Rattle.std.specs.Prelude.{length, IfErr, IfNone, IfOk, IfSome, IsTrue, OnOk};
ghost use Rattle.std.specs.List.{AllByRecursion, flat_map};
ghost use Rattle.std.specs.declared.cmp.Ordering.TheVariants.{Less};
ghost use Rattle.scsi_types.specs.declared.names.Group.{Group};
ghost use Rattle.scsi_types.specs.declared.names.Group.TheVariants.{One};
ghost use Rattle.registrants.specs.declared.registrant.Registrant.{Registrant};
ghost use Rattle.registrants.specs.Nexus.{nexus_cmp};
ghost use Rattle.registrants.specs.Registry.{IsListed, RecordValue, is_lasting, is_sound_hold};
ghost use Rattle.aptpl_format.specs.declared.entry.Entry.{Entry};
ghost use Rattle.aptpl_format.specs.Format.{entry_bytes, entry_length, group_code, root_block, slot_bytes, version_bytes};
ghost use Rattle.aptpl_format.specs.Reads.{AreEntries, HasReservation, IsEntry, IsRefusalOf, IsRootRefusal, DeviceAnswered};
ghost use Rattle.aptpl_format.specs.Reads.{IsVersion, Spells, SpellsEntries, covered, entry_part, holder_in};

use crate::entry::{Entry, MOST_ENTRIES, place_of};
use crate::spelling::{ENTRY_LENGTH, ROOT_MAGIC, SLOT_LENGTH, group_of, root_block, slot_bytes};
use crate::{FileVersion, OpenFault, Slot};
use block_file::BLOCK_LENGTH;
use byteorder::{BigEndian, ByteOrder};
use registrants::{Nexus, Record, Registrant, Reservation, ReservationType};
use scsi_types::{Group, LONGEST_NAME};
use std::alloc::Global;
use std::cmp::Ordering;

// ---- the root

// The version in two bytes.
fn version_in(field: &[u8]) -> Option<FileVersion>
    ensures some { IfSome result (λ version. field.now ≡ version_bytes version) }
    ensures none { IfNone result (IsVersion field.now → ⊥) }
{
    if field == FileVersion::Version1.bytes().as_slice() {
        return Some(FileVersion::Version1);
    }
    if field == FileVersion::Version2.bytes().as_slice() {
        return Some(FileVersion::Version2);
    }
    None
}

// The slot that a root of this version names.
fn slot_in(version: FileVersion, root: &[u8; 512]) -> Option<Slot>
    ensures some { IfSome result (λ slot. root.now ≡ root_block version slot) }
    ensures none { IfNone result ((slot : Slot) → root.now ≡ root_block version slot → ⊥) }
{
    if *root == root_block(version, Slot::First) {
        return Some(Slot::First);
    }
    if *root == root_block(version, Slot::Second) {
        return Some(Slot::Second);
    }
    None
}

/// The version and the slot that a root names.
pub fn named_by(root: &[u8; 512]) -> Result<(FileVersion, Slot), OpenFault>
    ensures named { IfOk result (λ named. root.now ≡ root_block named.0 named.1) }
    ensures refused { IfErr result (IsRootRefusal root.now) }
{
    if root[..8] != ROOT_MAGIC[..] {
        return Err(OpenFault::NotARegFile);
    }
    let Some(version) = version_in(&root[8..10]) else {
        return Err(OpenFault::Version);
    };
    match slot_in(version, root) {
        Some(slot) => Ok((version, slot)),
        None => Err(OpenFault::NotARegFile),
    }
}

// ---- entries

// The group of an entry's registrant, and whether the entry is of both.
fn groups_of_code(code: u8) -> Option<(Group, bool)>
    ensures some { IfSome result (λ found. code ≡ group_code found.0 found.1) }
    ensures first { IfSome result (λ found. found.1 ≡ true → found.0 ≡ One) }
    ensures none { IfNone result ((group : Group) (both : Bool) → code ≡ group_code group both → ⊥) }
{
    match code {
        1 => Some((Group::One, false)),
        2 => Some((Group::Two, false)),
        3 => Some((Group::One, true)),
        _ => None,
    }
}

// What an entry spells.
fn entry_in(entry: &[u8]) -> Option<Entry>
    requires { length entry.now ≡ entry_length }
    ensures some { IfSome result IsEntry }
    ensures only { IfSome result (λ found. (e : Entry) → IsEntry e → entry.now ≡ entry_bytes e → found ≡ e) }
    ensures none { IfNone result ((e : Entry) → IsEntry e → entry.now ≡ entry_bytes e → ⊥) }
{
    let Some((group, both)) = groups_of_code(entry[9]) else {
        return None;
    };
    let long = usize::from(entry[16]);
    if long == 0 {
        return None;
    }
    if long > LONGEST_NAME {
        return None;
    }
    let key = BigEndian::read_u64(entry);
    if key == 0 {
        return None;
    }
    let isid = BigEndian::read_u48(&entry[10..]);
    let nexus = Nexus::named(&entry[17..17 + long], isid, group);
    let registrant = Registrant { nexus, key };
    Some(Entry { registrant, both })
}

// Whether a registrant stands behind all of these.
fn stands_behind(registrants: &[Registrant], x: &Registrant) -> bool
    ensures { IsTrue result ↔ AllByRecursion (λ (y : Registrant). nexus_cmp y.nexus x.now.nexus ≡ Less) registrants.now }
{
    registrants
        .iter()
        .all(|y| y.nexus.compare(&x.nexus) == Ordering::Less)
}

// Takes a registrant behind those that were taken.
fn push_behind(registrants: &mut Vec<Registrant>, x: Registrant) -> Result<(), OpenFault>
    requires entries { AreEntries registrants.old.items }
    requires listed { IsListed x }
    requires keyed { IsTrue (not (nat_eq x.key 0)) }
    ensures pushed { OnOk result (registrants.new.items ≡ registrants.old.items ++ x ∷ []) }
    ensures entries { OnOk result (AreEntries registrants.new.items) }
    ensures refused { IfErr result (λ fault. IsRefusalOf fault
        ((rest : List Registrant) → AreEntries (registrants.old.items ++ x ∷ rest) → ⊥)) }
    ensures unfailed { DeviceAnswered result }
{
    if !stands_behind(registrants, &x) {
        return Err(OpenFault::NotARegFile);
    }
    match registrants.push(x) {
        Ok(()) => Ok(()),
        Err(_) => Err(OpenFault::NoMemory),
    }
}

// Takes the registrants for which an entry stands.
fn push_covered(registrants: &mut Vec<Registrant>, e: Entry) -> Result<(), OpenFault>
    requires entries { AreEntries registrants.old.items }
    requires entry { IsEntry e }
    ensures pushed { OnOk result (registrants.new.items ≡ registrants.old.items ++ covered e) }
    ensures entries { OnOk result (AreEntries registrants.new.items) }
    ensures refused { IfErr result (λ fault. IsRefusalOf fault
        ((rest : List Registrant) → AreEntries (registrants.old.items ++ (covered e ++ rest)) → ⊥)) }
    ensures unfailed { DeviceAnswered result }
{
    if !e.both {
        return push_behind(registrants, e.registrant);
    }
    let second = Registrant {
        nexus: e.registrant.nexus.through_other(),
        key: e.registrant.key,
    };
    match push_behind(registrants, e.registrant) {
        Ok(()) => push_behind(registrants, second),
        Err(fault) => Err(fault),
    }
}

// Takes an entry behind those that were taken.
fn take_entry(registrants: &mut Vec<Registrant>, entry: &[u8]) -> Result<(), OpenFault>
    requires long { length entry.now ≡ entry_length }
    requires entries { AreEntries registrants.old.items }
    ensures taken { OnOk result ((e : Entry) → IsEntry e → entry.now ≡ entry_bytes e
        → registrants.new.items ≡ registrants.old.items ++ covered e) }
    ensures entries { OnOk result (AreEntries registrants.new.items) }
    ensures refused { IfErr result (λ fault. IsRefusalOf fault
        ((e : Entry) (rest : List Registrant) → IsEntry e → entry.now ≡ entry_bytes e
        → AreEntries (registrants.old.items ++ (covered e ++ rest)) → ⊥)) }
    ensures unfailed { DeviceAnswered result }
{
    match entry_in(entry) {
        Some(e) => push_covered(registrants, e),
        None => Err(OpenFault::NotARegFile),
    }
}

// The entry at a place of a slot.
fn entry_at(bytes: &[u8; SLOT_LENGTH], i: usize) -> &[u8]
    requires { i < 64 }
    ensures is { result.now ≡ entry_part bytes.now i }
    ensures long { length result.now ≡ entry_length }
{
    let at = BLOCK_LENGTH + ENTRY_LENGTH * i;
    &bytes[at..at + ENTRY_LENGTH]
}

// The registrants of a slot's entries, so many in all.
fn registrants_in(
    alloc: Global,
    bytes: &[u8; SLOT_LENGTH],
    count: usize,
) -> Result<Vec<Registrant>, OpenFault>
    requires { count ≤ 64 }
    ensures entries { IfOk result (λ xs. AreEntries xs.items) }
    ensures only { IfOk result (λ xs. (es : List Entry) → SpellsEntries bytes.now count es
        → xs.items ≡ flat_map covered es) }
    ensures refused { IfErr result (λ fault. IsRefusalOf fault
        ((es : List Entry) → SpellsEntries bytes.now count es → ⊥)) }
    ensures unfailed { DeviceAnswered result }
{
    let mut registrants = Vec::new(alloc);
    for i in 0..count {
        match take_entry(&mut registrants, entry_at(bytes, i)) {
            Ok(()) => {}
            Err(fault) => return Err(fault),
        }
    }
    Ok(registrants)
}

// ---- the reservation

// The registered nexus with this place and group.
fn holder_in(
    version: FileVersion,
    place: u8,
    group: u8,
    registrants: &[Registrant],
) -> Option<Nexus>
    requires { length registrants.now ≤ 64 }
    ensures { result ≡ holder_in version place group registrants.now }
{
    let found = registrants.iter().find(|x| {
        place_of(version, &x.nexus, registrants) == place && group_of(version, &x.nexus) == group
    });
    found.map(|x| x.nexus.copy())
}

// The reservation of a type's code and of a holder's place and group; none for no type.
fn reservation_in(
    version: FileVersion,
    bytes: &[u8; SLOT_LENGTH],
    registrants: &[Registrant],
) -> Result<Option<Reservation>, OpenFault>
    requires { length registrants.now ≤ 64 }
    ensures sound { IfOk result (λ held. IsTrue (is_sound_hold held registrants.now)) }
    ensures only { IfOk result (λ held. (r : RecordValue) → HasReservation version bytes.now registrants.now r
        → r.reservation ≡ held) }
    ensures refused { IfErr result (λ fault. IsRefusalOf fault
        ((r : RecordValue) → HasReservation version bytes.now registrants.now r → ⊥)) }
    ensures unfailed { DeviceAnswered result }
{
    let Some(kind) = ReservationType::from_code(bytes[10]) else {
        return Ok(None);
    };
    if kind.is_of_all_registrants() {
        if registrants.is_empty() {
            return Err(OpenFault::NotARegFile);
        }
        return Ok(Some(Reservation { kind, holder: None }));
    }
    match holder_in(version, bytes[11], bytes[12], registrants) {
        Some(nexus) => Ok(Some(Reservation {
            kind,
            holder: Some(nexus),
        })),
        None => Err(OpenFault::NotARegFile),
    }
}

// ---- the record

// Whether these make a record that the slot spells: without aptpl there is nothing.
fn is_spelled(
    version: FileVersion,
    bytes: &[u8; SLOT_LENGTH],
    aptpl: bool,
    registrants: &[Registrant],
    reservation: &Option<Reservation>,
) -> bool
    requires { length registrants.now ≤ 64 }
    ensures { IsTrue result ↔ (IsTrue (is_lasting aptpl registrants.now reservation.now)
        × (bytes.now ≡ slot_bytes version
        (record { aptpl = aptpl; registrants = registrants.now; reservation = reservation.now }))) }
{
    if !aptpl && !(registrants.is_empty() && reservation.is_none()) {
        return false;
    }
    *bytes == slot_bytes(version, aptpl, registrants, reservation)
}

// The record of a slot with these registrants.
fn record_with(
    version: FileVersion,
    bytes: &[u8; SLOT_LENGTH],
    registrants: Vec<Registrant>,
) -> Result<Record, OpenFault>
    requires { AreEntries registrants.items }
    ensures read { IfOk result (Spells version bytes.now) }
    ensures refused { IfErr result (λ fault. IsRefusalOf fault
        ((r : RecordValue) → Spells version bytes.now r → r.registrants ≡ registrants.items → ⊥)) }
    ensures unfailed { DeviceAnswered result }
{
    if registrants.len() > MOST_ENTRIES {
        return Err(OpenFault::NotARegFile);
    }
    let aptpl = bytes[8] == 1;
    match reservation_in(version, bytes, &registrants) {
        Ok(held) => {
            if is_spelled(version, bytes, aptpl, &registrants, &held) {
                Ok(Record::new(aptpl, registrants, held))
            } else {
                Err(OpenFault::NotARegFile)
            }
        }
        Err(fault) => Err(fault),
    }
}

/// The record that a slot spells in a version.
pub fn record_of(
    alloc: Global,
    version: FileVersion,
    bytes: &[u8; SLOT_LENGTH],
) -> Result<Record, OpenFault>
    ensures read { IfOk result (Spells version bytes.now) }
    ensures refused { IfErr result (λ fault. IsRefusalOf fault ((r : RecordValue) → Spells version bytes.now r → ⊥)) }
    ensures unfailed { DeviceAnswered result }
{
    let count = usize::from(bytes[9]);
    if count > MOST_ENTRIES {
        return Err(OpenFault::NotARegFile);
    }
    match registrants_in(alloc, bytes, count) {
        Ok(registrants) => record_with(version, bytes, registrants),
        Err(fault) => Err(fault),
    }
}
