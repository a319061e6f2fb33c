//! What a file says to a restart, as READ FULL STATUS tells it then (SPC-4, 6.15.5).
use crate::ends::must;
use crate::reg_file::files::{holds, put};
use aptpl_file::FILE_BLOCKS;
use block_file::MemBlocks;
use reservations::{PrEnd, PrOut, Registry};
use scsi_types::{Group, PortName, PrOutAction};
use std::alloc::Global;
use std::process::Abort;
use test_connections::bytes_of;
use test_scripts::formatted;

// The blocks of a file of version 1 with two registrants, of which the second holds a reservation of type 3: its entry is told by its
// place alone, and byte 12 is 0.
fn old_file() -> &'static str {
    r#"0 0 "ALUAREG1" 0001 01
34 0 "ALUASLT1" 01 02 03 01 00
35 0 0000000000000011 0001 400001370000 12 "iqn.2000-01.test:a"
35 256 0000000000000022 0002 400001370000 12 "iqn.2000-01.test:b""#
}

fn old_status() -> &'static str {
    r#"00000000 00000080
 0000000000000011 00000000 00 00 00000000 0001 00000028 45 00 0024 "iqn.2000-01.test:a,i,0x400001370000\0"
 0000000000000022 00000000 01 03 00000000 0002 00000028 45 00 0024 "iqn.2000-01.test:b,i,0x400001370000\0""#
}

#[test]
fn a_file_of_version_1_with_a_holder(rt: HostRuntime) {
    let alloc = rt.alloc();
    let mut device = MemBlocks::new(alloc, FILE_BLOCKS).expect(&rt, "memory");
    for line in old_file().lines() {
        put(&rt, alloc, &mut device, line);
    }
    let status = bytes_of(alloc, &[], old_status()).expect(&rt, "bytes");
    must(
        &rt,
        holds(&rt, alloc, device, &status),
        "version 1",
        &"another record",
    );
}

/// One less than there may be.
const MANY: u8 = 63;

// The port of a number, whose name is as long as one may be: it begins with a byte of its own, and in the order of the numbers.
fn port_of(rt: &impl Abort, alloc: Global, number: u8) -> PortName {
    let mut name = vec![in alloc; b'x'; 223].expect(rt, "memory");
    if let Some(first) = name.first_mut() {
        *first = b'0'.saturating_add(number);
    }
    PortName::new(name, 0).expect(rt, "a name of 223 bytes")
}

// The port of a number does this, which is to last.
fn does(rt: &impl Abort, alloc: Global, registry: &mut Registry, number: u8, request: PrOut) {
    let end = registry.out(&port_of(rt, alloc, number), Group::One, request);
    must(rt, matches!(end, PrEnd::Good(_)), "a request", &number);
}

// The key of a number is the next one. It registers that, or reserves with this type.
fn request_of(number: u8, action: PrOutAction, kind: u8) -> PrOut {
    let key = u64::from(number).saturating_add(1);
    let registers = action == PrOutAction::Register;
    PrOut {
        action,
        scope: 0,
        kind,
        key: if registers { 0 } else { key },
        sakey: if registers { key } else { 0 },
        spec_i_pt: false,
        all_tg_pt: false,
        aptpl: true,
    }
}

// All are registered, and the last one holds a reservation of this type.
fn registry_of_many(rt: &impl Abort, alloc: Global, kind: u8) -> Registry {
    let mut registry = Registry::new(alloc).expect(rt, "memory");
    for number in 0..MANY {
        let request = request_of(number, PrOutAction::Register, 0);
        does(rt, alloc, &mut registry, number, request);
    }
    let request = request_of(MANY - 1, PrOutAction::Reserve, kind);
    does(rt, alloc, &mut registry, MANY - 1, request);
    registry
}

// What READ FULL STATUS tells of a number: its key, whether it holds a reservation of this type, group 1, and a TransportID of
// 248 bytes.
fn put_registrant(rt: &impl Abort, alloc: Global, status: &mut Vec<u8>, number: u8, kind: u8) {
    let key = u64::from(number).saturating_add(1);
    let first = b'0'.saturating_add(number);
    let (holds, kind) = if number == MANY - 1 {
        (1, kind)
    } else {
        (0, 0)
    };
    let words = format!(in alloc;
        "{key:016X} 00000000 {holds:02X} {kind:02X} 00000000 0001 000000F8 45 00 00F4 {first:02X} 222*78 \",i,0x000000000000\" 4*00"
    ).expect(rt, "memory");
    let bytes = bytes_of(alloc, &[], words.as_str()).expect(rt, words.as_str());
    status.extend_from_slice(&bytes).expect(rt, "memory");
}

// Generation 0, and 63 descriptors of 272 bytes.
fn status_of_many(rt: &impl Abort, alloc: Global, kind: u8) -> Vec<u8> {
    let mut status = bytes_of(alloc, &[], "00000000 000042F0").expect(rt, "bytes");
    for number in 0..MANY {
        put_registrant(rt, alloc, &mut status, number, kind);
    }
    status
}

// They are saved, and there behind a restart.
fn outlast(rt: &impl Abort, alloc: Global, kind: u8) {
    let mut file = formatted(alloc).expect(rt, "a registration file");
    let registry = registry_of_many(rt, alloc, kind);
    must(rt, file.save(&registry.lasting()).is_ok(), "a save", &kind);
    let status = status_of_many(rt, alloc, kind);
    let is_right = holds(rt, alloc, file.close(), &status);
    must(rt, is_right, "63 registrants", &kind);
}

#[test]
fn many_registrants_with_the_longest_names(rt: HostRuntime) {
    outlast(&rt, rt.alloc(), 3);
    outlast(&rt, rt.alloc(), 6);
}
