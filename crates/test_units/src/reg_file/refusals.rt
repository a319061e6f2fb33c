//! Files that are refused, and why.
use crate::ends::{fail, must};
use crate::reg_file::files::{put, registry_after};
use aptpl_file::{OpenFault, RegFile};
use block_file::MemBlocks;
use std::alloc::Global;
use std::process::Abort;
use test_connections::lines_of;
use test_scripts::formatted;

// Each begins with a device: that of a file after these requests, or so many blocks of zeros. Then come rows: a name; the bytes that are
// put into the device, each by its block, its place there and, in hexadecimal, its value; and why the file is refused, or that it opens.
fn tables() -> &'static str {
    r#"
# Two registrants, a and b, of which a holds a reservation of type 5. Slot 1 stands from block 34 on, its entries in block 35.
A_LONG Register 0 0 11 APTPL, B_LONG Register 0 0 22 APTPL, A_LONG Reserve 5 11 0 APTPL
as it was saved;; opens
the same in version 1, where nothing tells the holder's group; 0 9 01, 34 12 00; opens
version 1 and a holder's group; 0 9 01; not-a-file
version 1, and a holder that is not there; 0 9 01, 34 12 00, 34 11 02; not-a-file
another root; 0 7 32; not-a-file
version 3; 0 9 03; version
version 257; 0 8 01; version
another root comes before the version; 0 0 00, 0 9 03; not-a-file
the version comes before the slot; 0 9 03, 0 10 02; version
slot 2; 0 10 02; not-a-file
a root with a stray byte; 0 511 01; not-a-file
the slot that is named was never written; 0 10 00, 1 0 00; not-a-file
a slot with another name; 34 3 00; not-a-file
aptpl 2; 34 8 02; not-a-file
registrants without aptpl; 34 8 00; not-a-file
65 registrants; 34 9 41; not-a-file
one registrant, and another entry; 34 9 01; not-a-file
three registrants, and two entries; 34 9 03; not-a-file
type 2; 34 10 02; not-a-file
type 7 with a holder; 34 10 07; not-a-file
no type, and a holder; 34 10 00; not-a-file
a holder that is not there; 34 11 02; not-a-file
a holder of a group that its entry has not; 34 12 02; not-a-file
a holder without a group; 34 12 00; not-a-file
a holder of group 3; 34 12 03; not-a-file
type 7, and a holder's group; 34 10 07, 34 11 FF; not-a-file
type 5 without a holder; 34 11 FF; not-a-file
a slot with a stray byte; 34 13 01; not-a-file
entries out of order; 35 34 63; not-a-file
one nexus twice; 35 34 62; not-a-file
key 0; 35 7 00; not-a-file
group 4; 35 9 04; not-a-file
group 257; 35 8 01; not-a-file
a name of no byte; 35 16 00; not-a-file
a name of 224 bytes; 35 16 E0; not-a-file
a byte behind the name; 35 35 01; not-a-file
a byte behind the last entry; 66 511 01; not-a-file

# One port: through group 1 with 11h, and through group 2 with 22h.
A_LONG Register 0 0 11 APTPL, A_LONG_TWO Register 0 0 22 APTPL
as it was saved;; opens
the same in version 1; 0 9 01; opens
two entries of one key; 35 263 11; not-a-file
an entry of both beside one of group 2; 35 9 03; not-a-file
an entry of both beside one of group 2 and the same key; 35 9 03, 35 263 11; not-a-file

# One registrant.
A_LONG Register 0 0 11 APTPL
group 3 in version 1; 0 9 01, 35 9 03; not-a-file
group 3 in version 2; 35 9 03; opens

# Zeros hold no root, and of a file that holds one 66 blocks are too few.
0 blocks
zeros;; not-a-file

66 blocks
zeros;; not-a-file
a file of nothing; 0 0 "ALUAREG1" 0002 00, 1 0 "ALUASLT1" 00 00 00 FF; not-a-file

67 blocks
zeros;; not-a-file
a file of nothing; 0 0 "ALUAREG1" 0002 00, 1 0 "ALUASLT1" 00 00 00 FF; opens

68 blocks
zeros;; not-a-file
a file of nothing; 0 0 "ALUAREG1" 0002 00, 1 0 "ALUASLT1" 00 00 00 FF; opens
"#
}

// The device of these words.
fn device(rt: &impl Abort, alloc: Global, words: &str) -> MemBlocks {
    if let Some(blocks) = words.strip_suffix(" blocks") {
        return MemBlocks::new(alloc, blocks.parse().expect(rt, words)).expect(rt, "memory");
    }
    let mut file = formatted(alloc).expect(rt, "a registration file");
    let registry = registry_after(rt, alloc, words);
    let _ = file.save(&registry.lasting());
    file.close()
}

// Why a device is refused, once these bytes are put into it.
fn fault_of(rt: &impl Abort, alloc: Global, words: &str, puts: &str) -> Option<OpenFault> {
    let mut device = device(rt, alloc, words);
    for byte in puts.split(',') {
        if !byte.is_empty() {
            put(rt, alloc, &mut device, byte.trim());
        }
    }
    match RegFile::open(alloc, device) {
        Ok((_file, _record)) => None,
        Err(fault) => Some(fault),
    }
}

// Why a file is refused, by its word.
fn fault_named(rt: &impl Abort, word: &str) -> Option<OpenFault> {
    match word {
        "opens" => None,
        "not-a-file" => Some(OpenFault::NotARegFile),
        "version" => Some(OpenFault::Version),
        _ => fail(rt, word, &"no fault"),
    }
}

// Each row of a table ends as it says.
fn are_refused(rt: &impl Abort, alloc: Global, table: &str) {
    let lines = lines_of(alloc, table).expect(rt, "memory");
    let (words, rows) = lines.split_first().expect(rt, "a device");
    must(rt, !rows.is_empty(), words, &"a device has rows");
    for row in rows {
        is_refused(rt, alloc, words, row);
    }
}

// So does a row of a device.
fn is_refused(rt: &impl Abort, alloc: Global, words: &str, row: &str) {
    let (_name, rest) = row.split_once(';').expect(rt, row);
    let (puts, why) = rest.split_once(';').expect(rt, row);
    let fault = fault_of(rt, alloc, words, puts);
    let is_right = fault == fault_named(rt, why.trim());
    must(rt, is_right, row, &fault);
}

#[test]
fn what_is_refused(rt: HostRuntime) {
    for table in tables().split("\n\n") {
        are_refused(&rt, rt.alloc(), table);
    }
}
