//! The bytes of a file, as they stand in the format.
use crate::ends::must;
use crate::reg_file::files::{block_of, put};
use crate::registrations::run::out;
use aptpl_file::{FILE_BLOCKS, RegFile};
use block_file::{Blocks, MemBlocks};
use reservations::Registry;
use std::alloc::Global;
use std::process::Abort;
use test_connections::lines_of;
use test_scripts::formatted;

// Requests, each of which is saved, and how blocks of the file begin then: a block, a place in it, and bytes that stand there. The
// rest of a block is zeros, and so is each block that is not named.
fn rows() -> &'static str {
    r#"
a formatted file
0 0 "ALUAREG1" 0002 00
1 0 "ALUASLT1" 00 00 00 FF

REGISTER of 11h with APTPL goes to the second slot
> A_LONG Register 0 0 11 APTPL
0 0 "ALUAREG1" 0002 01
1 0 "ALUASLT1" 00 00 00 FF
34 0 "ALUASLT1" 01 01 00 FF
35 0 0000000000000011 0001 400001370000 12 "iqn.2000-01.test:a"

RESERVE of type 5 goes to the first slot again
> A_LONG Register 0 0 11 APTPL
> A_LONG Reserve 5 11 0 APTPL
0 0 "ALUAREG1" 0002 00
1 0 "ALUASLT1" 01 01 05 00 01
2 0 0000000000000011 0001 400001370000 12 "iqn.2000-01.test:a"
34 0 "ALUASLT1" 01 01 00 FF
35 0 0000000000000011 0001 400001370000 12 "iqn.2000-01.test:a"

ALL_TG_PT: one entry of both groups
> A_LONG Register 0 0 11 ALL_TG_PT APTPL
0 0 "ALUAREG1" 0002 01
1 0 "ALUASLT1" 00 00 00 FF
34 0 "ALUASLT1" 01 01 00 FF
35 0 0000000000000011 0003 400001370000 12 "iqn.2000-01.test:a"

both groups singly with one key: the same
> A_LONG Register 0 0 11 APTPL
> A_LONG_TWO Register 0 0 11 APTPL
0 0 "ALUAREG1" 0002 00
1 0 "ALUASLT1" 01 01 00 FF
2 0 0000000000000011 0003 400001370000 12 "iqn.2000-01.test:a"
34 0 "ALUASLT1" 01 01 00 FF
35 0 0000000000000011 0001 400001370000 12 "iqn.2000-01.test:a"

the holder through group 2 of an entry of both
> A_LONG Register 0 0 11 ALL_TG_PT APTPL
> A_LONG_TWO Reserve 5 11 0 APTPL
0 0 "ALUAREG1" 0002 00
1 0 "ALUASLT1" 01 01 05 00 02
2 0 0000000000000011 0003 400001370000 12 "iqn.2000-01.test:a"
34 0 "ALUASLT1" 01 01 00 FF
35 0 0000000000000011 0003 400001370000 12 "iqn.2000-01.test:a"

a holder behind an entry of both: the second entry
> A_LONG Register 0 0 11 ALL_TG_PT APTPL
> B_LONG_TWO Register 0 0 22 APTPL
> B_LONG_TWO Reserve 1 22 0 APTPL
0 0 "ALUAREG1" 0002 01
1 0 "ALUASLT1" 01 02 00 FF
2 0 0000000000000011 0003 400001370000 12 "iqn.2000-01.test:a"
2 256 0000000000000022 0002 400001370000 12 "iqn.2000-01.test:b"
34 0 "ALUASLT1" 01 02 01 01 02
35 0 0000000000000011 0003 400001370000 12 "iqn.2000-01.test:a"
35 256 0000000000000022 0002 400001370000 12 "iqn.2000-01.test:b"

every registrant holds: no place and no group
> A_LONG Register 0 0 11 ALL_TG_PT APTPL
> B_LONG_TWO Register 0 0 22 APTPL
> B_LONG_TWO Reserve 7 22 0 APTPL
0 0 "ALUAREG1" 0002 01
1 0 "ALUASLT1" 01 02 00 FF
2 0 0000000000000011 0003 400001370000 12 "iqn.2000-01.test:a"
2 256 0000000000000022 0002 400001370000 12 "iqn.2000-01.test:b"
34 0 "ALUASLT1" 01 02 07 FF
35 0 0000000000000011 0003 400001370000 12 "iqn.2000-01.test:a"
35 256 0000000000000022 0002 400001370000 12 "iqn.2000-01.test:b"
"#
}

// Does the request of a line, and saves what is registered then.
fn save(
    rt: &impl Abort,
    alloc: Global,
    file: &mut RegFile<MemBlocks>,
    registry: &mut Registry,
    request: &str,
) {
    let _ = out(rt, alloc, registry, request);
    let record = registry.record().expect(rt, "memory");
    let is_saved = file.save(&record.lasting()).is_ok();
    must(rt, is_saved, request, &"it is not saved");
}

// The blocks after a save behind each request.
fn saved(rt: &impl Abort, alloc: Global, lines: &[&str]) -> MemBlocks {
    let mut file = formatted(alloc).expect(rt, "a registration file");
    let mut registry = Registry::new(alloc).expect(rt, "memory");
    for line in lines {
        if let Some(request) = line.strip_prefix("> ") {
            save(rt, alloc, &mut file, &mut registry, request);
        }
    }
    file.close()
}

// The blocks as the lines have them.
fn wanted(rt: &impl Abort, alloc: Global, lines: &[&str]) -> MemBlocks {
    let mut device = MemBlocks::new(alloc, FILE_BLOCKS).expect(rt, "memory");
    for line in lines {
        if !line.starts_with('>') {
            put(rt, alloc, &mut device, line);
        }
    }
    device
}

// Each block of a file is as it is wanted.
fn are_alike(rt: &impl Abort, name: &str, found: &mut MemBlocks, wanted: &mut MemBlocks) {
    must(rt, found.count() == 67, name, &found.count());
    for index in 0..67 {
        let is_alike = block_of(found, index) == block_of(wanted, index);
        must(rt, is_alike, name, &index);
    }
}

// The blocks of a file are as a row has them.
fn is_met(rt: &impl Abort, alloc: Global, row: &str) {
    let lines = lines_of(alloc, row).expect(rt, "memory");
    let (name, lines) = lines.split_first().expect(rt, "a row");
    let mut found = saved(rt, alloc, lines);
    are_alike(rt, name, &mut found, &mut wanted(rt, alloc, lines));
}

#[test]
fn bytes_of_a_file(rt: HostRuntime) {
    for row in rows().split("\n\n") {
        is_met(&rt, rt.alloc(), row);
    }
}
