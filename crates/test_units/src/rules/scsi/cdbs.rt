//! CDBs, and what they ask for, as lines of text: a name, a CDB in hexadecimal digits, and what it asks for in the form of `Debug`
//! without its commas, and with its numbers in hexadecimal digits too. The bytes behind the end of a CDB are EEh.
use crate::ends::must;
use crate::rules::scsi::{commands, faults};
use scsi_types::decode;
use std::alloc::Global;
use std::process::Abort;
use test_connections::lines_of;
use test_scripts::{cdb_of, part};

// Each CDB asks for what stands beside it.
fn ask(rt: &impl Abort, alloc: Global, rows: &str) {
    let rows = lines_of(alloc, rows).expect(rt, "memory");
    must(rt, !rows.is_empty(), "CDBs", &"a table has rows");
    for row in &rows {
        asks(rt, alloc, row);
    }
}

// The CDB of a row does.
fn asks(rt: &impl Abort, alloc: Global, row: &str) {
    must(rt, part(row, 3).is_empty(), row, &"more parts than three");
    let cdb = cdb_of(alloc, part(row, 1), 0xEE).expect(rt, row);
    let asked = decode(&cdb);
    let text = format!(in alloc; "{asked:?}").expect(rt, "memory");
    let text = in_hexadecimal(rt, alloc, text.as_str());
    let is_right = text.as_str().trim() == part(row, 2).trim();
    must(rt, is_right, row, &text);
}

fn in_hexadecimal(rt: &impl Abort, alloc: Global, debug: &str) -> String {
    let mut text = String::new(alloc);
    for word in debug.split_ascii_whitespace() {
        let word = word.trim_end_matches(',');
        let put = match word.parse::<u64>() {
            Ok(number) => write!(text, " {number:X}"),
            Err(_) => write!(text, " {word}"),
        };
        put.expect(rt, "memory");
    }
    text
}

#[test]
fn each_asks_for_this(rt: HostRuntime) {
    ask(&rt, rt.alloc(), commands::rows());
    ask(&rt, rt.alloc(), faults::rows());
}
