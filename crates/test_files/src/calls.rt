//! The runner of the scripts over files (`scripts`).
use crate::ends::must;
use crate::kept::AnyFile;
use aptpl_file::RegFile;
use beside_disk::{UnitName, open_as};
use block_file::{Blocks, Opener};
use disk_files::{FileBlocks, FileFault, blocks_in};
use reservations::Record;
use std::alloc::Global;
use std::fmt::Debug;
use std::fs;
use std::fs::{File, Files};
use std::os::unix::fs::MetadataExt;
use std::process::Abort;
use test_disks::{Row, clean, folder, is_done_on, path_of, registered, row_of, sized};

/// Plays each script of a table in a folder of this process, over files that are opened so.
pub fn play_each<
    R: Files<File = File> + AllocGlobal + Abort,
    K: AnyFile,
    O: Fn(&str, bool) -> Result<K, String>,
>(rt: &R, opens: &O, process: u32, table: &str)
    requires { O.IsAlwaysCallable opens.now }
{
    for script in table.split("\n\n") {
        let (name, rows) = script.split_once('\n').unwrap_or((script, ""));
        let folder = folder(rt, process, name).expect(rt, name);
        play(rt, opens, folder.as_str(), rows);
        clean(rt, folder.as_str()).expect(rt, name);
    }
}

// Plays the rows of a script in a folder.
fn play<
    R: Files<File = File> + AllocGlobal + Abort,
    K: AnyFile,
    O: Fn(&str, bool) -> Result<K, String>,
>(rt: &R, opens: &O, folder: &str, rows: &str)
    requires { O.IsAlwaysCallable opens.now }
{
    let mut kept = None;
    for line in rows.split('\n') {
        let row = row_of(line);
        let path = path_of(rt.alloc(), folder, row.on).expect(rt, "memory");
        must(
            rt,
            ends_so(rt, opens, &mut kept, path.as_str(), &row),
            folder,
            &line,
        );
    }
}

// Whether a call ends as its row says. The path is that of what it is on. What is opened is kept.
fn ends_so<
    R: Files<File = File> + AllocGlobal + Abort,
    K: AnyFile,
    O: Fn(&str, bool) -> Result<K, String>,
>(rt: &R, opens: &O, kept: &mut Option<K>, path: &str, row: &Row) -> bool
    requires { O.IsAlwaysCallable opens.now }
{
    match row.word {
        "open" | "keep" | "registrations" => match opens(path, row.word == "open") {
            Ok(file) => {
                *kept = Some(file);
                is_opened(rt, rt.alloc(), kept, row)
            }
            Err(fault) => fault.as_str() == row.end,
        },
        "close" => {
            *kept = None;
            row.ends(true)
        }
        _ if row.is_on_what_is_kept() => is_done_so(rt, rt.alloc(), kept, row),
        _ => looks_so(rt, path, row),
    }
}

// Whether what is kept was opened as a row says. A record of the key of the row is saved then, if it has one; and what is not to be kept
// is closed.
fn is_opened<K: AnyFile>(rt: &impl Abort, alloc: Global, kept: &mut Option<K>, row: &Row) -> bool {
    let is_so = match kept {
        Some(file) => file.is_so(rt, alloc, row),
        None => false,
    };
    let save = Row {
        word: "save",
        on: row.rest,
        rest: "",
        end: "done",
    };
    let is_saved = row.rest.is_empty() || is_done_so(rt, alloc, kept, &save);
    if row.word == "registrations" {
        *kept = None;
    }
    is_so && is_saved
}

// Makes the call of a row on what is kept: whether it ends so.
fn is_done_so<K: AnyFile>(rt: &impl Abort, alloc: Global, kept: &mut Option<K>, row: &Row) -> bool {
    match kept {
        Some(file) => file.ends(rt, alloc, row),
        None => false,
    }
}

/// What a fault is called.
pub fn said<D: Debug>(rt: &impl Abort, alloc: Global, fault: &D) -> String {
    format!(in alloc; "{fault:?}").expect(rt, "memory")
}

// Whether a row ends by this fault.
fn is_told<D: Debug>(rt: &impl Abort, alloc: Global, fault: &D, row: &Row) -> bool {
    said(rt, alloc, fault).as_str() == row.end
}

/// Makes a call on a disk. The lock on it is held all the while.
pub fn is_done<B: Blocks, O: Opener<B>>(
    rt: &impl Abort,
    alloc: Global,
    blocks: &mut B,
    opener: &mut O,
    row: &Row,
) -> bool {
    if row.word == "anew" {
        row.ends(opener.open(blocks).is_ok())
    } else {
        let is_done = is_done_on(alloc, blocks, row);
        row.ends(is_done.expect(rt, row.on))
    }
}

// Looks at a file.
fn looks_so<R: Files<File = File> + AllocGlobal + Abort>(rt: &R, path: &str, row: &Row) -> bool {
    match row.word {
        "length" | "holds" => match fs::read(rt, path) {
            Ok(bytes) => are_those(rt, rt.alloc(), &bytes, row),
            Err(_) => row.end == "none",
        },
        "filled" => row.ends(is_filled(rt, path)),
        "count" => is_counted(rt, rt.alloc(), count(rt, path), row),
        "unit" => is_unit(rt, rt.alloc(), path, row),
        _ => changes(rt, rt.alloc(), path, row),
    }
}

// The bytes of a row.
fn bytes_of(rt: &impl Abort, alloc: Global, row: &Row) -> Vec<u8> {
    row.bytes(alloc).expect(rt, row.rest)
}

// The number of a row.
fn number_of(rt: &impl Abort, row: &Row) -> u64 {
    row.number().expect(rt, row.rest)
}

// Whether the bytes of a file are those of a row, or so many.
fn are_those(rt: &impl Abort, alloc: Global, bytes: &[u8], row: &Row) -> bool {
    if row.word == "holds" {
        bytes == bytes_of(rt, alloc, row).as_slice() && row.ends(true)
    } else {
        row.end.parse() == Ok(bytes.len())
    }
}

// Whether a file has room in its file system for all its bytes.
fn is_filled<R: Files<File = File>>(rt: &R, path: &str) -> bool {
    match fs::metadata(rt, path) {
        Ok(metadata) => metadata.blocks() >= metadata.len() / 512,
        Err(_) => false,
    }
}

// How many blocks the device of a file has.
fn count<R: Files<File = File>>(rt: &R, path: &str) -> Result<u32, FileFault> {
    match FileBlocks::open(rt, path) {
        Ok(device) => Ok(device.count()),
        Err(fault) => Err(fault),
    }
}

// Whether so many blocks, or why there are none, is what a row says.
fn is_counted(rt: &impl Abort, alloc: Global, count: Result<u32, FileFault>, row: &Row) -> bool {
    match count {
        Ok(count) => row.end.parse() == Ok(count),
        Err(fault) => is_told(rt, alloc, &fault, row),
    }
}

// Opens a disk as the unit of an array, both by their numbers.
fn is_unit<R: Files<File = File> + Abort>(rt: &R, alloc: Global, path: &str, row: &Row) -> bool {
    let (unit, array) = row.rest.split_once(' ').unwrap_or((row.rest, ""));
    let name = UnitName {
        unit: unit.parse().expect(rt, unit),
        array: array.parse().expect(rt, array),
    };
    match open_as(rt, alloc, path, name) {
        Ok(()) => row.ends(true),
        Err(fault) => is_told(rt, alloc, &fault, row),
    }
}

/// Saves a record of a key: whether that was done.
pub fn is_saved<B: Blocks>(
    rt: &impl Abort,
    alloc: Global,
    file: &mut RegFile<B>,
    key: &str,
) -> bool {
    let number = u64::from_str_radix(key, 16).expect(rt, key);
    let registry = registered(alloc, number, false).expect(rt, "registrations");
    file.save(&registry.lasting()).is_ok()
}

/// What a record says: APTPL or not, and the key of its first registrant.
pub fn told(rt: &impl Abort, alloc: Global, record: &Record) -> String {
    let aptpl = if record.aptpl() { "APTPL" } else { "no APTPL" };
    match record.registrants().first() {
        Some(registrant) => format!(in alloc; "{aptpl} {:X}", registrant.key),
        None => format!(in alloc; "{aptpl}"),
    }
    .expect(rt, "memory")
}

// Changes a file.
fn changes<R: Files<File = File> + Abort>(rt: &R, alloc: Global, path: &str, row: &Row) -> bool {
    match row.word {
        "make" => sized(File::create(rt, path), number_of(rt, row)),
        "cut" => sized(
            File::options().write(true).open(rt, path),
            number_of(rt, row),
        ),
        "put" => fs::write(rt, path, bytes_of(rt, alloc, row).as_slice()).is_ok(),
        "remove" => fs::remove_file(rt, path).is_ok(),
        "blocks_in" => is_counted(rt, alloc, blocks_in(row.on.parse().expect(rt, row.on)), row),
        _ => names(rt, path, path_beside(rt, alloc, path, row).as_str(), row),
    }
}

// The path of the other name of a row.
fn path_beside(rt: &impl Abort, alloc: Global, path: &str, row: &Row) -> String {
    let folder = path.strip_suffix(row.on).unwrap_or(path);
    format!(in alloc; "{folder}{}", row.rest).expect(rt, "memory")
}

// Gives a file another name.
fn names<R: Files<File = File>>(rt: &R, path: &str, other: &str, row: &Row) -> bool {
    match row.word {
        "rename" => fs::rename(rt, path, other).is_ok(),
        "link" => fs::hard_link(rt, path, other).is_ok(),
        "symlink" => std::os::unix::fs::symlink(rt, row.on, other).is_ok(),
        _ => false,
    }
}
