//! Scripts over files. The first line of each is its name, and that of its folder. Each line behind it is a call and, behind
//! a semicolon, how it ends: `done`, where it says nothing, or `failed`. Files go by their names in the folder, and why one is not
//! opened by the name of the fault.
//!
//! - `make disk 2048` makes a file of so many zeros, and `cut disk 1024` sets the length of one that is there; `put disk "text"` writes
//!   a file of these bytes, as `bytes_of` spells them. `rename disk_other disk`, `remove disk`, `link disk disk_link`
//!   and `symlink disk disk_link` are those calls of the system.
//! - `length disk; 2048`: it is so long, or `none`, where there is no file. `holds disk 512*00` looks at all its bytes, and `filled disk`
//!   whether the file system has set so many aside.
//! - `open disk` opens a disk, which is kept until `close`, or ends with why it is not opened.
//! - `blocks 4`, `read 1 07 08`, `write 1 07 08` and `flush` are calls on the disk that is kept: so many blocks there are, and from
//!   the block 1 on two are read or written that these bytes fill. `anew` opens it for another controller.
//! - `registrations disk; APTPL 11` opens the registration file of a disk, and ends with what its record says: APTPL or not, and
//!   the key of the first registrant, if there is one; or with why it is not opened. Where a key comes behind the disk, a record
//!   of that one is saved then. `keep disk; APTPL 11` does the same, and keeps the file until `close`; `save 22` saves a record in it.
//! - `unit disk 1 7` opens a disk as unit 1 of array 7.
//! - `count disk; 4`: so many blocks the device of a file has, or why it is none; `blocks_in 512; 1`: so many a length has.
//!
//! Those on disks and registration files are played once more where calls have a deadline.
use crate::calls::play_each;
use crate::kept::{opened, opened_by_threads};
use std::process;

/// The folders of the scripts with a deadline have numbers so far from those of the others.
const OTHER_FOLDERS: u32 = 0x4000_0000;

#[test]
fn each_call_ends_so(rt: HostRuntime) {
    let process = process::id(rt.process());
    let plain = |path: &str, is_disk: bool| opened(&rt, rt.alloc(), rt, path, is_disk);
    for table in &[
        disks(),
        locks(),
        lengths(),
        registrations(),
        kept(),
        unit_files(),
    ] {
        play_each(&rt, &plain, process, *table);
    }
}

#[test]
fn each_call_ends_so_where_it_has_a_deadline(rt: HostRuntime) {
    let process = process::id(rt.process()).wrapping_add(OTHER_FOLDERS);
    let timed = |path: &str, is_disk: bool| opened_by_threads(&rt, rt, path, is_disk);
    for table in &[disks(), locks(), registrations(), kept()] {
        play_each(&rt, &timed, process, *table);
    }
}

// A disk that is a file: what is written, and what becomes of it.
fn disks() -> &'static str {
    r#"what is written is there after a restart
make disk 2048
open disk
blocks 4
read 0 00 00 00 00
write 1 07 08
write 3 09
flush
close
open disk
read 0 00 07 08 09
read 2 08 09
close
holds disk 512*00 512*07 512*08 512*09

a disk that is opened anew has the same blocks
make disk 1024
open disk
write 0 05 06
anew
read 0 05 06
write 1 07
anew
read 0 05 07

a file that took its name is not opened, and the blocks stay
make disk 1024
open disk
write 0 05 06
make disk_other 1024
rename disk_other disk
anew; failed
read 0 05 06
remove disk
anew; failed
read 0 05 06

a file that is cut short fails
make disk 2048
open disk
write 0 05 06 07 08
cut disk 1024
read 0 05 06
read 1 06 07; failed
read 3 08; failed
write 3 09; failed
anew; failed
length disk; 1024"#
}

// One server a disk, by each of its names.
fn locks() -> &'static str {
    r#"a second unit on a disk is refused
make disk 512
link disk disk_link
symlink disk disk_symlink
open disk
open disk; InUse
open disk_link; InUse
open disk_symlink; InUse
close
open disk
close
open disk_link
close
open disk_symlink
close

a disk that is no device
open disk; File(NotThere)
make disk 700
open disk; File(Length)"#
}

// Which files are devices of blocks. The lengths behind 1048576 are of no file of a test.
fn lengths() -> &'static str {
    r#"each length has its blocks
blocks_in 0; Empty
blocks_in 1; Length
blocks_in 511; Length
blocks_in 512; 1
blocks_in 513; Length
blocks_in 1048576; 2048
blocks_in 2199023255040; 4294967295
blocks_in 2199023255551; Length
blocks_in 2199023255552; TooLong

each file has its blocks
make disk 0
count disk; Empty
make disk 1
count disk; Length
make disk 511
count disk; Length
make disk 512
count disk; 1
make disk 513
count disk; Length
make disk 1048576
count disk; 2048

no file and a folder cannot be opened
count disk; NotThere
count ..; NotOpened(21)"#
}

// The registration file beside a disk.
fn registrations() -> &'static str {
    r#"a saved record is there after a restart
registrations disk 11; no APTPL
registrations disk 22; APTPL 11
registrations disk 33; APTPL 22
length disk.reg; 34304
length disk.reg.new; none

what lies where a file is begun is left as it is, and the file has its name all the same
put disk.reg.new "half of it"
symlink disk.reg.new disk.reg.new1
link disk.reg.new disk.reg.new2
registrations disk 11; no APTPL
holds disk.reg.new "half of it"
length disk.reg; 34304
length disk.reg.new3; none
registrations disk; APTPL 11
length disk.reg.new3; none

a file that is made has room for each of its blocks
registrations disk; no APTPL
filled disk.reg
make disk_other.reg 34304
filled disk_other.reg; failed
registrations disk_other; Held(NotARegFile)
filled disk_other.reg; failed

a link to one that is not there is left as it is
symlink none disk.reg
registrations disk; File(NotThere)
length none; none
length disk.reg.new; none
put none "text"
holds disk.reg "text"

where all names are taken none is made
put disk.reg.new "1"
link disk.reg.new disk.reg.new1
link disk.reg.new disk.reg.new2
link disk.reg.new disk.reg.new3
link disk.reg.new disk.reg.new4
link disk.reg.new disk.reg.new5
link disk.reg.new disk.reg.new6
link disk.reg.new disk.reg.new7
link disk.reg.new disk.reg.new8
link disk.reg.new disk.reg.new9
registrations disk; NotMade(17)
holds disk.reg.new "1"
length disk.reg; none

a file that is no registration file stays
put disk.reg 34304*00
registrations disk; Held(NotARegFile)
holds disk.reg 34304*00
put disk.reg 512*00
registrations disk; Held(NotARegFile)
holds disk.reg 512*00
put disk.reg "text"
registrations disk; File(Length)
holds disk.reg "text"

a folder that is not there
registrations disk/none; NotMade(2)"#
}

// What becomes of a registration file that is kept open.
fn kept() -> &'static str {
    r#"one server a registration file
keep disk 11; no APTPL
registrations disk; InUse
link disk.reg disk_other.reg
registrations disk_other; InUse
save 22
close
registrations disk_other; APTPL 22

nothing is saved in a file whose name another one has
registrations disk 11; no APTPL
registrations disk_other 22; no APTPL
keep disk; APTPL 11
link disk.reg disk_kept.reg
rename disk_other.reg disk.reg
save 33; failed
remove disk.reg
save 33; failed
make disk.reg 0
save 33; failed
rename disk_kept.reg disk.reg
save 33
close
registrations disk; APTPL 33

a link that leads to another file
registrations disk 11; no APTPL
registrations disk_other 22; no APTPL
rename disk.reg disk_kept.reg
symlink disk_kept.reg disk.reg
keep disk; APTPL 11
save 33
remove disk.reg
symlink none disk.reg
save 44; failed
remove disk.reg
symlink disk_other.reg disk.reg
save 44; failed
close
registrations disk; APTPL 22
registrations disk_kept; APTPL 33

a sparse one is read, and a save finds its room while there is some
registrations disk 11; no APTPL
registrations disk 22; APTPL 11
cut disk.reg 17408
cut disk.reg 34304
filled disk.reg; failed
keep disk 33; APTPL 22
close
filled disk.reg
registrations disk; APTPL 33"#
}

// The file beside a disk that says as which unit it is served.
fn unit_files() -> &'static str {
    r#"a disk stays the unit as which it was served first
unit disk 1 7
holds disk.unit "unit 1 array 7" 0A
length disk.unit.new; none
unit disk 1 7
unit disk 0 7; Other(UnitName { unit: 1, array: 7 })
unit disk 1 1; Other(UnitName { unit: 1, array: 7 })
holds disk.unit "unit 1 array 7" 0A
remove disk.unit
unit disk 0 1
unit disk 1 7; Other(UnitName { unit: 0, array: 1 })
unit disk 0 1

what lies there and names no unit stays
put disk.unit "unit 1 array 7"
unit disk 1 7; NamesNone
make disk.unit 0
unit disk 1 7; NamesNone
put disk.unit "unit 256 array 7" 0A
unit disk 1 7; NamesNone
put disk.unit "unit 1 array 4294967296" 0A
unit disk 1 7; NamesNone
holds disk.unit "unit 1 array 4294967296" 0A
put disk.unit "unit 7 array 4294967295" 0A
unit disk 7 4294967295

where it cannot lie
symlink none disk.unit
unit disk 0 1; NotRead(0)
unit disk/none 0 1; NotRead(2)"#
}
