//! Descriptors 0 to 2: what is written to them may never reach a file that was opened for something else.

use std::fs::File;
use std::os::fd::AsRawFd;
use std::rt::Files;

/// The first descriptor behind those of standard input, standard output and standard error.
const FIRST_FREE: i32 = 3;

// A handle that reads nothing and keeps nothing, where it takes the place of one that the program was started without.
fn taken_one(rt: &impl Files<File = File>) -> Option<File> {
    match File::options().read(true).write(true).open(rt, "/dev/null") {
        Ok(file) if file.as_raw_fd() < FIRST_FREE => Some(file),
        _ => None,
    }
}

/// Takes those descriptors with which the program was started closed; they are taken as long as this is kept. The system gives the lowest
/// one that is free.
pub fn taken(rt: &impl Files<File = File>) -> (Option<File>, Option<File>, Option<File>) {
    (taken_one(rt), taken_one(rt), taken_one(rt))
}
