//! Why the file of a disk is not used.

use thiserror::Error;

/// Why a file is no device of blocks. A number is the error of the system, 0 where it told none.
#[derive(Clone, Copy, Debug, Error)]
pub enum FileFault {
    /// There is none.
    #[error("there is no such file")]
    NotThere,
    /// It is there and cannot be opened for reading and writing, or its end cannot be found.
    #[error("the file cannot be opened")]
    NotOpened(u32),
    /// Its length is no multiple of 512.
    #[error("the length of the file is no multiple of 512")]
    Length,
    /// It has no block.
    #[error("the file is empty")]
    Empty,
    /// It has 2^32 blocks or more.
    #[error("the file is too long")]
    TooLong,
}

/// Why a disk is not used. A number is the error of the system, 0 where it told none.
#[derive(Clone, Copy, Debug, Error)]
pub enum DiskFault {
    /// Its file is no device of blocks.
    #[error("{0}")]
    File(FileFault),
    /// Another server has it, or another unit of this one.
    #[error("the disk is in use")]
    InUse,
    /// It cannot be locked.
    #[error("the disk cannot be locked")]
    NotLocked(u32),
    /// There was no memory for its name.
    #[error("no memory")]
    NoMemory,
}
