//! Why a file is not opened.
use thiserror::Error;

/// Why a registration file is not opened.
#[derive(Clone, Copy, Debug, PartialEq, Eq, Error)]
pub enum OpenFault {
    /// There are too few blocks, or they spell no record.
    #[error("not a registration file")]
    NotARegFile,
    /// It is a registration file of another version.
    #[error("a registration file of another version")]
    Version,
    /// The device failed.
    #[error("the device failed")]
    DeviceFailed,
    /// There was no memory for the registrants.
    #[error("no memory")]
    NoMemory,
}
