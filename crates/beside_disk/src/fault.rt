//! Why a registration file is not used.
use aptpl_file::OpenFault;
use disk_files::FileFault;
use thiserror::Error;

/// Why a registration file is not used. A number is the error of the system, 0 where it told none.
#[derive(Clone, Copy, Debug, Error)]
pub enum RegistrationsFault {
    /// Its file is no device of blocks.
    #[error("{0}")]
    File(FileFault),
    /// It is not there and could not be made.
    #[error("the registration file cannot be made")]
    NotMade(u32),
    /// It is there and is no registration file that can be read.
    #[error("{0}")]
    Held(OpenFault),
    /// Another server has it, or another unit of this one.
    #[error("the registration file is in use")]
    InUse,
    /// It cannot be locked.
    #[error("the registration file cannot be locked")]
    NotLocked(u32),
    /// It would lie where a reboot forgets it, and its disk would not.
    #[error("a reboot would forget the registration file")]
    Forgotten,
    /// There was no memory for its name.
    #[error("no memory")]
    NoMemory,
}
