//! Why the program ends without having served, or without having flushed, with the text and the exit status of each.

ghost use Rattle.std.specs.Prelude.{◌≡◌};
ghost use Rattle.std.specs.Process.{exit_status};
ghost use Rattle.command_line.specs.Fault.{status_of};

use crate::words::WordsFault;
use scsi_types::NoMemory;
use std::alloc::{AllocError, AllocFailed};
use std::fmt::{self, Display, Formatter};
use std::net::SocketAddrV4;
use std::process::ExitCode;
use std::thread::SpawnError;

/// Why the program ends without having served, or without having flushed. They are looked for in the order in which they stand here;
/// want of memory or of a thread is found where it is asked for. A number behind a text or an address is the error of the system, 0
/// where it told none.
#[derive(Clone, Copy, PartialEq, Eq)]
pub enum Fault {
    /// The command line is none that the program takes.
    WrongWords,
    /// The disk of this unit of the array with this number is another one, as the file beside it says: of which array that is.
    OtherUnit(u8, u32, u8, u32),
    /// The file of this unit is not there, can't be read and written, or is no disk, as this text says.
    CannotUseUnit(u8, &'static str, u32),
    /// The registration file of this unit can't be read, made or understood, as this text says.
    CannotUseRegistrationFile(u8, &'static str, u32),
    /// A controller, 1 or 2, can't listen at its portal with this number, counted from 0, which has this address.
    CannotListen(u8, u16, SocketAddrV4, u32),
    /// The window can't listen at this address.
    CannotListenAt(SocketAddrV4, u32),
    /// The control socket can't be made.
    CannotControl(u32),
    /// Memory, or a thread, is refused.
    NoMemory,
    /// It has served, and this unit could not be flushed at its end.
    NotFlushed(u8),
}

impl Fault {
    /// The exit status.
    pub fn status(self) -> ExitCode
        ensures { exit_status result ≡ status_of self }
    {
        match self {
            Fault::WrongWords | Fault::OtherUnit(_, _, _, _) => ExitCode::from(2),
            Fault::NotFlushed(_) => ExitCode::from(3),
            _ => ExitCode::from(1),
        }
    }
}

// Writes the error of the system, where there is one.
fn write_error<W: fmt::Write>(f: &mut Formatter<W>, before: &str, error: u32) -> fmt::Result {
    if error == 0 {
        Ok(())
    } else {
        write!(f, "{before}errno {error}")
    }
}

impl Display for Fault {
    fn fmt<W: fmt::Write>(&self, f: &mut Formatter<W>) -> fmt::Result {
        match self {
            Fault::WrongWords => write!(f, "wrong words"),
            Fault::OtherUnit(unit, array, known, of) => {
                write!(
                    f,
                    "unit {unit} of array {array} is unit {known} of array {of}"
                )
            }
            Fault::CannotUseUnit(unit, why, error) => {
                write!(f, "cannot use unit {unit}: {why}")?;
                write_error(f, ", ", *error)
            }
            Fault::CannotUseRegistrationFile(unit, why, error) => {
                write!(f, "cannot use registration file {unit}: {why}")?;
                write_error(f, ", ", *error)
            }
            Fault::CannotListen(controller, portal, at, error) => {
                write!(
                    f,
                    "cannot listen at controller {controller} portal {portal}: {at}"
                )?;
                write_error(f, ", ", *error)
            }
            Fault::CannotListenAt(at, error) => {
                write!(f, "cannot listen at {at}")?;
                write_error(f, ": ", *error)
            }
            Fault::CannotControl(error) => {
                write!(f, "cannot make the control socket")?;
                write_error(f, ": ", *error)
            }
            Fault::NoMemory => write!(f, "no memory"),
            Fault::NotFlushed(unit) => write!(f, "unit {unit} was not flushed"),
        }
    }
}

impl From<NoMemory> for Fault {
    fn from(_: NoMemory) -> Fault {
        Fault::NoMemory
    }
}

impl From<AllocError> for Fault {
    fn from(_: AllocError) -> Fault {
        Fault::NoMemory
    }
}

impl<T: Drop> From<AllocFailed<T>> for Fault {
    fn from(_: AllocFailed<T>) -> Fault {
        Fault::NoMemory
    }
}

impl<F: Drop> From<SpawnError<F>> for Fault {
    fn from(_: SpawnError<F>) -> Fault {
        Fault::NoMemory
    }
}

impl From<WordsFault> for Fault {
    fn from(fault: WordsFault) -> Fault {
        match fault {
            WordsFault::Wrong => Fault::WrongWords,
            WordsFault::NoMemory => Fault::NoMemory,
        }
    }
}
