//! What the environment asks for, beside the log.

use crate::administration::{self, Asked};
use crate::log_file;
use command_line::Fault;
use std::env::{self, Env, FillError, VarError};
use std::net::Ipv4Addr;
use std::time::Duration;

/// The variable that says how many seconds a call of a unit's file may take.
const DEADLINE: &str = "ARRAYD_DEADLINE";

/// The variable that names an address of controller 2.
const SECOND_HOST: &str = "ARRAYD_HOST2";

/// How the variables of the program begin.
const OURS: &[u8] = b"ARRAYD_";

/// How many bytes a variable may have, its name too, before more room is made.
const ROOM: usize = 4096;

/// The most seconds.
const LONGEST: u64 = 3600;

/// The value of a variable; none where it is not there, or empty.
pub(crate) fn value_of<R: Env + AllocGlobal>(rt: &R, name: &str) -> Result<Option<String>, Fault> {
    match env::var(rt, name) {
        Ok(value) if value.is_empty() => Ok(None),
        Ok(value) => Ok(Some(value)),
        Err(VarError::OutOfMemory) => Err(Fault::NoMemory),
        Err(VarError::NotPresent) => Ok(None),
        Err(_) => Err(Fault::WrongWords),
    }
}

/// What was read of a variable; or why it is refused, and the variable.
pub(crate) fn of_variable<T: Drop>(
    name: &'static str,
    read: Result<T, Fault>,
) -> Result<T, (Fault, &'static str)> {
    match read {
        Ok(value) => Ok(value),
        Err(fault) => Err((fault, name)),
    }
}

// How long a call of a unit's file may take, where the environment says so: from one second to an hour.
fn deadline<R: Env + AllocGlobal>(rt: &R) -> Result<Option<Duration>, Fault> {
    let Some(text) = value_of(rt, DEADLINE)? else {
        return Ok(None);
    };
    if !text.as_bytes().iter().all(|digit| digit.is_ascii_digit()) {
        return Err(Fault::WrongWords);
    }
    match text.parse::<u64>() {
        Ok(seconds) if seconds >= 1 && seconds <= LONGEST => {
            Ok(Some(Duration::from_secs(seconds)))
        }
        _ => Err(Fault::WrongWords),
    }
}

// The address at which controller 2 listens, where the environment names one.
fn second_host<R: Env + AllocGlobal>(rt: &R) -> Result<Option<Ipv4Addr>, Fault> {
    let Some(text) = value_of(rt, SECOND_HOST)? else {
        return Ok(None);
    };
    match text.parse::<Ipv4Addr>() {
        Ok(address) => Ok(Some(address)),
        Err(_) => Err(Fault::WrongWords),
    }
}

// Whether the program knows the variable of this name.
fn is_known(name: &str) -> bool {
    matches!(
        name,
        DEADLINE | SECOND_HOST | log_file::VARIABLE | administration::HTTP | administration::CONTROL
    )
}

// Reads a variable of the environment, its name and its value, into this room, which grows where it has to; its length.
fn read_entry<R: Env>(rt: &R, place: usize, room: &mut Vec<u8>) -> Result<Option<usize>, Fault> {
    for _ in 0..usize::BITS {
        match rt.var_at(place, room.as_mut_slice()) {
            Ok(length) => return Ok(Some(length)),
            Err(FillError::NotPresent) => return Ok(None),
            Err(FillError::TooLong) => {}
        }
        let more = room.len().saturating_mul(2);
        if room.resize(more, 0u8).is_err() {
            return Err(Fault::NoMemory);
        }
    }
    Err(Fault::NoMemory)
}

// The name of a variable, where it begins as those of the program do, and is none of them.
fn unknown_name(entry: &[u8]) -> Option<&str> {
    let end = entry.iter().position(|byte| *byte == b'=')?;
    let name = entry.get(..end)?;
    if !name.starts_with(OURS) {
        return None;
    }
    match str::from_utf8(name) {
        Ok(name) if is_known(name) => None,
        Ok(name) => Some(name),
        Err(_) => Some("a variable whose name is not UTF-8"),
    }
}

/// A variable of the environment that begins as those of the program do, and is none of them. What others hold need be no text.
pub fn unknown<R: Env + AllocGlobal>(rt: &R) -> Result<Option<String>, Fault> {
    let mut room = Vec::new(rt.alloc());
    if room.resize(ROOM, 0u8).is_err() {
        return Err(Fault::NoMemory);
    }
    for place in 0..usize::MAX {
        let Some(length) = read_entry(rt, place, &mut room)? else {
            break;
        };
        let entry = room.as_slice().get(..length).unwrap_or(&[]);
        if let Some(name) = unknown_name(entry) {
            return Ok(Some(String::from_str(rt.alloc(), name)?));
        }
    }
    Ok(None)
}

/// What the environment asks for: how long a call of a unit's file may take, the address of controller 2, and what the array is to
/// be administered by.
#[derive(Drop)]
pub struct Settings {
    pub patience: Option<Duration>,
    pub second_host: Option<Ipv4Addr>,
    pub asked: Asked,
}

/// What the environment asks for; or why it is refused, and the variable.
pub fn read<R: Env + AllocGlobal>(rt: &R) -> Result<Settings, (Fault, &'static str)> {
    Ok(Settings {
        patience: of_variable(DEADLINE, deadline(rt))?,
        second_host: of_variable(SECOND_HOST, second_host(rt))?,
        asked: administration::read(rt)?,
    })
}
