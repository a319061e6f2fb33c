//! The lines by which a person, or the program that started the array, asks it something.

use command_line::Fault;
use scsi_types::Group;
use status::Row;
use std::alloc::Global;
use std::fmt::{self, Display, Formatter};
use std::io::{self, BufRead, Write};
use std::str;

// What `status` tells of a unit: its number, and the row of its board.
#[derive(Clone, Copy)]
struct Line {
    unit: u8,
    row: Row,
}

impl Display for Line {
    fn fmt<W: fmt::Write>(&self, f: &mut Formatter<W>) -> fmt::Result {
        let row = self.row;
        write!(f, "unit {} owner {} ", self.unit, row.owner)?;
        write!(f, "states {} {} ", row.states.0, row.states.1)?;
        write!(f, "generation {} keys {} ", row.generation, row.registrants)?;
        write!(f, "type {} entries {}", row.kind, row.entries)
    }
}

/// What the console does with the array.
pub trait Operations {
    /// The row of this unit, where there is one.
    fn status(&mut self, unit: u8) -> Option<Row>;

    /// Takes a controller down, unit by unit: the other one owns them then. The first unit that does not move is told; those
    /// behind it stay.
    fn down(&mut self, controller: Group) -> Result<(), usize>;

    /// From now on no command is taken in.
    fn close(&mut self);

    /// Makes all that each unit holds last, as far as it can. The first unit of which it cannot is told.
    fn flush(&mut self) -> Result<(), u8>;
}

/// Writes a line for each unit.
pub fn say_status<W: Write, A: Operations>(writer: &mut W, array: &mut A) -> io::Result<()> {
    for unit in 0..=u8::MAX {
        let Some(row) = array.status(unit) else {
            break;
        };
        let line = Line { unit, row };
        writeln!(writer, "{line}")?;
    }
    Ok(())
}

/// Writes what became of a controller that was to go down or to come up: this word, or the first unit that did not move.
pub(crate) fn say_moved<W: Write>(
    writer: &mut W,
    word: &str,
    end: Result<(), usize>,
) -> io::Result<()> {
    match end {
        Ok(()) => writeln!(writer, "{word}"),
        Err(unit) => writeln!(writer, "not moved {unit}"),
    }
}

/// The text of a line, which may end by CR LF. None: it is no UTF-8.
pub(crate) fn text_of(line: &[u8]) -> Option<&str> {
    let text = match line {
        [text @ .., b'\r'] => text,
        _ => line,
    };
    str::from_utf8(text).ok()
}

/// Obeys lines until `quit`, the end of the input, or a failure of either; then no command is taken in any more, and the units
/// are flushed. Of the first that was not, a line tells, and the fault. A line that is none of these, or no UTF-8, is answered `?`.
pub fn console<I: BufRead + Drop, W: Write, A: Operations>(
    alloc: Global,
    reader: I,
    writer: &mut W,
    array: &mut A,
) -> Result<(), Fault> {
    for line in reader.split(alloc, b'\n') {
        let Ok(line) = line else {
            break;
        };
        let said = match text_of(&line) {
            Some("quit") => break,
            Some("status") => say_status(writer, array),
            Some("down 1") => say_moved(writer, "down", array.down(Group::One)),
            Some("down 2") => say_moved(writer, "down", array.down(Group::Two)),
            _ => writeln!(writer, "?"),
        };
        if said.is_err() {
            break;
        }
    }
    array.close();
    match array.flush() {
        Ok(()) => Ok(()),
        Err(unit) => {
            let _ = writeln!(writer, "not flushed {unit}");
            Err(Fault::NotFlushed(unit))
        }
    }
}
