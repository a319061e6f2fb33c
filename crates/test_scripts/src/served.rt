//! A unit with the sessions of a script.
use crate::ended::Ended;
use crate::rows::{Row, cdb_of};
use crate::unit::AnyUnit;
use aptpl_file::RegFile;
use block_file::{Blocks, Opener};
use scsi_types::{Group, Place, decode};
use std::alloc::Global;
use std::test::Fail;
use unit_state::{SessionId, Unit};

/// A session that was attached: its id, its group, and the serial of its next command.
#[derive(Clone, Copy)]
struct Attached {
    id: SessionId,
    group: Group,
    next: u64,
}

/// A unit, and the sessions that were attached to it.
#[derive(Drop)]
pub struct Served<U: AnyUnit> {
    unit: U,
    sessions: Vec<Attached>,
}

impl<B: Blocks, F: Blocks, O: Opener<B>> Served<Unit<B, F, O>> {
    /// A unit as it opens, with what its registration file holds, to which no session is attached.
    pub fn open(
        alloc: Global,
        place: Place,
        blocks: B,
        file: F,
        opener: O,
    ) -> Result<Served<Unit<B, F, O>>, Fail> {
        if blocks.count() == 0 {
            return Err("a unit of one block at least".into());
        }
        let (file, lasted) = RegFile::open(alloc, file)?;
        let unit = Unit::open(alloc, place, blocks, opener, file, lasted)?;
        Ok(Served {
            unit,
            sessions: Vec::new(alloc),
        })
    }

    /// Hands the devices of the blocks and of the registration file back.
    pub fn close(self) -> (B, F) {
        let Served { unit, .. } = self;
        let (blocks, file, _opener) = unit.close();
        (blocks, file)
    }
}

impl<U: AnyUnit> Served<U> {
    /// Makes the call of a row.
    pub fn call(&mut self, alloc: Global, row: &Row) -> Result<Ended, Fail> {
        let (word, rest) = row.call();
        match word {
            "attach" => self.attach(alloc, row, rest),
            "detach" | "reset" => {
                let id = self.session(row, rest)?.id;
                Ok(self.unit.end(alloc, id, word == "detach"))
            }
            "move" => Ok(self.unit.move_to(alloc, &row.data(alloc)?)),
            "flush" => Ok(self.unit.flush(alloc)),
            "send" | "forward" => self.send(alloc, row, rest, word == "forward"),
            "serial" => self.serial(alloc, row, rest),
            _ => Err(row.text.into()),
        }
    }

    // The session of this place: 0 is the first that was attached.
    fn session(&self, row: &Row, place: &str) -> Result<Attached, Fail> {
        let place = row.number(place)? as usize;
        Ok(*self.sessions.get(place).ok_or(row.text)?)
    }

    // Attaches the port of an ISID, `attach 1 2` by the second group.
    fn attach(&mut self, alloc: Global, row: &Row, words: &str) -> Result<Ended, Fail> {
        let (isid, group) = words.split_once(' ').ok_or(row.text)?;
        let group = group_of(row.number(group)?);
        let end = self.unit.attach(alloc, row.number(isid)?, group)?;
        if end.word == "ATTACHED" {
            let id = end.number;
            let session = Attached { id, group, next: 1 };
            self.sessions.push(session)?;
        }
        Ok(end)
    }

    // The next command of a session, `send 0 25`, by the session's own group, and where the unit belongs to the other one and
    // it is forwarded, once more by that. A reply counts; what has none is no command of the session.
    fn send(
        &mut self,
        alloc: Global,
        row: &Row,
        words: &str,
        forwards: bool,
    ) -> Result<Ended, Fail> {
        let (place, cdb) = words.split_once(' ').ok_or(row.text)?;
        let Attached { id, group, next } = self.session(row, place)?;
        let mut end = self.step(alloc, row, (id, next, group), cdb)?;
        if forwards && end.word == "MOVED" {
            end = self.step(alloc, row, (id, next, group_of(end.number)), cdb)?;
        }
        if end.word != "MOVED" && end.word != "GONE" {
            self.pass(row.number(place)? as usize);
        }
        Ok(end)
    }

    // A command of a session went by.
    fn pass(&mut self, place: usize) {
        if let Some(session) = self.sessions.get_mut(place) {
            session.next = session.next.wrapping_add(1);
        }
    }

    // A command of the session of an id with a serial, `serial 0 2 25`, by the first group.
    fn serial(&mut self, alloc: Global, row: &Row, words: &str) -> Result<Ended, Fail> {
        let (id, rest) = words.split_once(' ').ok_or(row.text)?;
        let (serial, cdb) = rest.split_once(' ').ok_or(row.text)?;
        let (id, serial) = (row.number(id)?, row.number(serial)?);
        self.step(alloc, row, (id, serial, Group::One), cdb)
    }

    // The command of a CDB, of the session of an id with a serial, by a group.
    fn step(
        &mut self,
        alloc: Global,
        row: &Row,
        by: (SessionId, u64, Group),
        cdb: &str,
    ) -> Result<Ended, Fail> {
        let asked = decode(&cdb_of(alloc, cdb, 0)?);
        let bytes = row.data(alloc)?;
        Ok(self.unit.step(alloc, by, asked, &bytes)?)
    }
}

// The group of a number.
fn group_of(number: u64) -> Group {
    if number == 1 { Group::One } else { Group::Two }
}
