//! What the lines of the control socket are answered, and what they do.

use crate::administered::Administered;
use crate::collector::ArrayCollector;
use crate::lines::{say_moved, text_of};
use array_view::{ArrayView, Registration, SessionView, UnitView, health, spelled};
use events::Event;
use scsi_types::Group;
use std::alloc::Global;
use std::io::{self, Write};
use std::sync::{Mutex, Wait};
use std::thread;
use std::time::{Clock, Duration};
use window::{Collector, Seen};

/// So many milliseconds lie between two looks whether a session is over that was ended, and so often is looked.
const LOOK: u64 = 5;

const LOOKS: u32 = 1000;

const HELP: &str = "status         a line for each unit
health         a line for each thing that is wrong or degraded, or ok
units          a line for each unit: by what hosts know it, and its disk
sessions       a line for each session that is logged in
keys U         a line for each registration of a unit
version        the version of the program
help           these lines
acknowledge    ends what failed, but for flushes, as seen
end TSIH       ends a session
down 1, down 2 takes a controller down, unit by unit
up 1, up 2     gives a controller the units back that prefer it
quit           flushes the units, and ends the array
";

/// How a line was obeyed.
#[derive(Clone, Copy)]
enum End {
    Done,
    NotDone,
    /// There is no such line.
    Unknown,
}

/// What a line has the array do, where it is no mere question.
#[derive(Clone, Copy)]
enum Deed {
    Acknowledge,
    Down(Group),
    Up(Group),
    End(u16),
    Quit,
}

impl End {
    // The number that stands for it in the last line of an answer.
    fn number(self) -> u8 {
        match self {
            End::Done => 0,
            End::NotDone => 1,
            End::Unknown => 2,
        }
    }

    // Done, where this is so.
    fn of(is_done: bool) -> End {
        if is_done { End::Done } else { End::NotDone }
    }
}

/// What is told of what is seen of the array.
#[derive(Clone, Copy)]
enum Told {
    Health,
    Units,
    Sessions,
}

// The number behind a word: digits alone, since one with a sign before it is none.
fn number_behind(text: &str, word: &str) -> Option<u16> {
    let digits = text.strip_prefix(word)?;
    if !digits.as_bytes().iter().all(|byte| byte.is_ascii_digit()) {
        return None;
    }
    digits.parse::<u16>().ok()
}

// What a line has the array do. None: it asks something, or is none of those that there are.
fn deed_in(text: &str) -> Option<Deed> {
    match text {
        "acknowledge" => Some(Deed::Acknowledge),
        "down 1" => Some(Deed::Down(Group::One)),
        "down 2" => Some(Deed::Down(Group::Two)),
        "up 1" => Some(Deed::Up(Group::One)),
        "up 2" => Some(Deed::Up(Group::Two)),
        "quit" => Some(Deed::Quit),
        _ => Some(Deed::End(number_behind(text, "end ")?)),
    }
}

// Writes a line for a unit. The name of its disk stands last and between quotes, spelled as the log spells names.
fn say_unit<W: Write>(alloc: Global, writer: &mut W, unit: &UnitView) -> io::Result<()> {
    let (place, naa, wwid) = (unit.unit, unit.naa.as_str(), unit.wwid.as_str());
    write!(writer, "unit {place} naa {naa} wwid {wwid} ")?;
    let serial = unit.serial.as_str();
    write!(writer, "serial {serial} ")?;
    let (blocks, disk) = (unit.blocks, spelled(alloc, unit.disk.as_bytes())?);
    writeln!(writer, "blocks {blocks} disk \"{disk}\"")
}

fn say_units<W: Write>(alloc: Global, writer: &mut W, units: &[UnitView]) -> io::Result<()> {
    for unit in units {
        say_unit(alloc, writer, unit)?;
    }
    Ok(())
}

// Writes a line for a session. The name of its initiator, which a host chose, stands last and between quotes.
fn say_session<W: Write>(writer: &mut W, session: &SessionView) -> io::Result<()> {
    let (tsih, controller, kind) = (session.tsih, session.controller, session.kind);
    write!(
        writer,
        "session {tsih} controller {controller} type {kind} "
    )?;
    let (isid, peer, portal) = (
        session.isid.as_str(),
        session.peer.as_str(),
        session.portal.as_str(),
    );
    write!(writer, "isid {isid} peer {peer} portal {portal} ")?;
    let (since, commands) = (session.since, session.commands);
    let last = session.last_command.unwrap_or("none");
    write!(writer, "since {since} commands {commands} last {last} ")?;
    let initiator = session.spelled.as_str();
    writeln!(writer, "initiator \"{initiator}\"")
}

fn say_sessions<W: Write>(writer: &mut W, sessions: &[SessionView]) -> io::Result<()> {
    for session in sessions {
        say_session(writer, session)?;
    }
    Ok(())
}

// Writes a line for a registration. The name of its initiator, which a host chose, stands last and between quotes.
fn say_key<W: Write>(writer: &mut W, registration: &Registration) -> io::Result<()> {
    let (key, controller) = (registration.key.as_str(), registration.controller);
    let (isid, kind) = (registration.isid.as_str(), registration.reservation_type);
    write!(
        writer,
        "key {key} controller {controller} isid {isid} holds {kind} "
    )?;
    let initiator = registration.spelled.as_str();
    writeln!(writer, "initiator \"{initiator}\"")
}

fn say_keys<W: Write>(writer: &mut W, registrations: &[Registration]) -> io::Result<()> {
    for registration in registrations {
        say_key(writer, registration)?;
    }
    Ok(())
}

// Writes what is wrong and what is degraded: not done, where anything is wrong.
fn say_health<W: Write>(alloc: Global, writer: &mut W, view: &ArrayView) -> io::Result<End> {
    let text = health(alloc, view)?;
    writer.write_all(text.as_bytes())?;
    Ok(End::of(view.problems.is_empty()))
}

// Writes this of what is seen of the array.
fn say_told<W: Write>(
    alloc: Global,
    writer: &mut W,
    view: &ArrayView,
    told: Told,
) -> io::Result<End> {
    match told {
        Told::Health => return say_health(alloc, writer, view),
        Told::Units => say_units(alloc, writer, &view.units)?,
        Told::Sessions => say_sessions(writer, &view.sessions)?,
    }
    Ok(End::Done)
}

// Writes that there is no such line.
fn say_unknown<W: Write>(writer: &mut W) -> io::Result<End> {
    writer.write_all(b"?\n")?;
    Ok(End::Unknown)
}

/// What answers at the control socket of an array that is served.
pub(crate) struct Answers<R: Wait + Clock + Drop, A: Administered + Drop> {
    collector: ArrayCollector<R, A>,
    // Who has it moves units: an order that waits for a disk is obeyed before one that came later.
    moves: Mutex<()>,
}

impl<R: Wait + Clock + Drop, A: Administered + Drop> Drop for Answers<R, A> {
    fn drop(self) {
        let Self {
            collector: _,
            moves: _,
        } = self;
    }
}

impl<R: Wait + Clock + Drop, A: Administered + Drop> Answers<R, A> {
    /// By what this collects of the array.
    pub(crate) fn of(collector: ArrayCollector<R, A>) -> Answers<R, A> {
        Answers {
            collector,
            moves: Mutex::new(()),
        }
    }

    // Writes this of what is seen of the array: its sessions, and what is wrong.
    fn say_seen<W: Write>(&self, alloc: Global, writer: &mut W, told: Told) -> io::Result<End> {
        let view = self.collector.collect(alloc, Seen::Health)?;
        say_told(alloc, writer, &view, told)
    }

    // Writes the registrations of a unit.
    fn say_keys_of<W: Write>(&self, alloc: Global, writer: &mut W, unit: u8) -> io::Result<End> {
        let (array, place) = (&self.collector.array, usize::from(unit));
        if place >= array.count() {
            writer.write_all(b"no unit\n")?;
            return Ok(End::NotDone);
        }
        let Some(registrations) = array.registrations(alloc, place) else {
            writer.write_all(b"busy\n")?;
            return Ok(End::NotDone);
        };
        say_keys(writer, &registrations)?;
        Ok(End::Done)
    }

    // Answers a question with a number, or a line that is none of those that there are.
    fn tell_numbered<W: Write>(
        &self,
        alloc: Global,
        writer: &mut W,
        text: &str,
    ) -> io::Result<End> {
        if let Some(number) = number_behind(text, "keys ")
            && let Ok(unit) = u8::try_from(number)
        {
            return self.say_keys_of(alloc, writer, unit);
        }
        say_unknown(writer)
    }

    // Answers a question.
    fn tell<W: Write>(&self, alloc: Global, writer: &mut W, text: &str) -> io::Result<End> {
        let said = match text {
            "status" => self.collector.array.say_status(&self.collector.rt, writer),
            "health" => return self.say_seen(alloc, writer, Told::Health),
            "units" => return self.say_seen(alloc, writer, Told::Units),
            "sessions" => return self.say_seen(alloc, writer, Told::Sessions),
            "version" => writeln!(writer, "arrayd {}", self.collector.version()),
            "help" => writer.write_all(HELP.as_bytes()),
            _ => return self.tell_numbered(alloc, writer, text),
        };
        said?;
        Ok(End::Done)
    }

    // What has failed was seen by an administrator.
    fn acknowledge<W: Write>(&self, writer: &mut W) -> io::Result<End> {
        if let Some(meters) = self.collector.array.log().meters() {
            meters.acknowledge();
        }
        writer.write_all(b"acknowledged\n")?;
        Ok(End::Done)
    }

    // Whether a session is over, for which it waits for a while: from then on no command of it reaches a unit.
    fn is_over(&self, tsih: u16) -> bool {
        let rt = &self.collector.rt;
        for _ in 0..LOOKS {
            if !self.collector.array.lives(rt, tsih) {
                return true;
            }
            thread::sleep(rt, Duration::from_millis(LOOK));
        }
        false
    }

    // Ends a session, and writes what became of it.
    fn end<W: Write>(&self, writer: &mut W, tsih: u16) -> io::Result<End> {
        if !self.collector.array.shut(&self.collector.rt, tsih) {
            writer.write_all(b"no session\n")?;
            return Ok(End::NotDone);
        }
        let is_over = self.is_over(tsih);
        let word = if is_over { "ended" } else { "ending" };
        writeln!(writer, "{word}")?;
        Ok(End::of(is_over))
    }

    // Takes no command in any more, and flushes the units. Of the first that was not a line tells.
    fn quit<W: Write>(&self, writer: &mut W) -> io::Result<End> {
        match self.collector.array.quit(&self.collector.rt) {
            Ok(()) => Ok(End::Done),
            Err(unit) => {
                writeln!(writer, "not flushed {unit}")?;
                Ok(End::NotDone)
            }
        }
    }

    // Takes a controller down, when no other order moves units.
    fn down(&self, controller: Group) -> Result<(), usize> {
        let _order = self.moves.lock(&self.collector.rt);
        self.collector.array.down(&self.collector.rt, controller)
    }

    // Brings one up likewise.
    fn up(&self, controller: Group) -> Result<(), usize> {
        let _order = self.moves.lock(&self.collector.rt);
        self.collector.array.up(&self.collector.rt, controller)
    }

    // Does what a line has the array do.
    fn act<W: Write>(&self, writer: &mut W, deed: Deed) -> io::Result<End> {
        let (word, moved) = match deed {
            Deed::Acknowledge => return self.acknowledge(writer),
            Deed::End(tsih) => return self.end(writer, tsih),
            Deed::Quit => return self.quit(writer),
            Deed::Down(controller) => ("down", self.down(controller)),
            Deed::Up(controller) => ("up", self.up(controller)),
        };
        say_moved(writer, word, moved)?;
        Ok(End::of(moved.is_ok()))
    }

    // Obeys a line. What it has the array do is told to the log first.
    fn obey<W: Write>(&self, alloc: Global, writer: &mut W, text: &str) -> io::Result<End> {
        let Some(deed) = deed_in(text) else {
            return self.tell(alloc, writer, text);
        };
        let ordered = Event::Ordered(text.as_bytes());
        self.collector
            .array
            .log()
            .tell(&self.collector.rt, &ordered);
        self.act(writer, deed)
    }

    /// Answers a line. The last line of the answer is a dot and a number: how the line was obeyed.
    pub(crate) fn answer<W: Write>(
        &self,
        alloc: Global,
        writer: &mut W,
        line: &[u8],
    ) -> io::Result<()> {
        let end = match text_of(line) {
            Some(text) => self.obey(alloc, writer, text)?,
            None => say_unknown(writer)?,
        };
        let number = end.number();
        writeln!(writer, ". {number}")
    }

    /// The answer to a line has left: where it was to end the array, the program ends now.
    pub(crate) fn leave(&self, line: &[u8]) {
        if let Some("quit") = text_of(line)
            && let Some(meters) = self.collector.array.log().meters()
        {
            meters.quit();
        }
    }
}
