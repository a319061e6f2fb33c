//! The scripts of the tests, a line for what an initiator does or is answered:
//!
//! - `A at 1`: it connects to the portal of controller 1, and is called `A` from then on;
//! - `A comes 2 / HOST_A / 15:02 WELCOME_2`: it connects to the portal of controller 2, logs in by this text, and is answered by that;
//! - `A refused 1 / 7:56 HOST_A / 36:0302`: its login by the portal of controller 1 is refused so, and the target closes the connection;
//! - `A power 9:01`: unit 1 tells it that power came on, and `all power`: unit 0 tells all connections that entered;
//! - `A alone`: A comes to controller 1, and unit 0 tells it that power came on; `A and B`: so does B then, at controller 2;
//! - `20 times LINE`: this line so often;
//! - `A > PDU`: it sends this PDU, and `A < PDU`: this PDU comes. `test_connections` says how a PDU is spelled (`pdu_of`). Behind a
//!   login requests are numbered as they go, and of answers the numbers of the session are not compared;
//! - `A < PDU / PDU`: one of these comes;
//! - `A does PDU`: it sends this PDU, and GOOD comes;
//! - `A reads 20:00000200 32:280000000005000001 / 5:000200 pattern 512`: it sends a SCSI Command that reads and differs so, and
//!   these data come in one Data-In, and then GOOD;
//! - `A >> PDU`: it sends this PDU, and `A << PDU`: this PDU comes, each with the numbers that are spelled;
//! - `A pieces 7`: from now on what it sends goes out in pieces of so many bytes, and not in those of the script;
//! - `A cut 47 PDU`: of this PDU, with the numbers that are spelled, it sends so many bytes, and then no more;
//! - `A told`: a Text Response comes that tells of the target and of both portals;
//! - `A over`: the target has closed the connection;
//! - `AB race PDU / PDU`: of two answers one comes to each of A and B, who came first; `WON` is the name of the one to whom the
//!   first came, in small;
//! - `64 enter 1 PDU`: so many connections to the portal of controller 1 log in by this PDU, each with another ISID, and
//!   `all leave PDU`: each of them sends this, is answered by a Logout Response, and the target closes the connection;
//! - `all > PDU`, `all < PDU`: each of those connections sends it, and each is answered by it;
//! - `gate hold 1`: from now on commands of unit 1 wait before it; `gate held 2`: once two of them wait; `gate open`; `disk`
//!   in place of `gate`: the writes of its device wait; `flush` in place of it: flushes wait that are left to the gate;
//! - `gate flushes done`: from now on flushes are left to the gate, and done; `fail`: they fail; `fail once`: the next one does;
//!   `in place`: none is left to it;
//! - `gate flushed 1`: since the last such line a flush was asked of the gate, the last one of unit 1; `gate unflushed`: none was;
//! - `0 shows 3`: the row of unit 0 tells of three entries, whoever has its lock; `0 reaches 3`: once it does;
//! - `console status / down 1 = unit 0 .. / down`: these lines of the console are answered by those; behind them the desks are closed;
//! - `desks close`: the desks of both controllers are closed;
//! - `128 wait 1`: so many connections to the portal of controller 1 send nothing;
//! - `A hears`: something has come for it, which it leaves there; `A leaves`: its connection is closed, and it is called so no more;
//! - `end 9`: an administrator ends the session with this TSIH;
//! - `clock 11`: so many seconds pass.
use crate::doors::Flushes;
use crate::forms::{expanded, split};
use crate::prompter::Prompter;
use crate::scene::{Place, Scene};
use std::alloc::{AllocError, Global};
use std::test::Fail;
use test_connections::{Host, RowError, lines_of, want, want_at};

/// The hosts of a script, and the array that they reach.
#[derive(Drop)]
pub struct Stage<'s, 'a, S> {
    // The line of the script that is performed.
    line: &'a str,
    alloc: Global,
    scene: &'s mut S,
    // What a host sends goes out in such pieces.
    piece: usize,
    prompter: Prompter,
    // The first letter of each name.
    names: Vec<u8>,
    // In the order of their names.
    hosts: Vec<Host>,
    crowd: Vec<Host>,
}

/// So many seconds a row is waited for.
const PATIENCE: u32 = 20;

impl<'s, 'a, S: Scene> Stage<'s, 'a, S> {
    /// A stage before the portals of an array. What its hosts send goes out in pieces of so many bytes.
    pub fn new(
        alloc: Global,
        scene: &'s mut S,
        piece: usize,
    ) -> Result<Stage<'s, 'a, S>, AllocError> {
        let prompter = Prompter::new(alloc, scene.ports())?;
        Ok(Stage {
            line: "",
            alloc,
            scene,
            piece,
            prompter,
            names: Vec::new(alloc),
            hosts: Vec::new(alloc),
            crowd: Vec::new(alloc),
        })
    }

    /// Does what the lines of a script say.
    pub fn perform(&mut self, text: &'a str) -> Result<(), Fail> {
        let lines = lines_of(self.alloc, text)?;
        want(!lines.is_empty(), "a script has lines")?;
        for line in &lines {
            self.line = *line;
            let (times, line) = line.split_once(" times ").unwrap_or(("1", line));
            for _ in 0..times.parse::<u32>()? {
                self.obey_each(line)?;
            }
        }
        Ok(())
    }

    /// The line that is performed, or was last.
    pub fn line(&self) -> &'a str {
        self.line
    }

    // Obeys the lines for which one line stands.
    fn obey_each(&mut self, line: &str) -> Result<(), Fail> {
        let text = expanded(self.alloc, line)?;
        let lines = lines_of(self.alloc, text.as_str())?;
        for line in &lines {
            self.obey(line)?;
            self.prompter.end()?;
        }
        Ok(())
    }

    /// The hosts, as they are behind it.
    pub fn into_hosts(self) -> Vec<Host> {
        self.hosts
    }

    fn obey(&mut self, line: &str) -> Result<(), Fail> {
        let (who, words) = split(line);
        let (verb, rest) = split(words);
        match who {
            "console" => self.compare_answers(words),
            "gate" | "disk" | "flush" | "desks" => self.obey_behind(who, verb, rest),
            "all" => self.obey_all_hosts(verb, rest),
            "end" => self.end_session(words),
            "clock" => self.pass(words),
            _ => self.obey_other(who, verb, rest),
        }
    }

    // A line for what is behind the portals.
    fn obey_behind(&mut self, who: &str, verb: &str, rest: &str) -> Result<(), Fail> {
        let place = place_of(who);
        match verb {
            "hold" => {
                let unit = self.prompter.number(rest) as usize;
                self.scene.hold(place, Some(unit));
            }
            "held" => self.scene.await_held(place, self.prompter.number(rest)),
            "open" => self.scene.hold(place, None),
            "flushes" => self.come_to(rest),
            "flushed" => {
                let unit = self.prompter.number(rest) as usize;
                return self.compare_flush(Some(unit));
            }
            "unflushed" => return self.compare_flush(None),
            "close" => self.scene.close(),
            _ => self.prompter.fail(RowError::Word),
        }
        Ok(())
    }

    // A line for all connections that entered.
    fn obey_all_hosts(&mut self, verb: &str, rest: &str) -> Result<(), Fail> {
        for host in &mut self.crowd {
            self.prompter.obey(host, verb, rest)?;
        }
        Ok(())
    }

    // A line for hosts that come or leave, for two, or for the row of a unit.
    fn obey_other(&mut self, who: &str, verb: &str, rest: &str) -> Result<(), Fail> {
        match verb {
            "at" => self.connect(who, rest),
            "race" => self.race(rest),
            "enter" | "wait" => self.enter(who, rest),
            "leaves" => self.drop_host(who),
            "shows" => self.compare_row(who, rest),
            "reaches" => self.await_row(who, rest),
            _ => self.obey_host(who, verb, rest),
        }
    }

    // A line for one host.
    fn obey_host(&mut self, name: &str, verb: &str, rest: &str) -> Result<(), Fail> {
        let place = self.place(name);
        match self.hosts.get_mut(place) {
            Some(host) => self.prompter.obey(host, verb, rest),
            None => Err("a host".into()),
        }
    }

    // The place of the host of this name, or behind all where there is none.
    fn place(&self, name: &str) -> usize {
        let letter = letter_of(name);
        let place = self.names.iter().position(|other| *other == letter);
        place.unwrap_or(usize::MAX)
    }

    // An administrator ends a session.
    fn end_session(&self, tsih: &str) -> Result<(), Fail> {
        self.scene.end(tsih.parse::<u16>()?);
        Ok(())
    }

    fn pass(&mut self, seconds: &str) -> Result<(), Fail> {
        self.scene.pass(u64::from(self.prompter.number(seconds)));
        Ok(())
    }

    // What becomes of flushes from now on.
    fn come_to(&mut self, word: &str) {
        match word {
            "done" => self.scene.come_to(Flushes::Done),
            "fail" => self.scene.come_to(Flushes::Failed),
            "fail once" => self.scene.come_to(Flushes::FailedOnce),
            "in place" => self.scene.come_to(Flushes::InPlace),
            _ => self.prompter.fail(RowError::Word),
        }
    }

    // What the lines of the console are answered.
    fn compare_answers(&mut self, words: &str) -> Result<(), Fail> {
        let (lines, wanted) = words.split_once('=').unwrap_or((words, ""));
        let lines = lines_between(self.alloc, lines)?;
        let wanted = lines_between(self.alloc, wanted)?;
        let answers = self.scene.answers(self.alloc, lines.as_str())?;
        want_at(answers == wanted, "answers", &answers)
    }

    // Of which unit a flush was asked for last.
    fn compare_flush(&self, unit: Option<usize>) -> Result<(), Fail> {
        let asked_for = self.scene.asked_for();
        want_at(asked_for == unit, "a flush", &asked_for)
    }

    // A connection to the portal of a controller.
    fn connected(&mut self, controller: &str) -> Result<Host, Fail> {
        self.scene
            .connect(self.prompter.number(controller) as usize)
    }

    fn connect(&mut self, name: &str, controller: &str) -> Result<(), Fail> {
        let mut host = self.connected(controller)?;
        host.send_in_pieces(self.piece)?;
        self.names.push(letter_of(name))?;
        Ok(self.hosts.push(host)?)
    }

    fn drop_host(&mut self, name: &str) -> Result<(), Fail> {
        let place = self.place(name);
        if place >= self.names.len() || place >= self.hosts.len() {
            return Err("a host".into());
        }
        self.names.remove(place);
        drop(self.hosts.remove(place));
        Ok(())
    }

    fn race(&mut self, lines: &str) -> Result<(), Fail> {
        match self.hosts.as_mut_slice() {
            [a, b, ..] => self.prompter.race(a, b, lines),
            _ => Err("two hosts".into()),
        }
    }

    // So many connections to the portal of a controller log in by a PDU, or send nothing where there is none.
    fn enter(&mut self, count: &str, words: &str) -> Result<(), Fail> {
        let (controller, line) = split(words);
        for number in 0..self.prompter.number(count) {
            let mut host = self.connected(controller)?;
            if !line.is_empty() {
                self.prompter.enter(&mut host, number, line)?;
            }
            self.crowd.push(host)?;
        }
        Ok(())
    }

    fn compare_row(&mut self, unit: &str, entries: &str) -> Result<(), Fail> {
        let shown = self.scene.entries(unit.parse::<u8>()?);
        let wanted = u64::from(self.prompter.number(entries));
        want_at(shown == Some(wanted), "entries", &shown)
    }

    fn await_row(&mut self, unit: &str, entries: &str) -> Result<(), Fail> {
        let unit = unit.parse::<u8>()?;
        let wanted = u64::from(self.prompter.number(entries));
        for _ in 0..PATIENCE {
            if self.scene.entries(unit) == Some(wanted) {
                return Ok(());
            }
            self.scene.pass(1);
        }
        Err("its entries".into())
    }
}

// The first letter of a name.
fn letter_of(name: &str) -> u8 {
    name.as_bytes().first().copied().unwrap_or(0)
}

// The lines between slashes, each with its end.
fn lines_between(alloc: Global, words: &str) -> Result<String, AllocError> {
    let mut lines = String::new(alloc);
    for line in words.split('/') {
        lines.push_str(line.trim())?;
        lines.push('\n')?;
    }
    Ok(lines)
}

// Where the calls hang that this name stands for.
fn place_of(name: &str) -> Place {
    match name {
        "disk" => Place::Disks,
        "flush" => Place::Flushes,
        _ => Place::Commands,
    }
}
