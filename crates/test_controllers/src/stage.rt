//! Performs scripts.
use crate::any_array::{Array, End, ended};
use crate::script::{command_of, group_of, list_of};
use scsi_types::Group;
use std::alloc::Global;
use std::test::Fail;
use test_connections::{bytes_of, lines_of, want};

/// An array, and the hosts that use it, by their numbers.
#[derive(Drop)]
struct Stage<'a, S, A> {
    alloc: Global,
    array: &'a A,
    hosts: Vec<S>,
    // The host that is `next`.
    next: usize,
}

/// Performs a script. It fails at the first line that comes to something else than it says.
pub fn is_performed<S: Drop, A: Array<S>>(
    alloc: Global,
    array: &A,
    script: &str,
) -> Result<(), Fail> {
    let mut stage = Stage {
        alloc,
        array,
        hosts: Vec::new(alloc),
        next: 0,
    };
    let lines = lines_of(alloc, script)?;
    for line in &lines {
        if !stage.repeats(line) {
            return Err(Fail::from(*line));
        }
    }
    want(!lines.is_empty(), "a script has lines")
}

// What was done, or was not.
fn done(is_done: bool) -> End {
    ended(if is_done { "done" } else { "failed" })
}

// The number behind a word, in hexadecimal, or 0.
fn number(digits: &str) -> u64 {
    if digits.is_empty() {
        return 0;
    }
    u64::from_str_radix(digits, 16).unwrap_or(u64::MAX)
}

// A word, and what stands behind it.
fn words_of(text: &str) -> (&str, &str) {
    text.split_once(' ').unwrap_or((text, ""))
}

impl<S: Drop, A: Array<S>> Stage<'_, S, A> {
    // Whether a line comes to what it says, as often as it is to be done.
    fn repeats(&mut self, line: &str) -> bool {
        let (times, lines) = line.split_once(" times ").unwrap_or(("1", line));
        let times: u32 = times.parse().unwrap_or(0);
        for _ in 0..times {
            for line in lines.split("; ") {
                if !self.comes_to(line) {
                    return false;
                }
            }
        }
        times > 0
    }

    // What cannot be done comes to nothing.
    fn comes_to(&mut self, line: &str) -> bool {
        let (deed, told) = line.split_once(" = ").unwrap_or((line, ""));
        let (verb, rest) = words_of(deed);
        let (place, rest) = words_of(rest);
        let place = self.place(place);
        if verb == "board" {
            return self.shows(place, told);
        }
        let end = self.end(verb, place, rest);
        let (word, rest) = words_of(told);
        if end.word == "good" && word == "good" {
            return self.answers(place, rest);
        }
        end.word == word && end.number == number(rest)
    }

    // The place that a word says: a host, a unit, or 0.
    fn place(&mut self, word: &str) -> usize {
        match word {
            "" => 0,
            "last" => self.hosts.len().saturating_sub(1),
            "next" => {
                let next = self.next;
                self.next = next.wrapping_add(1);
                next
            }
            _ => word.parse().unwrap_or(usize::MAX),
        }
    }

    // Whether the board of a unit shows this.
    fn shows(&self, unit: usize, told: &str) -> bool {
        let Some(row) = self.array.row(unit) else {
            return false;
        };
        let (one, two) = row.states;
        match format!(in self.alloc; "{} {one} {two} {}", row.owner, row.entries) {
            Ok(shown) => shown.as_str() == told,
            Err(_) => false,
        }
    }

    // Whether a host has these data.
    fn answers(&self, host: usize, data: &str) -> bool {
        let Some(host) = self.hosts.get(host) else {
            return false;
        };
        match bytes_of(self.alloc, &[], data) {
            Ok(wanted) => self.array.data(host) == wanted.as_slice(),
            Err(_) => false,
        }
    }

    // What becomes of what is done at a place.
    fn end(&mut self, verb: &str, place: usize, rest: &str) -> End {
        let next = self.hosts.len();
        match verb {
            "attach" => self.attach(place, next, rest),
            "again" => self.attach(0, place, rest),
            "first" => self.array.serve_first(),
            "close" => {
                self.array.close();
                ended("done")
            }
            "move" => self.array.move_by(place, list_of(rest)),
            "down" if place == 1 => self.array.take_down(Group::One),
            "down" => self.array.take_down(Group::Two),
            _ => self.end_of_host(verb, place, rest),
        }
    }

    // The next host attaches, with this ISID, by the group of this number.
    fn attach(&mut self, unit: usize, isid: usize, number: &str) -> End {
        let Some(group) = group_of(number) else {
            return ended("nothing");
        };
        let isid = u32::try_from(isid).unwrap_or(u32::MAX);
        match self.array.attach(unit, isid, group) {
            Some(host) => done(self.hosts.push(host).is_ok()),
            None => ended("nothing"),
        }
    }

    // What becomes of what a host does.
    fn end_of_host(&mut self, verb: &str, host: usize, asks: &str) -> End {
        let array = self.array;
        let Some(host) = self.hosts.get_mut(host) else {
            return ended("nothing");
        };
        match verb {
            "collect" => array.collect(host),
            "own" => array.serve_own(host),
            "kept" => done(array.is_kept(host)),
            "reset" => done(array.reset(host)),
            "retire" => done(array.retire(host)),
            _ => end_of_command(array, verb, host, asks),
        }
    }
}

// What becomes of a host's command.
fn end_of_command<S, A: Array<S>>(array: &A, verb: &str, host: &mut S, asks: &str) -> End {
    let Some((command, bytes)) = command_of(asks) else {
        return ended("nothing");
    };
    match verb {
        "send-1" => array.ask(host, Group::One, command, bytes),
        "send-2" => array.ask(host, Group::Two, command, bytes),
        "desk" => array.ask_at_desk(host, command, bytes),
        "hand" => array.hand_in(host, command, bytes),
        _ => ended("nothing"),
    }
}
