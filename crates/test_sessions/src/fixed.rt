//! The target that the tables' sessions are served by.
use crate::ends::fail;
use crate::row::{Row, named_texts, read, read_hexadecimal};
use login::SessionType;
use scsi_types::{Asked, Reply, Sense};
use session::{BeginAnswer, ResetAnswer, Target, TargetAnswer};
use std::alloc::{AllocError, Global};
use std::process::Abort;
use test_connections::bytes_of;

/// What a target answers to each command.
#[derive(Clone, Copy)]
enum Answer<'a> {
    /// GOOD with these bytes, spelled as in a row.
    Good(&'a str),
    /// GOOD with these bytes, of each command in its turn with `|` between, and BUSY behind the last.
    InTurn(&'a str),
    /// CHECK CONDITION with this sense key, code and qualifier, for a unit that is not there.
    Check(u8, u8, u8),
    Busy,
    Gone,
}

fn command_answer<'t>(rt: &impl Abort, text: &'t str) -> Answer<'t> {
    let (word, rest) = text.split_once(' ').unwrap_or((text, ""));
    match word {
        "good" => Answer::Good(rest),
        "in-turn" => Answer::InTurn(rest),
        "check" => {
            let [_, key, code, qualifier] = read_hexadecimal(rt, rest).to_be_bytes();
            Answer::Check(key, code, qualifier)
        }
        "busy" => Answer::Busy,
        "gone" => Answer::Gone,
        _ => fail(rt, "no answer", &text),
    }
}

/// What a target answers to a command, to a reset, where a session is to begin, and whether one lives.
#[derive(Clone, Copy)]
pub struct Answers<'a> {
    command: Answer<'a>,
    reset: ResetAnswer,
    // The TSIH of a session that begins; none where it is refused.
    begin: Option<u16>,
    lives: bool,
}

/// What it answers in the session of a row.
pub fn answers_of<'a>(rt: &impl Abort, row: &'a Row<'_>) -> Answers<'a> {
    Answers {
        command: command_answer(rt, row.said("answer", "good")),
        reset: match row.said("reset", "done") {
            "failed" => ResetAnswer::Failed,
            "gone" => ResetAnswer::Gone,
            _ => ResetAnswer::Done,
        },
        begin: match row.said("begin", "1") {
            "refused" => None,
            tsih => Some(read(rt, tsih)),
        },
        lives: row.has("lives"),
    }
}

/// What a target was asked, each as a line, and what bytes it was given.
#[derive(Drop)]
pub struct Heard {
    pub asked: String,
    pub given: Vec<u8>,
    /// How many of the questions were commands.
    pub commands: usize,
}

/// A target of one unit that answers alike each time, and keeps what it was asked and given.
#[derive(Drop)]
pub struct Fixed<'a> {
    alloc: Global,
    answers: Answers<'a>,
    heard: Heard,
    // How often it heard that the session is over, and whether it was asked anything behind that.
    ends: usize,
    late: bool,
}

impl<'a> Fixed<'a> {
    /// A target that was asked nothing yet.
    pub fn new(alloc: Global, answers: Answers<'a>) -> Self {
        Fixed {
            alloc,
            answers,
            heard: Heard {
                asked: String::new(alloc),
                given: Vec::new(alloc),
                commands: 0,
            },
            ends: 0,
            late: false,
        }
    }

    /// What it was asked and given.
    pub fn into_heard(self) -> Heard {
        self.heard
    }

    /// Whether it heard once that the session is over, and was asked nothing behind that.
    pub fn ended_once(&self) -> bool {
        self.ends == 1 && !self.late
    }

    // Takes down that it is asked something other than the end; whether there is memory for it.
    fn hear(&mut self, line: Result<String, AllocError>) -> bool {
        self.late = self.late || self.ends > 0;
        match line {
            Ok(line) => self.heard.asked.push_str(&line).is_ok(),
            Err(_) => false,
        }
    }

    // The data of the next command that it is asked.
    fn data(&self) -> Option<Vec<u8>> {
        let data = match self.answers.command {
            Answer::Good(data) => data,
            Answer::InTurn(datas) => datas.split('|').nth(self.heard.commands)?,
            Answer::Check(_, _, _) | Answer::Busy | Answer::Gone => return None,
        };
        bytes_of(self.alloc, named_texts(), data).ok()
    }

    // What it answers to a command.
    fn answer(&self) -> TargetAnswer {
        match self.answers.command {
            Answer::Check(key, code, qualifier) => {
                let sense = Sense::new(key, code, qualifier);
                TargetAnswer::Outside(Reply::check(self.alloc, sense))
            }
            Answer::Gone => TargetAnswer::Gone,
            Answer::Good(_) | Answer::InTurn(_) | Answer::Busy => match self.data() {
                Some(bytes) => TargetAnswer::Replied(Reply::good(bytes)),
                None => TargetAnswer::Busy,
            },
        }
    }
}

// A name in a line.
fn shown(name: &[u8]) -> &str {
    str::from_utf8(name).unwrap_or("no text")
}

impl Target for Fixed<'_> {
    ghost leads = { λ old asking new. Unit {0} };

    ghost unit_count = { λ t. 1 };

    fn units(&self) -> u16 {
        1
    }

    fn begin(&mut self, name: &[u8], isid: u64, kind: SessionType) -> BeginAnswer {
        let name = shown(name);
        let kept = self.hear(format!(in self.alloc; "begin {name} {isid:012X} {kind:?}\n"));
        match self.answers.begin {
            // No session has the TSIH 0.
            Some(tsih) if kept && tsih != 0 => BeginAnswer::Begun(tsih),
            _ => BeginAnswer::Refused,
        }
    }

    fn lives(&mut self, tsih: u16, name: &[u8], isid: u64) -> bool {
        let name = shown(name);
        let kept = self.hear(format!(in self.alloc; "lives {tsih} {name} {isid:012X}\n"));
        kept && self.answers.lives
    }

    fn end(&mut self) {
        self.ends = self.ends.saturating_add(1);
    }

    fn reset(&mut self, unit: u8) -> ResetAnswer {
        if self.hear(format!(in self.alloc; "reset {unit}\n")) {
            self.answers.reset
        } else {
            ResetAnswer::Failed
        }
    }

    fn serve(&mut self, unit: Option<u8>, asked: Asked, bytes: &[u8]) -> TargetAnswer {
        let kept = match unit {
            Some(unit) => self.hear(format!(in self.alloc; "{unit} {asked:?}\n")),
            None => self.hear(format!(in self.alloc; "- {asked:?}\n")),
        };
        if kept && self.heard.given.extend_from_slice(bytes).is_ok() {
            let answer = self.answer();
            self.heard.commands = self.heard.commands.saturating_add(1);
            answer
        } else {
            TargetAnswer::Busy
        }
    }
}
