//! The rows of the tables, as text:
//!
//! ```text
//! # The R2T tells the StatSN of the next status, and does not use it up.
//! 512 bytes come with the command, 1024 by R2T
//! MaxBurstLength 1024
//! > WRITE 6:0200 20:00000600 40:03 pattern 512
//! > DATA_OUT 6:0400 40:00000200 pattern 512+1024
//! < R2T 40:0000020000000400
//! < GOOD
//! asked 0 Ok(Write { lba: 5, blocks: 3, fua: false })
//! given pattern 1536
//! ```
//!
//! A table is one text, with an empty line between two rows, or a form and a line for each row (`Table` in `tables.rt`). Of its
//! lines, one that begins with `#` is a comment, and one that begins with a blank goes on with the line before. The first
//! line of a row is its name. Each other line is one of these, and one that is none, that its table has no use for (`Words`),
//! or that cannot be read, fails the test with the row's name.
//! Those of `>`, `<`, `asked` and `written` stand as often as there is something to say, the others once at most.
//!
//! - `> PDU`: what comes, and `< PDU`: what goes out, in their order; a row has one of them at least. `test_connections` says
//!   how a PDU is spelled (`pdu_of`), and has the header segments by their names.
//! - How the session begins. `login 1`: by a login, through a portal of this group; else in full feature phase.
//!   `discovery`: it is one of discovery; else a normal one. `ExpCmdSN FFFFFFFF`, `StatSN FFFFFFFF`: its numbers, else 1.
//!   `MaxRecvDataSegmentLength 512` of the initiator, `MaxBurstLength 1024`, `FirstBurstLength 512`, `ImmediateData No`:
//!   what is agreed on, else the values where nothing is negotiated (RFC 7143, section 13). `portals 3`: how many portals
//!   the second controller has, else 1.
//! - What the target answers. To a command: `answer good PARTS`, GOOD with these bytes, which are spelled as a PDU's data
//!   segment (`bytes_of`), else GOOD with none; `answer in-turn PARTS | PARTS`, the same of each command in its turn, and
//!   BUSY behind the last. They are read when a command comes, and it is BUSY where they spell no bytes. `answer check 052400`,
//!   CHECK CONDITION with this sense key, code and qualifier, for a unit that is not there; `answer busy`, `answer gone`. To a
//!   reset: `reset failed`, `reset gone`, else done.
//!   Where a session is to begin: `begin 65535`, begun with this TSIH, `begin refused`, else begun with the TSIH 1.
//!   `lives`: the session that a login names lives, else it does not.
//! - What the target is asked, in this order, and nothing else: `asked begin NAME ISID Normal`, to begin a session of
//!   this kind for the initiator port of this name and ISID; `asked lives 7 NAME ISID`, whether its session with this
//!   TSIH lives; `asked reset 0`, to reset this unit; `asked 0 Ok(TestUnitReady)`, to serve this command on this unit, or
//!   on none (`-`), as `Debug` of `Asked` spells it.
//! - `given PARTS`: what bytes it is given with the commands, else none.
//! - `end LoggedOut`: how the session ends (`End`), else `EndOfInput`. `end Rejected 04 01 0000000A` has the reason of the Reject,
//!   and opcode and Initiator Task Tag of what is rejected; `end LoginRefused 0207` has Status-Class and Status-Detail.
//! - Of a session over the unit of `--once`: `fails 2`: its device fails after so many calls; `lands 2`: from the first call on,
//!   which, as a write, lands so many blocks of its run; `written 10 5A`: afterwards this block is of this byte; all
//!   others are of zeros. `all-blocks`: a row that is not the same over a few blocks as over all. `ends`: what comes also
//!   ends at each place.
//! - Of any other session: `each-place`: what comes is also cut in two at each place, as that of a row of few bytes
//!   always is. `pieces 7`: it also comes in pieces of so many bytes.
use crate::ends::must;
use crate::run::Wanted;
use login::SessionType;
use session::{Lengths, Opening, Start};
use std::alloc::{AllocError, Global};
use std::process::Abort;
use std::str::FromStr;
use std::test::*;
use test_connections::{
    HOST_A, LIBISCSI_AGREED, LIBISCSI_OFFERS, THE_TARGET, Texts, WELCOME, bytes_of, lines_of,
    pdu_of,
};

/// The texts that rows name: those of both sides of a login, what the target says by itself, what it tells of itself, and with which
/// keys open-iscsi begins, which are answered by the same.
pub fn named_texts() -> Texts<'static> {
    &[
        (
            "NAMES",
            r"InitiatorName=iqn.2000-01.test:a\0TargetName=iqn.2000-01.test:array\0",
        ),
        ("HOST_A", HOST_A),
        ("WELCOME", WELCOME),
        ("THE_TARGET", THE_TARGET),
        ("LIBISCSI_OFFERS", LIBISCSI_OFFERS),
        ("LIBISCSI_AGREED", LIBISCSI_AGREED),
        (
            "OPEN_ISCSI_KEYS",
            "HeaderDigest=None\\0DataDigest=None\\0DefaultTime2Wait=2\\0DefaultTime2Retain=0\\0IFMarker=No\\0\
             OFMarker=No\\0ErrorRecoveryLevel=0\\0",
        ),
        (
            "TOLD_OF_FOUR",
            "TargetName=iqn.2000-01.test:array\\0TargetAddress=127.0.0.1:3260,1\\0\
             TargetAddress=127.0.0.1:3264,2\\0TargetAddress=127.0.0.1:3265,2\\0TargetAddress=127.0.0.1:3266,2\\0",
        ),
    ]
}

/// What lines the rows of a table may have: the words that something stands behind, and whole lines.
pub type Words = (&'static [&'static str], &'static [&'static str]);

/// How many bytes have come and are written, how much is asked, and how many blocks are written.
#[derive(Clone, Copy)]
pub struct Mark {
    pub came: usize,
    pub written: usize,
    pub asked: usize,
    pub blocks: usize,
}

/// A session as a row of a table.
#[derive(Drop)]
pub struct Row<'a> {
    pub table: &'a str,
    pub name: &'a str,
    /// What comes, and what goes out.
    pub input: Vec<u8>,
    pub output: Vec<u8>,
    /// What the target is asked, a line each, and given.
    pub asked: String,
    pub given: Vec<u8>,
    /// The blocks that are of a byte afterwards.
    pub written: Vec<(u32, u8)>,
    /// What has come, is written and is asked behind each line, in the order of the lines.
    pub marks: Vec<Mark>,
    // The lines that it has once: a word, and what stands behind it.
    once: Vec<(&'a str, &'a str)>,
}

impl<'a> Row<'a> {
    /// The row of these lines of a table whose rows have these words.
    pub fn read(
        rt: &impl Abort,
        alloc: Global,
        words: Words,
        table: &'a str,
        text: &'a str,
    ) -> Row<'a> {
        let mut row = Row {
            table,
            name: "",
            input: Vec::new(alloc),
            output: Vec::new(alloc),
            asked: String::new(alloc),
            given: Vec::new(alloc),
            written: Vec::new(alloc),
            marks: Vec::new(alloc),
            once: Vec::new(alloc),
        };
        row.add_all(rt, alloc, words, text);
        row
    }

    // Adds these lines, of which the first one is its name.
    fn add_all(&mut self, rt: &impl Abort, alloc: Global, words: Words, text: &'a str) {
        for line in &lines_of(alloc, text).expect(rt, "memory") {
            if self.name.is_empty() {
                self.name = line;
            } else {
                self.add(rt, alloc, words, line);
            }
        }
        self.given = bytes_of(alloc, named_texts(), self.said("given", "")).expect(rt, self.name);
        let has_pdus = !self.input.is_empty() || !self.output.is_empty();
        let is_row = has_pdus && !self.name.starts_with(['>', '<']);
        must(rt, is_row, self.table, &self.name);
    }

    // Adds a line behind its name.
    fn add(&mut self, rt: &impl Abort, alloc: Global, (words, marks): Words, line: &'a str) {
        let (word, rest) = line.split_once(' ').unwrap_or((line, ""));
        let is_known = words.contains(&word) && !rest.is_empty() || marks.contains(&line);
        must(rt, is_known, self.name, &line);
        match word {
            ">" => put_pdu(rt, alloc, &mut self.input, rest),
            "<" => put_pdu(rt, alloc, &mut self.output, rest),
            "asked" => put_line(&mut self.asked, rest).expect(rt, "memory"),
            "written" => self.written.push(written_of(rt, rest)).expect(rt, "memory"),
            _ => self.add_once(rt, word, rest),
        }
        let mark = Mark {
            came: self.input.len(),
            written: self.output.len(),
            asked: self.asked.len(),
            blocks: self.written.len(),
        };
        self.marks.push(mark).expect(rt, "memory");
    }

    // Adds a line whose word a row has once.
    fn add_once(&mut self, rt: &impl Abort, word: &'a str, rest: &'a str) {
        must(rt, self.said(word, "no") == "no", self.name, &word);
        self.once.push((word, rest)).expect(rt, "memory");
    }

    /// What stands behind this word, where a line begins with it; else this.
    pub fn said<'s>(&'s self, word: &str, usual: &'s str) -> &'s str {
        for (first, rest) in &self.once {
            if *first == word {
                return *rest;
            }
        }
        usual
    }

    /// Whether a line is this word alone.
    pub fn has(&self, word: &str) -> bool {
        self.said(word, "no").is_empty()
    }

    /// How the session ends.
    pub fn end(&self) -> &str {
        self.said("end", "EndOfInput")
    }

    /// What so many bytes come to: the answers of whole PDUs, and what these ask and write.
    pub fn at(&self, came: usize) -> Mark {
        let mut at = Mark {
            came: 0,
            written: 0,
            asked: 0,
            blocks: 0,
        };
        for mark in &self.marks {
            if mark.came <= came {
                at = *mark;
            }
        }
        at
    }

    /// All that it wants.
    pub fn whole(&self) -> Wanted<'_> {
        Wanted {
            end: self.end(),
            written: self.output.len(),
            asked: self.asked.len(),
        }
    }

    /// Whether it has no login, or one that is over when so many bytes came.
    pub fn is_open(&self, came: usize) -> bool {
        self.said("login", "") == "" || self.at(came).asked > 0
    }

    /// How its session begins.
    pub fn opening(&self, rt: &impl Abort) -> Opening {
        match self.said("login", "") {
            "" if self.has("discovery") => {
                Opening::FullFeature(SessionType::Discovery, self.start(rt))
            }
            "" => Opening::FullFeature(SessionType::Normal, self.start(rt)),
            group => Opening::Login(read(rt, group)),
        }
    }

    // With what it begins in full feature phase: CmdSN 1, StatSN 1 and the lengths where none are negotiated (RFC 7143, section 13),
    // unless it says otherwise. The lengths are 512 at least.
    fn start(&self, rt: &impl Abort) -> Start {
        let data_segment = read(rt, self.said("MaxRecvDataSegmentLength", "8192"));
        let burst = read(rt, self.said("MaxBurstLength", "262144"));
        assert!(rt;
            data_segment >= 512 && burst >= 512,
            "a length is below 512"
        );
        Start {
            exp_cmd_sn: read_hexadecimal(rt, self.said("ExpCmdSN", "1")),
            stat_sn: read_hexadecimal(rt, self.said("StatSN", "1")),
            lengths: Lengths {
                data_segment,
                burst,
                first_burst: read(rt, self.said("FirstBurstLength", "65536")),
                immediate_data: self.said("ImmediateData", "Yes") == "Yes",
            },
        }
    }
}

// Appends a line.
fn put_line(lines: &mut String, line: &str) -> Result<(), AllocError> {
    lines.push_str(line)?;
    lines.push('\n')
}

// A block, and the byte of which it is.
fn written_of(rt: &impl Abort, words: &str) -> (u32, u8) {
    let (block, byte) = words.split_once(' ').expect(rt, words);
    let byte = u8::from_str_radix(byte, 16).expect(rt, words);
    (read(rt, block), byte)
}

// Appends a PDU.
fn put_pdu(rt: &impl Abort, alloc: Global, bytes: &mut Vec<u8>, line: &str) {
    let pdu = pdu_of(alloc, named_texts(), line).expect(rt, line);
    bytes.extend_from_slice(&pdu).expect(rt, "memory");
}

/// The number of these decimal digits.
pub fn read<T: FromStr>(rt: &impl Abort, text: &str) -> T
where
    T::Err: Drop,
{
    text.parse().ok().expect(rt, text)
}

/// The number of these digits in hexadecimal.
pub fn read_hexadecimal(rt: &impl Abort, text: &str) -> u32 {
    u32::from_str_radix(text, 16).expect(rt, text)
}
