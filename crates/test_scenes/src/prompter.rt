//! What a host does by a line of a script, and what the words of lines stand for.
use crate::forms::split;
use std::alloc::{AllocError, Global};
use std::test::Fail;
use test_connections::{Host, RowError, host_texts, is_text, pdu_of, put_number, want, want_at};

/// What a test tells that fails, before the bytes that came.
const CAME: &str = "came";

/// Has hosts send what lines spell, and compares what comes to them. A word that says nothing is kept until `end`, and stands for
/// nothing until then.
#[derive(Drop)]
pub struct Prompter {
    alloc: Global,
    // What the lines name.
    texts: Vec<(&'static str, &'static str)>,
    // What initiators are told of the target.
    told: String,
    // Why a word says nothing.
    fault: Option<RowError>,
}

// What initiators are told of the target: both portals, each with the tag of its group (RFC 7143, appendix C).
fn told(alloc: Global, ports: [u16; 2]) -> Result<String, AllocError> {
    let [first, second] = ports;
    format!(in alloc;
        "TargetName=iqn.2000-01.test:array\0TargetAddress=127.0.0.1:{first},1\0TargetAddress=127.0.0.1:{second},2\0"
    )
}

impl Prompter {
    /// That of hosts before portals at these ports.
    pub fn new(alloc: Global, ports: [u16; 2]) -> Result<Prompter, AllocError> {
        Ok(Prompter {
            alloc,
            texts: host_texts().to_vec(alloc)?,
            told: told(alloc, ports)?,
            fault: None,
        })
    }

    /// A word says nothing.
    pub fn fail(&mut self, why: RowError) {
        self.fault = Some(why);
    }

    /// Fails where a word said nothing.
    pub fn end(&mut self) -> Result<(), Fail> {
        match self.fault.take() {
            Some(why) => Err(why.into()),
            None => Ok(()),
        }
    }

    /// A decimal number.
    pub fn number(&mut self, word: &str) -> u32 {
        match word.parse::<u32>() {
            Ok(number) => number,
            Err(_) => {
                self.fail(RowError::Digits);
                0
            }
        }
    }

    // The PDU that this line spells.
    fn spelled(&mut self, line: &str) -> Vec<u8> {
        match pdu_of(self.alloc, self.texts.as_slice(), line) {
            Ok(pdu) => pdu,
            Err(why) => {
                self.fail(why);
                Vec::new(self.alloc)
            }
        }
    }

    /// A line for a host.
    pub fn obey(&mut self, host: &mut Host, verb: &str, rest: &str) -> Result<(), Fail> {
        match verb {
            ">" => self.send(host, rest),
            "<" => self.compare(host, rest),
            ">>" => host.send_as_is(self.spelled(rest).as_slice()),
            "<<" => self.compare_exactly(host, rest),
            "pieces" => host.send_in_pieces(self.number(rest) as usize),
            "cut" => self.cut(host, rest),
            "told" => self.compare_text(host),
            "over" => want(host.is_over(), "its end"),
            "leave" => self.leave(host, rest),
            "hears" => host.hear(),
            _ => {
                self.fail(RowError::Word);
                Ok(())
            }
        }
    }

    fn send(&mut self, host: &mut Host, line: &str) -> Result<(), Fail> {
        host.send(self.spelled(line).as_mut_slice())
    }

    // It sends so many bytes of a PDU, and then no more.
    fn cut(&mut self, host: &Host, line: &str) -> Result<(), Fail> {
        let (length, line) = split(line);
        let length = self.number(length) as usize;
        let pdu = self.spelled(line);
        host.send_as_is(pdu.as_slice().get(..length).ok_or("a longer PDU")?)?;
        host.end_output()
    }

    // Whether what came to a host is what this line spells.
    fn is_answer(&mut self, host: &Host, came: &[u8], line: &str) -> bool {
        host.is_answer(came, self.spelled(line).as_mut_slice())
    }

    // What comes is what one of these lines spells.
    fn compare(&mut self, host: &mut Host, lines: &str) -> Result<(), Fail> {
        let came = host.receive(self.alloc)?;
        let mut is_one = false;
        for line in lines.split(" / ") {
            is_one = is_one || self.is_answer(host, came.as_slice(), line);
        }
        want_at(is_one, CAME, &came)
    }

    fn compare_exactly(&mut self, host: &mut Host, line: &str) -> Result<(), Fail> {
        let wanted = self.spelled(line);
        let came = host.receive(self.alloc)?;
        want_at(came == wanted, CAME, &came)
    }

    fn compare_text(&mut self, host: &mut Host) -> Result<(), Fail> {
        let came = host.receive(self.alloc)?;
        let is_told = is_text(came.as_slice(), self.told.as_str().as_bytes());
        want_at(is_told, CAME, &came)
    }

    /// Of two answers one comes to each of these; `WON` is the name of the one to whom the first came, in small.
    pub fn race(&mut self, a: &mut Host, b: &mut Host, lines: &str) -> Result<(), Fail> {
        let (first, second) = lines.split_once(" / ").unwrap_or((lines, ""));
        let came = a.receive(self.alloc)?;
        let has_won = self.is_answer(a, came.as_slice(), first);
        let is_one = has_won || self.is_answer(a, came.as_slice(), second);
        want_at(is_one, CAME, &came)?;
        if has_won {
            self.win("a")?;
            self.compare(b, second)
        } else {
            self.win("b")?;
            self.compare(b, first)
        }
    }

    // Who has won.
    fn win(&mut self, name: &'static str) -> Result<(), Fail> {
        Ok(self.texts.push(("WON", name))?)
    }

    /// A host logs in by this PDU, with an ISID of its own.
    pub fn enter(&mut self, host: &mut Host, number: u32, line: &str) -> Result<(), Fail> {
        let mut pdu = self.spelled(line);
        put_number(pdu.as_mut_slice(), 10, 0x0137_0100 | number);
        host.send(pdu.as_mut_slice())?;
        let came = host.receive(self.alloc)?;
        let is_in = came.get(36..38) == Some([0u8, 0].as_slice());
        want_at(is_in && came.first() == Some(&0x23), CAME, &came)
    }

    // A host that sends this logs out.
    fn leave(&mut self, host: &mut Host, line: &str) -> Result<(), Fail> {
        self.send(host, line)?;
        let came = host.receive(self.alloc)?;
        want_at(came.first() == Some(&0x26), CAME, &came)?;
        want(host.is_over(), "its end")
    }
}
