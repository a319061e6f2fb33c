//! PDUs and bytes as lines of text. What a line spells costs a proof nothing, since it is read when the test runs.
use crate::digits::{change, number_of, put_digits};
use crate::named::header_named;
use crate::row_error::RowError;
use std::alloc::{AllocError, Global};

/// Texts that lines name, each by its name in capitals.
pub type Texts<'a> = &'a [(&'a str, &'a str)];

/// The bytes of the PDU that this line spells: the name of a header segment, what differs from it, and the parts of the
/// data segment, all with blanks between. Zeros stand behind up to a multiple of four.
///
/// What differs is a place, counted from 0, a colon, and the bytes that stand from there on, two digits in hexadecimal
/// each: `1:C1 20:00000A00` is the byte C1h at place 1 and four bytes from place 20 on. A part is
///
/// - `"a text\0"`: its bytes, in which `\0` is the zero byte;
/// - a name in capitals: the bytes of this text of the table;
/// - `0012AA`: the bytes of these digits in hexadecimal;
/// - `512*00`, `64*"a=\0"` or `5*TOLD`: so many times these bytes;
/// - `pattern 512` or `pattern 1024+512`: so many of the bytes 0, 1, 2, .. modulo 251, from this place on;
/// - `rejected`, a name and what differs: the header segment of a PDU that is rejected.
pub fn pdu_of(alloc: Global, texts: Texts<'_>, line: &str) -> Result<Vec<u8>, RowError> {
    let mut bytes = read_from(alloc, Next::Header, texts, line)?;
    put_padding(&mut bytes)?;
    Ok(bytes)
}

/// The bytes of these parts.
pub fn bytes_of(alloc: Global, texts: Texts<'_>, line: &str) -> Result<Vec<u8>, RowError> {
    read_from(alloc, Next::Part, texts, line)
}

// The bytes of a line whose first word is this.
fn read_from(alloc: Global, next: Next, texts: Texts<'_>, line: &str) -> Result<Vec<u8>, RowError> {
    let mut reading = Reading {
        bytes: Vec::new(alloc),
        header: None,
        next,
        times: 1,
    };
    reading.line(texts, line)?;
    Ok(reading.bytes)
}

/// What the next word of a line is.
#[derive(Clone, Copy, PartialEq, Eq)]
enum Next {
    /// The name of a header segment.
    Header,
    /// What differs from it, or a part.
    Part,
    /// How many bytes of the pattern, and from where on.
    Pattern,
}

/// A line that is read.
#[derive(Drop)]
struct Reading {
    bytes: Vec<u8>,
    /// Where the header segment stands of which the next difference is.
    header: Option<usize>,
    next: Next,
    /// How often the next text comes.
    times: usize,
}

impl Reading {
    // Reads the line. What stands between two quotation marks is text, and the rest are words.
    fn line(&mut self, texts: Texts<'_>, line: &str) -> Result<(), RowError> {
        let mut is_text = false;
        for piece in line.split('"') {
            if is_text {
                self.text(piece)?;
            } else {
                for word in piece.split_ascii_whitespace() {
                    self.word(texts, word)?;
                }
            }
            is_text = !is_text;
        }
        if is_text && self.next == Next::Part && self.times == 1 {
            Ok(())
        } else {
            Err(RowError::Word)
        }
    }

    // Appends a text.
    fn text(&mut self, text: &str) -> Result<(), RowError> {
        if self.next != Next::Part {
            return Err(RowError::Word);
        }
        for _ in 0..self.times {
            put_text(&mut self.bytes, text)?;
        }
        self.times = 1;
        Ok(())
    }

    fn word(&mut self, texts: Texts<'_>, word: &str) -> Result<(), RowError> {
        if self.times != 1 {
            return Err(RowError::Word);
        }
        match self.next {
            Next::Header => {
                let (plain, differing) = header_named(word).ok_or(RowError::Word)?;
                self.header = Some(self.bytes.len());
                put_digits(&mut self.bytes, plain)?;
                self.next = Next::Part;
                self.differ(differing)
            }
            Next::Part => self.part(texts, word),
            Next::Pattern => {
                let (place, len) = word.split_once('+').unwrap_or(("0", word));
                put_pattern(&mut self.bytes, number_of(place)?, number_of(len)?)?;
                self.next = Next::Part;
                Ok(())
            }
        }
    }

    // Takes a difference, or a part that is no text.
    fn part(&mut self, texts: Texts<'_>, word: &str) -> Result<(), RowError> {
        if word == "pattern" {
            self.next = Next::Pattern;
            return Ok(());
        }
        if word == "rejected" {
            self.next = Next::Header;
            return Ok(());
        }
        if word.contains(':') {
            return self.differ(word);
        }
        let word = match word.split_once('*') {
            Some((times, rest)) => {
                self.times = number_of(times)?;
                rest
            }
            None => word,
        };
        if word.is_empty() {
            // A text in quotation marks comes behind.
            return Ok(());
        }
        match text_named(texts, word) {
            Some(text) => self.text(text),
            None => self.digits(word),
        }
    }

    // Appends the bytes of these digits.
    fn digits(&mut self, digits: &str) -> Result<(), RowError> {
        for _ in 0..self.times {
            put_digits(&mut self.bytes, digits)?;
        }
        self.times = 1;
        Ok(())
    }

    // Takes the words of what differs from the header segment.
    fn differ(&mut self, words: &str) -> Result<(), RowError> {
        let start = self.header.ok_or(RowError::Outside)?;
        let end = start.wrapping_add(48);
        let header = self.bytes.as_mut_slice().get_mut(start..end);
        let header = header.ok_or(RowError::Outside)?;
        for word in words.split_ascii_whitespace() {
            change(header, word)?;
        }
        Ok(())
    }
}

/// The text of this name.
pub(crate) fn text_named<'a>(texts: Texts<'a>, word: &str) -> Option<&'a str> {
    for (name, text) in texts {
        if *name == word {
            return Some(*text);
        }
    }
    None
}

// Appends the bytes of a text, in which `\0` is the zero byte.
fn put_text(bytes: &mut Vec<u8>, text: &str) -> Result<(), RowError> {
    let mut is_escaped = false;
    for c in text.as_bytes() {
        match *c {
            b'0' if is_escaped => {
                bytes.extend_from_slice(&[0])?;
                is_escaped = false;
            }
            _ if is_escaped => return Err(RowError::Word),
            b'\\' => is_escaped = true,
            c => bytes.extend_from_slice(&[c])?,
        }
    }
    if is_escaped {
        return Err(RowError::Word);
    }
    Ok(())
}

/// The lines of a row: those that begin with a blank go on with the line before, and those that begin with # are passed
/// over.
pub fn lines_of<'a>(alloc: Global, row: &'a str) -> Result<Vec<&'a str>, AllocError> {
    let mut lines = Vec::new(alloc);
    let mut start: usize = 0;
    let mut end: usize = 0;
    for line in row.split_inclusive('\n') {
        if !line.starts_with(' ') {
            put_line(&mut lines, row.get(start..end))?;
            start = end;
        }
        end = end.wrapping_add(line.len());
    }
    put_line(&mut lines, row.get(start..))?;
    Ok(lines)
}

// Appends a line, if it is one.
fn put_line<'a>(lines: &mut Vec<&'a str>, line: Option<&'a str>) -> Result<(), AllocError> {
    if let Some(line) = line {
        let line = line.trim_end();
        if !line.is_empty() && !line.starts_with('#') {
            lines.extend_from_slice(&[line])?;
        }
    }
    Ok(())
}

// Appends zeros up to a multiple of four.
fn put_padding(bytes: &mut Vec<u8>) -> Result<(), AllocError> {
    for _ in 0..3 {
        if bytes.len() % 4 != 0 {
            bytes.push(0)?;
        }
    }
    Ok(())
}

// Appends so many bytes of the pattern, from this place on.
fn put_pattern(bytes: &mut Vec<u8>, place: usize, len: usize) -> Result<(), AllocError> {
    for i in 0..len {
        bytes.push((place.wrapping_add(i) % 251) as u8)?;
    }
    Ok(())
}
