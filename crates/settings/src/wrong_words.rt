//! What of a command line that is wrong is told, and how a name is shown.

use std::alloc::{AllocError, Global};
use std::fmt::{self, Display, Formatter};

// The options whose values are numbers.
const NUMBERS: [&str; 3] = ["--array", "--port", "--portals"];

// Whether this character moves a terminal, or ends a line.
fn is_control(character: char) -> bool {
    matches!(character, '\0'..='\u{1F}' | '\u{7F}'..='\u{9F}')
}

/// A name as it is shown in a line: a character that moves a terminal, or ends the line, by its bytes.
#[derive(Clone, Copy)]
pub struct Shown<'a>(pub &'a str);

impl Display for Shown<'_> {
    fn fmt<W: fmt::Write>(&self, f: &mut Formatter<W>) -> fmt::Result {
        for character in self.0.chars() {
            let code = u32::from(character);
            if !is_control(character) {
                f.write_char(character)?;
            } else if code < 0x80 {
                write!(f, "\\x{code:02x}")?;
            } else {
                write!(f, "\\xc2\\x{code:02x}")?;
            }
        }
        Ok(())
    }
}

// Whether a value can be shown in a line: it is not empty, and no character of it moves a terminal.
fn is_shown(value: &str) -> bool {
    !value.is_empty() && !value.chars().any(is_control)
}

/// An option and its value, where that can be shown.
pub fn with_value(alloc: Global, option: &str, value: &str) -> Result<String, AllocError> {
    if !is_shown(value) {
        return String::from_str(alloc, option);
    }
    format!(in alloc; "{option} {value}")
}

// The value behind an option among the words; nothing where none stands there by itself.
fn value_of<'a>(words: &'a [String], option: &str) -> &'a str {
    let Some(place) = words.iter().position(|word| word.as_str() == option) else {
        return "";
    };
    match words.get(place.saturating_add(1)) {
        Some(value) => value.as_str(),
        None => "",
    }
}

/// An option and the word behind it.
pub fn with_word(alloc: Global, words: &[String], option: &str) -> Result<String, AllocError> {
    with_value(alloc, option, value_of(words, option))
}

// Whether a word is this option, and behind `=` a plus.
fn has_plus(word: &str, option: &str) -> bool {
    match word.split_once('=') {
        Some((name, value)) => name == option && value.starts_with('+'),
        None => false,
    }
}

/// The option whose number begins with a plus, which is no digit, though what reads numbers takes it. Words behind `--` are no options.
pub fn signed(words: &[String]) -> Option<&'static str> {
    let end = words.iter().position(|word| word.as_str() == "--");
    let words = words.get(..end.unwrap_or(words.len())).unwrap_or(words);
    for option in NUMBERS {
        let is_behind = words.iter().any(|word| has_plus(word.as_str(), option));
        if is_behind || value_of(words, option).starts_with('+') {
            return Some(option);
        }
    }
    None
}

// Whether a disk is among the words, of which the first is the program's name.
fn has_disk(words: &[String]) -> bool {
    let mut is_value = true;
    for word in words {
        let word = word.as_str();
        if !is_value && !word.starts_with("--") {
            return true;
        }
        is_value = !is_value && word.starts_with("--") && word != "--once" && !word.contains('=');
    }
    false
}

// What is wrong with the disks.
fn of_disks(words: &[String]) -> &'static str {
    if words.iter().any(|word| word.as_str() == "--once") {
        "a DISK beside --once"
    } else if has_disk(words) {
        "more than 8 times DISK"
    } else {
        "no DISK"
    }
}

// A word that has to be the only one.
fn alone(words: &[String]) -> Option<&'static str> {
    for word in words {
        match word.as_str() {
            "--version" => return Some("--version beside other words"),
            "--help" | "-h" => return Some("--help beside other words"),
            _ => {}
        }
    }
    None
}

/// What of words that are refused as wrong asks for nothing, with its value.
pub fn part(alloc: Global, words: &[String]) -> Result<String, AllocError> {
    if let Some(told) = alone(words) {
        return String::from_str(alloc, told);
    }
    let part = command_line::wrong_part(alloc, words)?;
    match part.as_str() {
        "DISK" => String::from_str(alloc, of_disks(words)),
        "--host" | "--target" => with_word(alloc, words, part.as_str()),
        _ => Ok(part),
    }
}
