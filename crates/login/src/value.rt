//! Values of keys, and how two sides agree on one.
ghost use Rattle.std.specs.Prelude.{◌≡◌, ◌≤◌, IsTrue, length};
ghost use Rattle.login.specs.Number.{digits_in, number_in, is_hexadecimal, number_within, within, flag_in, is_listed};

use crate::text::parted;

/// A value of a list that this target takes.
#[derive(Clone, Copy, Debug)]
pub enum Word {
    /// `None`: no authentication, no digest.
    Unused,
    /// `RFC3720`.
    Rfc3720,
}

impl Word {
    ghost use Rattle.login.specs.Value.{word_text};

    /// The word as text.
    pub fn text(self) -> &'static [u8]
        ensures { result.now ≡ word_text self }
    {
        match self {
            Word::Unused => b"None",
            Word::Rfc3720 => b"RFC3720",
        }
    }
}

/// The range of a number and the target's own offer.
#[derive(Clone, Copy)]
pub struct Limits {
    pub low: u32,
    pub high: u32,
    pub own: u32,
}

/// How the value of a key is found (RFC 7143, 6.2.1 and 6.2.2).
#[derive(Clone, Copy)]
pub enum Rule {
    /// The lesser of both numbers.
    Least(Limits),
    /// The greater of both numbers.
    Greatest(Limits),
    /// A number that the initiator declares; it is not answered.
    Declared(Limits),
    /// Yes where one side says Yes; the target says this.
    Either(bool),
    /// Yes where both sides say Yes; the target says this.
    Both(bool),
    /// This value of a list, where it is offered.
    Listed(Word),
    /// A text that is declared; it is not answered.
    Kept,
    /// Every value is rejected.
    Refused,
}

/// The value of a key.
#[derive(Clone, Copy, Debug)]
pub enum Value {
    Number(u32),
    Flag(bool),
    Word(Word),
    /// None that was agreed on: the key has no default, or is a text.
    Unset,
}

impl Rule {
    ghost use Rattle.login.specs.Value.{agreed, is_declared};

    /// What is agreed on where the initiator offers this value; `None` where the value is not of its form or out of its
    /// range.
    pub fn agreed(self, value: &[u8]) -> Option<Value>
        ensures { result ≡ agreed self value.now }
    {
        match self {
            Rule::Least(limits) => match number_within(limits, value) {
                Some(number) => Some(Value::Number(number.min(limits.own))),
                None => None,
            },
            Rule::Greatest(limits) => match number_within(limits, value) {
                Some(number) => Some(Value::Number(number.max(limits.own))),
                None => None,
            },
            Rule::Declared(limits) => match number_within(limits, value) {
                Some(number) => Some(Value::Number(number)),
                None => None,
            },
            Rule::Either(own) => match flag_in(value) {
                Some(flag) => Some(Value::Flag(flag || own)),
                None => None,
            },
            Rule::Both(own) => match flag_in(value) {
                Some(flag) => Some(Value::Flag(flag && own)),
                None => None,
            },
            Rule::Listed(word) => {
                if is_listed(word.text(), value) {
                    Some(Value::Word(word))
                } else {
                    None
                }
            }
            Rule::Kept => Some(Value::Unset),
            Rule::Refused => None,
        }
    }

    /// Whether one side declares the value, so that it is not answered.
    pub fn is_declared(self) -> bool
        ensures { result ≡ is_declared self }
    {
        match self {
            Rule::Declared(_) | Rule::Kept => true,
            Rule::Least(_)
            | Rule::Greatest(_)
            | Rule::Either(_)
            | Rule::Both(_)
            | Rule::Listed(_)
            | Rule::Refused => false,
        }
    }
}

/// The number that a value spells, decimal or hexadecimal, where it is within the limits.
fn number_within(limits: Limits, value: &[u8]) -> Option<u32>
    ensures { result ≡ number_within limits value.now }
{
    match number_at_most(value, limits.high) {
        Some(number) if limits.low <= number => Some(number),
        _ => None,
    }
}

/// The number that a value spells, where it is at most `most`.
fn number_at_most(value: &[u8], most: u32) -> Option<u32>
    ensures { result ≡ within 0 most (number_in value.now) }
{
    if is_hexadecimal(value) {
        digits_at_most(16, &value[2..], most)
    } else {
        digits_at_most(10, value, most)
    }
}

fn is_hexadecimal(value: &[u8]) -> bool
    ensures test { result ≡ is_hexadecimal value.now }
    ensures long { IsTrue result → 2 ≤ length value.now }
{
    value.len() >= 2 && value[0] == b'0' && (value[1] == b'x' || value[1] == b'X')
}

/// The number that digits spell, where it is at most `most`.
fn digits_at_most(base: u32, digits: &[u8], most: u32) -> Option<u32>
    requires low { 2 ≤ base }
    requires high { base ≤ 36 }
    ensures { result ≡ within 0 most (digits_in base digits.now) }
{
    if digits.is_empty() {
        return None;
    }
    let mut number: u64 = 0;
    for byte in digits {
        let Some(digit) = (*byte as char).to_digit(base) else {
            return None;
        };
        number = number * base as u64 + digit as u64;
        if number > most as u64 {
            return None;
        }
    }
    Some(number as u32)
}

/// `Yes` or `No`.
#[tactic(auto, unfolding(crate::specs::Number::flag_in))]
fn flag_in(value: &[u8]) -> Option<bool>
    ensures { result ≡ flag_in value.now }
{
    if value == b"Yes".as_slice() {
        Some(true)
    } else if value == b"No".as_slice() {
        Some(false)
    } else {
        None
    }
}

/// Whether a word is among those of a list.
pub fn is_listed(word: &[u8], list: &[u8]) -> bool
    ensures { result ≡ is_listed word.now list.now }
{
    let mut rest = list;
    while let Some((item, behind)) = parted(rest, b',') {
        if item == word {
            return true;
        }
        rest = behind;
    }
    rest == word
}
