//! The answer to a Text request in memory that was taken before (RFC 7143, 11.10).
ghost use Rattle.std.specs.Prelude.{◌<◌, ◌≤◌, [], true, false, length, vec_capacity};
ghost use Rattle.login.specs.Text.{pairs, spelled};
ghost use Rattle.login.specs.TextEnd.{IsPutWithin, IsTextAnswer};
ghost use Rattle.login.specs.Targets.{answer_of, answers_of, targets_text};

use crate::key::Key;
use crate::status::SessionType;
use crate::text::{MOST_PAIRS, count_of_pairs, first_pair, is_text};

/// What the text of a Text request comes to, where an answer has so much room.
#[derive(Clone, Copy)]
pub enum TextAnswer {
    /// The answer stands in the memory.
    Answered,
    /// The text is no list of pairs, or has more than 64.
    Fault,
    /// The answer is longer than the room.
    TooLong,
}

// What a text is answered by: the target's name, the kind of the session that asks, and the text of the target's name
// and its portals.
#[derive(Clone, Copy)]
struct Telling<'a> {
    target: &'a [u8],
    kind: SessionType,
    told: &'a [u8],
}

/// Answers the text of a Text request in a session of this kind as [`send_targets`](crate::send_targets) does, in
/// memory that has room for the most bytes of an answer. `told` is the target's text, of its name and its portals.
pub fn answer_within(
    out: &mut Vec<u8>,
    most: usize,
    target: &[u8],
    kind: SessionType,
    told: &[u8],
    text: &[u8],
) -> TextAnswer
    requires room { most ≤ vec_capacity out.old }
    ensures answer { IsTextAnswer result most out.new.items
        (answers_of target.now kind told.now (pairs text.now)) text.now }
    ensures kept { vec_capacity out.old ≤ vec_capacity out.new }
{
    out.clear();
    if !is_text(text) || count_of_pairs(text) > MOST_PAIRS {
        return TextAnswer::Fault;
    }
    if answered_within(out, most, &Telling { target, kind, told }, text) {
        TextAnswer::Answered
    } else {
        TextAnswer::TooLong
    }
}

// Appends the answers to the pairs of a text, where they have room.
fn answered_within(out: &mut Vec<u8>, most: usize, by: &Telling<'_>, text: &[u8]) -> bool
    requires room { most ≤ vec_capacity out.old }
    requires short { length out.old.items ≤ most }
    ensures put { IsPutWithin result most out.old.items out.new.items
        (answers_of by.now.target.now by.now.kind by.now.told.now (pairs text.now)) }
    ensures kept { vec_capacity out.old ≤ vec_capacity out.new }
{
    let mut rest = text;
    while let Some(first) = first_pair(rest) {
        if !answer_one(out, most, by, first.key, first.value) {
            return false;
        }
        rest = first.rest;
    }
    true
}

// Appends the answer to a pair, where it has room.
#[tactic(auto, unfolding(crate::specs::Targets::answer_of))]
fn answer_one(out: &mut Vec<u8>, most: usize, by: &Telling<'_>, key: &[u8], value: &[u8]) -> bool
    requires room { most ≤ vec_capacity out.old }
    requires short { length out.old.items ≤ most }
    ensures put { IsPutWithin result most out.old.items out.new.items
        (answer_of by.now.target.now by.now.kind by.now.told.now key.now value.now) }
    ensures kept { vec_capacity out.old ≤ vec_capacity out.new }
{
    if key == b"SendTargets".as_slice() {
        targets_within(out, most, by, value)
    } else if Key::named(key).is_some() {
        pair_within(out, most, key, b"Reject")
    } else {
        pair_within(out, most, key, b"NotUnderstood")
    }
}

// Appends what SendTargets asks for, where it has room.
fn targets_within(out: &mut Vec<u8>, most: usize, by: &Telling<'_>, value: &[u8]) -> bool
    requires room { most ≤ vec_capacity out.old }
    requires short { length out.old.items ≤ most }
    ensures put { IsPutWithin result most out.old.items out.new.items
        (targets_text by.now.target.now by.now.kind value.now by.now.told.now) }
    ensures kept { vec_capacity out.old ≤ vec_capacity out.new }
{
    if value == by.target || value.is_empty() {
        bytes_within(out, most, by.told)
    } else if value != b"All".as_slice() {
        bytes_within(out, most, &[])
    } else if by.kind == SessionType::Discovery {
        bytes_within(out, most, by.told)
    } else {
        pair_within(out, most, b"SendTargets", b"Reject")
    }
}

// Appends a pair, where it has room.
fn pair_within(out: &mut Vec<u8>, most: usize, key: &[u8], value: &[u8]) -> bool
    requires room { most ≤ vec_capacity out.old }
    requires short { length out.old.items ≤ most }
    ensures put { IsPutWithin result most out.old.items out.new.items (spelled key.now value.now) }
    ensures kept { vec_capacity out.old ≤ vec_capacity out.new }
{
    bytes_within(out, most, key)
        && bytes_within(out, most, b"=")
        && bytes_within(out, most, value)
        && bytes_within(out, most, b"\0")
}

// Appends bytes, where they have room.
fn bytes_within(out: &mut Vec<u8>, most: usize, bytes: &[u8]) -> bool
    requires room { most ≤ vec_capacity out.old }
    requires short { length out.old.items ≤ most }
    ensures put { IsPutWithin result most out.old.items out.new.items bytes.now }
    ensures kept { vec_capacity out.old ≤ vec_capacity out.new }
{
    if most - out.len() < bytes.len() {
        return false;
    }
    match out.extend_from_slice(bytes) {
        Ok(()) => true,
        Err(_) => unreachable!(),
    }
}
