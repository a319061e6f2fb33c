//! The answers to pairs, in memory that has room for them.
ghost use Rattle.std.specs.Prelude.{◌≡◌, ◌+◌, ◌++◌, ◌≤◌, decimal, length, vec_capacity};
ghost use Rattle.login.specs.Text.{spelled, pairs};
ghost use Rattle.login.specs.Value.{value_text};
ghost use Rattle.login.specs.Answer.{answers, answer_text, verdict_of};

use crate::key::Key;
use crate::text::first_pair;
use crate::value::Value;

/// Appends the answers to the pairs of a text, in their order.
pub fn put_answers(out: &mut Vec<u8>, text: &[u8])
    requires room { length out.old.items + length (answers (pairs text.now)) ≤ vec_capacity out.old }
    ensures put { out.new.items ≡ out.old.items ++ answers (pairs text.now) }
    ensures kept { vec_capacity out.old ≤ vec_capacity out.new }
{
    let mut rest = text;
    while let Some(first) = first_pair(rest) {
        put_answer(out, first.key, first.value);
        rest = first.rest;
    }
}

// Appends the answer to a pair, if it has one.
#[tactic(auto, unfolding(crate::specs::Answer::verdict_of))]
fn put_answer(out: &mut Vec<u8>, key: &[u8], value: &[u8])
    requires room { length out.old.items + length (answer_text key.now (verdict_of key.now value.now))
        ≤ vec_capacity out.old }
    ensures put { out.new.items ≡ out.old.items ++ answer_text key.now (verdict_of key.now value.now) }
    ensures kept { vec_capacity out.old ≤ vec_capacity out.new }
{
    let Some(known) = Key::named(key) else {
        return put_pair(out, key, b"NotUnderstood");
    };
    let rule = known.row().rule;
    match rule.agreed(value) {
        None => put_pair(out, key, b"Reject"),
        Some(agreed) => {
            if !rule.is_declared() {
                put_value(out, key, agreed);
            }
        }
    }
}

// Appends a key with a value that was agreed on.
fn put_value(out: &mut Vec<u8>, key: &[u8], value: Value)
    requires room { length out.old.items + length (spelled key.now (value_text value)) ≤ vec_capacity out.old }
    ensures put { out.new.items ≡ out.old.items ++ spelled key.now (value_text value) }
    ensures kept { vec_capacity out.old ≤ vec_capacity out.new }
{
    match value {
        Value::Number(number) => put_number(out, key, number),
        Value::Flag(true) => put_pair(out, key, b"Yes"),
        Value::Flag(false) => put_pair(out, key, b"No"),
        Value::Word(word) => put_pair(out, key, word.text()),
        Value::Unset => put_pair(out, key, b""),
    }
}

/// Appends `key=value` and a zero byte.
pub fn put_pair(out: &mut Vec<u8>, key: &[u8], value: &[u8])
    requires room { length out.old.items + length (spelled key.now value.now) ≤ vec_capacity out.old }
    ensures put { out.new.items ≡ out.old.items ++ spelled key.now value.now }
    ensures kept { vec_capacity out.old ≤ vec_capacity out.new }
{
    put_bytes(out, key);
    put_bytes(out, b"=");
    put_bytes(out, value);
    put_bytes(out, b"\0");
}

/// Appends a key with a number in decimal.
pub fn put_number(out: &mut Vec<u8>, key: &[u8], number: u32)
    requires room { length out.old.items + length (spelled key.now (decimal number)) ≤ vec_capacity out.old }
    ensures put { out.new.items ≡ out.old.items ++ spelled key.now (decimal number) }
    ensures kept { vec_capacity out.old ≤ vec_capacity out.new }
{
    put_bytes(out, key);
    put_bytes(out, b"=");
    put_digits(out, number);
    put_bytes(out, b"\0");
}

// Appends the digits of a number.
#[tactic(auto, using(std::proofs::lemmas::Fmt::decimal_digit, std::proofs::lemmas::Fmt::decimal_step))]
fn put_digits(out: &mut Vec<u8>, number: u32)
    requires room { length out.old.items + length (decimal number) ≤ vec_capacity out.old }
    ensures put { out.new.items ≡ out.old.items ++ decimal number }
    ensures kept { vec_capacity out.old ≤ vec_capacity out.new }
{
    if number < 10 {
        return put_bytes(out, &[b'0' + number as u8]);
    }
    put_digits(out, number / 10);
    put_bytes(out, &[b'0' + (number % 10) as u8]);
}

/// Appends bytes.
pub fn put_bytes(out: &mut Vec<u8>, bytes: &[u8])
    requires room { length out.old.items + length bytes.now ≤ vec_capacity out.old }
    ensures put { out.new.items ≡ out.old.items ++ bytes.now }
    ensures kept { vec_capacity out.old ≤ vec_capacity out.new }
{
    match out.extend_from_slice(bytes) {
        Ok(()) => {}
        Err(_) => unreachable!(),
    }
}
