//! The answer to a Text request: SendTargets (RFC 7143, 11.10 and appendix C).
ghost use Rattle.std.specs.Prelude.{◌≡◌, ◌++◌, OnOk, IfOk, string_bytes};
ghost use Rattle.login.specs.Text.{pairs, spelled};
ghost use Rattle.login.specs.TextEnd.{IsTextEnd};
ghost use Rattle.login.specs.Targets.{portal_text, address_text, addresses, answer_of, answers_of, target_text, targets_text};

use crate::key::Key;
use crate::status::SessionType;
use crate::text::{MOST_PAIRS, count_of_pairs, first_pair, is_text};
use std::alloc::{AllocError, Global};
use std::net::SocketAddrV4;

/// What the text of a Text request comes to.
#[derive(Drop)]
pub enum TextEnd {
    /// The text of the response.
    Answer(Vec<u8>),
    /// The text is no list of pairs, or has more than 64.
    Fault,
    /// There was no memory for the answer.
    NoMemory,
}

/// Answers the text of a Text request in a session of this kind: SendTargets with the target's name and the addresses
/// of the portals of the first controller in order, then of the second.
pub fn send_targets(
    alloc: Global,
    target: &[u8],
    kind: SessionType,
    first: &[SocketAddrV4],
    second: &[SocketAddrV4],
    text: &[u8],
) -> TextEnd
    ensures { IsTextEnd result target.now kind first.now second.now text.now }
{
    if !is_text(text) || count_of_pairs(text) > MOST_PAIRS {
        return TextEnd::Fault;
    }
    let Ok(told) = target_text(alloc, target, first, second) else {
        return TextEnd::NoMemory;
    };
    match answered(alloc, target, kind, &told, text) {
        Ok(answer) => TextEnd::Answer(answer),
        Err(_) => TextEnd::NoMemory,
    }
}

/// What a target tells of itself: its name, and the addresses of the portals of the first controller in order, then of
/// the second.
pub fn target_text(
    alloc: Global,
    target: &[u8],
    first: &[SocketAddrV4],
    second: &[SocketAddrV4],
) -> Result<Vec<u8>, AllocError>
    ensures { IfOk result (λ told. told.items ≡ target_text target.now first.now second.now) }
{
    let mut told = Vec::new(alloc);
    push_pair(&mut told, b"TargetName", target)?;
    put_addresses(alloc, &mut told, 1, first)?;
    put_addresses(alloc, &mut told, 2, second)?;
    Ok(told)
}

fn put_addresses(
    alloc: Global,
    out: &mut Vec<u8>,
    tag: u16,
    portals: &[SocketAddrV4],
) -> Result<(), AllocError>
    ensures { OnOk result (out.new.items ≡ out.old.items ++ addresses tag portals.now) }
{
    for portal in portals {
        put_address(alloc, out, tag, portal)?;
    }
    Ok(())
}

fn put_address(
    alloc: Global,
    out: &mut Vec<u8>,
    tag: u16,
    portal: &SocketAddrV4,
) -> Result<(), AllocError>
    ensures { OnOk result (out.new.items ≡ out.old.items ++ address_text tag portal.now) }
{
    let text = portal_text(alloc, tag, portal)?;
    push_pair(out, b"TargetAddress", text.as_bytes())
}

#[tactic(auto, unfolding(crate::specs::Targets::portal_text))]
fn portal_text(alloc: Global, tag: u16, portal: &SocketAddrV4) -> Result<String, AllocError>
    ensures { IfOk result (λ text. string_bytes text ≡ portal_text tag portal.now) }
{
    let text = format!(in alloc; "{portal},{tag}")?;
    Ok(text)
}

fn answered(
    alloc: Global,
    target: &[u8],
    kind: SessionType,
    told: &[u8],
    text: &[u8],
) -> Result<Vec<u8>, AllocError>
    ensures { IfOk result (λ answer. answer.items ≡ answers_of target.now kind told.now (pairs text.now)) }
{
    let mut answer = Vec::new(alloc);
    let mut rest = text;
    while let Some(first) = first_pair(rest) {
        put_text_answer(&mut answer, target, kind, told, first.key, first.value)?;
        rest = first.rest;
    }
    Ok(answer)
}

#[tactic(auto, unfolding(crate::specs::Targets::answer_of))]
fn put_text_answer(
    out: &mut Vec<u8>,
    target: &[u8],
    kind: SessionType,
    told: &[u8],
    key: &[u8],
    value: &[u8],
) -> Result<(), AllocError>
    ensures { OnOk result (out.new.items ≡ out.old.items ++ answer_of target.now kind told.now key.now value.now) }
{
    if key == b"SendTargets".as_slice() {
        put_targets(out, target, kind, told, value)
    } else if Key::named(key).is_some() {
        push_pair(out, key, b"Reject")
    } else {
        push_pair(out, key, b"NotUnderstood")
    }
}

fn put_targets(
    out: &mut Vec<u8>,
    target: &[u8],
    kind: SessionType,
    told: &[u8],
    value: &[u8],
) -> Result<(), AllocError>
    ensures { OnOk result (out.new.items ≡ out.old.items ++ targets_text target.now kind value.now told.now) }
{
    if value == target || value.is_empty() {
        out.extend_from_slice(told)
    } else if value != b"All".as_slice() {
        Ok(())
    } else if kind == SessionType::Discovery {
        out.extend_from_slice(told)
    } else {
        push_pair(out, b"SendTargets", b"Reject")
    }
}

// Appends a pair, for which memory is taken.
fn push_pair(out: &mut Vec<u8>, key: &[u8], value: &[u8]) -> Result<(), AllocError>
    ensures { OnOk result (out.new.items ≡ out.old.items ++ spelled key.now value.now) }
{
    out.extend_from_slice(key)?;
    out.extend_from_slice(b"=")?;
    out.extend_from_slice(value)?;
    out.extend_from_slice(b"\0")
}
