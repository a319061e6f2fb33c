//! The words of a request.
use crate::ends::fail;
use reservations::PrOut;
use scsi_types::{Group, PrOutAction};
use std::process::Abort;
use std::test::*;

/// A nexus of a script: the last letter of its name, its ISID without the qualifier, which is 0, and its group.
pub type Who = (u8, u32, Group);

/// The names of the nexuses that may be told something, in the order in which a line has them.
pub const NAMES: &str = "A A_TWO A_ISID A_LONG B B_TWO C D";

/// The nexus of a name: A_TWO is the port of A through the other group, A_ISID and A_LONG have its name and another ISID, as
/// 400001370000h. B_LONG is of the name of B.
pub fn who_named(rt: &impl Abort, name: &str) -> Who {
    match name {
        "A" => (b'a', 0, Group::One),
        "A_TWO" => (b'a', 0, Group::Two),
        "A_ISID" => (b'a', 1, Group::One),
        "A_LONG" => (b'a', 0x4000_0137, Group::One),
        "A_LONG_TWO" => (b'a', 0x4000_0137, Group::Two),
        "B_LONG" => (b'b', 0x4000_0137, Group::One),
        "B_LONG_TWO" => (b'b', 0x4000_0137, Group::Two),
        "B" => (b'b', 0, Group::One),
        "B_TWO" => (b'b', 0, Group::Two),
        "C" => (b'c', 0, Group::One),
        "D" => (b'd', 0, Group::One),
        _ => fail(rt, name, &"no nexus"),
    }
}

fn action_named(rt: &impl Abort, name: &str) -> PrOutAction {
    match name {
        "Register" => PrOutAction::Register,
        "Reserve" => PrOutAction::Reserve,
        "Release" => PrOutAction::Release,
        "Clear" => PrOutAction::Clear,
        "Preempt" => PrOutAction::Preempt,
        "PreemptAndAbort" => PrOutAction::PreemptAndAbort,
        "RegisterAndIgnoreExistingKey" => PrOutAction::RegisterAndIgnoreExistingKey,
        _ => fail(rt, name, &"no action"),
    }
}

/// A word of a part, counted from 0.
pub fn word(part: &str, at: usize) -> &str {
    part.split_ascii_whitespace().nth(at).unwrap_or("")
}

/// The request of these words: a nexus, its action, type, key and service action key, and the flags that it has. The scope
/// is 0.
pub fn request_of(rt: &impl Abort, words: &str) -> PrOut {
    PrOut {
        action: action_named(rt, word(words, 1)),
        scope: 0,
        kind: word(words, 2).parse().expect(rt, words),
        key: u64::from_str_radix(word(words, 3), 16).expect(rt, words),
        sakey: u64::from_str_radix(word(words, 4), 16).expect(rt, words),
        spec_i_pt: words.contains(" SPEC_I_PT"),
        all_tg_pt: words.contains(" ALL_TG_PT"),
        aptpl: words.contains(" APTPL"),
    }
}
