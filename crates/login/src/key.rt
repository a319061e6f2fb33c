//! The keys of a login.
ghost use Rattle.std.specs.Prelude.{◌≡◌, find};
ghost use Rattle.login.specs.Table.{has_name, key_named, limits, row_of};

use crate::value::{Limits, Rule, Value, Word};

/// A key that may be negotiated or declared in a login (RFC 7143, 12.1 and 13). SendTargets, which a login does not have, stands in
/// `targets`.
#[derive(Clone, Copy, PartialEq, Eq)]
pub enum Key {
    AuthMethod,
    HeaderDigest,
    DataDigest,
    InitialR2T,
    ImmediateData,
    MaxBurstLength,
    FirstBurstLength,
    MaxRecvDataSegmentLength,
    MaxConnections,
    MaxOutstandingR2T,
    DefaultTime2Wait,
    DefaultTime2Retain,
    DataPDUInOrder,
    DataSequenceInOrder,
    ErrorRecoveryLevel,
    TaskReporting,
    IFMarker,
    OFMarker,
    IFMarkInt,
    OFMarkInt,
    InitiatorName,
    InitiatorAlias,
    TargetName,
    SessionType,
    TargetPortalGroupTag,
}

/// The most bytes of a data segment that the target takes, as it declares (RFC 7143, 13.12).
pub const DATA_SEGMENT_LENGTH: u32 = 65536;

/// The greatest length that a key may name.
const LONGEST: u32 = 16777215;

const YES: Value = Value::Flag(true);

const NO: Value = Value::Flag(false);

const UNUSED: Value = Value::Word(Word::Unused);

/// Every key. A new one also has its row in `row`, and both in `specs/Table`.
const KEYS: [Key; 25] = [
    Key::AuthMethod,
    Key::HeaderDigest,
    Key::DataDigest,
    Key::InitialR2T,
    Key::ImmediateData,
    Key::MaxBurstLength,
    Key::FirstBurstLength,
    Key::MaxRecvDataSegmentLength,
    Key::MaxConnections,
    Key::MaxOutstandingR2T,
    Key::DefaultTime2Wait,
    Key::DefaultTime2Retain,
    Key::DataPDUInOrder,
    Key::DataSequenceInOrder,
    Key::ErrorRecoveryLevel,
    Key::TaskReporting,
    Key::IFMarker,
    Key::OFMarker,
    Key::IFMarkInt,
    Key::OFMarkInt,
    Key::InitiatorName,
    Key::InitiatorAlias,
    Key::TargetName,
    Key::SessionType,
    Key::TargetPortalGroupTag,
];

/// A row of the table of keys.
#[derive(Clone, Copy)]
pub struct KeyRule {
    /// The key's name.
    pub name: &'static [u8],
    /// How its value is found.
    pub rule: Rule,
    /// Its value where nothing is agreed on.
    pub default: Value,
}

fn entry(name: &'static [u8], rule: Rule, default: Value) -> KeyRule
    ensures name { result.name.now ≡ name.entry.now }
    ensures rule { result.rule ≡ rule }
    ensures default { result.default ≡ default }
{
    KeyRule {
        name,
        rule,
        default,
    }
}

// The row of a number of which the lesser of both offers is agreed on.
fn least(name: &'static [u8], limits: Limits, default: u32) -> KeyRule
    ensures name { result.name.now ≡ name.entry.now }
    ensures rule { result.rule ≡ Rule.Least limits }
    ensures default { result.default ≡ Value.Number default }
{
    entry(name, Rule::Least(limits), Value::Number(default))
}

fn limits(low: u32, high: u32, own: u32) -> Limits
    ensures { result ≡ limits low high own }
{
    Limits { low, high, own }
}

impl Key {
    /// The key's row: its name, its rule and its default.
    pub fn row(self) -> KeyRule
        ensures name { result.name.now ≡ (row_of self).name }
        ensures rule { result.rule ≡ (row_of self).rule }
        ensures default { result.default ≡ (row_of self).default }
    {
        match self {
            Key::AuthMethod => entry(b"AuthMethod", Rule::Listed(Word::Unused), Value::Unset),
            Key::HeaderDigest => entry(b"HeaderDigest", Rule::Listed(Word::Unused), UNUSED),
            Key::DataDigest => entry(b"DataDigest", Rule::Listed(Word::Unused), UNUSED),
            Key::InitialR2T => entry(b"InitialR2T", Rule::Either(true), YES),
            Key::ImmediateData => entry(b"ImmediateData", Rule::Both(true), YES),
            Key::MaxBurstLength => least(b"MaxBurstLength", limits(512, LONGEST, 262144), 262144),
            Key::FirstBurstLength => least(b"FirstBurstLength", limits(512, LONGEST, 65536), 65536),
            Key::MaxRecvDataSegmentLength => entry(
                b"MaxRecvDataSegmentLength",
                Rule::Declared(limits(512, LONGEST, DATA_SEGMENT_LENGTH)),
                Value::Number(8192),
            ),
            Key::MaxConnections => least(b"MaxConnections", limits(1, 65535, 1), 1),
            Key::MaxOutstandingR2T => least(b"MaxOutstandingR2T", limits(1, 65535, 1), 1),
            Key::DefaultTime2Wait => entry(
                b"DefaultTime2Wait",
                Rule::Greatest(limits(0, 3600, 2)),
                Value::Number(2),
            ),
            Key::DefaultTime2Retain => least(b"DefaultTime2Retain", limits(0, 3600, 0), 20),
            Key::DataPDUInOrder => entry(b"DataPDUInOrder", Rule::Either(true), YES),
            Key::DataSequenceInOrder => entry(b"DataSequenceInOrder", Rule::Either(true), YES),
            Key::ErrorRecoveryLevel => least(b"ErrorRecoveryLevel", limits(0, 2, 0), 0),
            Key::TaskReporting => entry(
                b"TaskReporting",
                Rule::Listed(Word::Rfc3720),
                Value::Word(Word::Rfc3720),
            ),
            Key::IFMarker => entry(b"IFMarker", Rule::Both(false), NO),
            Key::OFMarker => entry(b"OFMarker", Rule::Both(false), NO),
            Key::IFMarkInt => entry(b"IFMarkInt", Rule::Refused, Value::Unset),
            Key::OFMarkInt => entry(b"OFMarkInt", Rule::Refused, Value::Unset),
            Key::InitiatorName => entry(b"InitiatorName", Rule::Kept, Value::Unset),
            Key::InitiatorAlias => entry(b"InitiatorAlias", Rule::Kept, Value::Unset),
            Key::TargetName => entry(b"TargetName", Rule::Kept, Value::Unset),
            Key::SessionType => entry(b"SessionType", Rule::Kept, Value::Unset),
            Key::TargetPortalGroupTag => entry(b"TargetPortalGroupTag", Rule::Kept, Value::Unset),
        }
    }

    /// The key of this name, if it is known.
    #[tactic(auto, unfolding(crate::specs::Table::key_named))]
    pub fn named(name: &[u8]) -> Option<Key>
        ensures { result ≡ key_named name.now }
    {
        first_named(&KEYS, name)
    }
}

/// The first of these keys that has the name.
fn first_named(keys: &[Key], name: &[u8]) -> Option<Key>
    ensures { result ≡ find (has_name name.now) keys.now }
{
    for key in keys {
        if key.row().name == name {
            return Some(*key);
        }
    }
    None
}
