//! PDUs as bytes (RFC 7143, section 11).

ghost use Rattle.std.specs.Prelude.{◌≡◌, ◌++◌, ◌+◌, ◌<◌, ◌≤◌, ◌^◌, length, vec_capacity, OnOk, OnErr};
ghost use Rattle.iscsi_pdu.specs.declared.TheConstants.{MAX_DATA_SEGMENT_LENGTH};
ghost use Rattle.iscsi_pdu.specs.Spelling.{bhs, pdu_length, spelling};

use crate::padding::padded_length;
use iscsi_pdu::{BHS_LENGTH, Header, MAX_DATA_SEGMENT_LENGTH, Pdu, spell_initiator, spell_target};
use std::alloc::AllocError;

/// The most padding that a data segment has.
const PADDING: [u8; 3] = [0; 3];

fn spell_bhs(header: &Header, len: u32) -> [u8; BHS_LENGTH]
    requires { len < 2 ^ 24 }
    ensures { result ≡ bhs header.now len }
{
    match header {
        Header::Initiator(header) => spell_initiator(header, len),
        Header::Target(header) => spell_target(header, len),
    }
}

/// Appends the PDU's spelling: a target's PDU has no other, and of an initiator's it is the one with zeros in
/// every reserved place. A field of fewer bits than a byte is cut to its bits. Refused, nothing is appended.
pub fn encode(pdu: &Pdu<'_>, out: &mut Vec<u8>) -> Result<(), AllocError>
    requires { length pdu.now.data.now ≤ MAX_DATA_SEGMENT_LENGTH }
    ensures ok { OnOk result (out.new.items ≡ out.old.items ++ spelling pdu.now.header pdu.now.data.now) }
    ensures size { length (spelling pdu.now.header pdu.now.data.now) ≡ pdu_length (length pdu.now.data.now) }
    ensures err { OnErr result (out.new.items ≡ out.old.items) }
    ensures full { OnErr result (vec_capacity out.old < length out.old.items + pdu_length (length pdu.now.data.now)) }
    ensures room { vec_capacity out.old ≤ vec_capacity out.new }
{
    let len = pdu.data.len();
    let padded = padded_length(len);
    let bhs = spell_bhs(&pdu.header, len as u32);
    out.try_reserve(BHS_LENGTH + padded)?;
    out.extend_from_slice(&bhs)?;
    out.extend_from_slice(pdu.data)?;
    out.extend_from_slice(&PADDING[..padded - len])
}
