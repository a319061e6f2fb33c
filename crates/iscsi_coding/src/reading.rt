//! Bytes as PDUs (RFC 7143, section 11).

ghost use Rattle.std.specs.Prelude.{◌≡◌, ◌≢◌, ℕ, ◌+◌, ◌<◌, ◌≤◌, ◌↔◌, List, length, take};
ghost use Rattle.std.specs.Prelude.{IfOk, IfErr, MatchOption, IfNone, IsTrue, true, false};
ghost use Rattle.iscsi_pdu.specs.declared.TheConstants.{BHS_LENGTH, LONGEST_PDU, MAX_DATA_SEGMENT_LENGTH};
ghost use Rattle.iscsi_pdu.specs.declared.header.Header.{Header};
ghost use Rattle.iscsi_pdu.specs.declared.header.Header.TheVariants.{Target};
ghost use Rattle.iscsi_pdu.specs.declared.fault.PduFault.{PduFault};
ghost use Rattle.iscsi_pdu.specs.declared.fault.PduFault.TheVariants.{BadReserved};
ghost use Rattle.iscsi_pdu.specs.Number.{three_at};
ghost use Rattle.iscsi_pdu.specs.Spelling.{zeros};
ghost use Rattle.iscsi_pdu.specs.Fields.{opcode_of, HasBadFlags};
ghost use Rattle.iscsi_pdu.specs.Pdu.{IsPdu, IsTarget, HasFields};
ghost use Rattle.iscsi_pdu.specs.Fault.{IsInitiatorOpcode, IsTargetOpcode, HasBhs, HasBadReserved, Stands};

use crate::padding::padded_length;
use iscsi_pdu::numbers::{has_bit, three};
use iscsi_pdu::{
    BHS_LENGTH, Header, LONGEST_PDU, MAX_DATA_SEGMENT_LENGTH, Pdu, PduFault, TargetHeader,
    read_initiator, read_target, spell_target,
};

fn is_initiators(opcode: u8) -> bool
    ensures { IsTrue result ↔ IsInitiatorOpcode opcode }
{
    // without SNACK (0x10), which error recovery level 0 does not have
    opcode <= 0x06
}

fn is_targets(opcode: u8) -> bool
    ensures { IsTrue result ↔ IsTargetOpcode opcode }
{
    // without Asynchronous Message (0x32), which this target never sends
    matches!(opcode, 0x20..=0x26 | 0x31 | 0x3F)
}

/// Whether this is a SCSI Command without F, which is always set where InitialR2T is Yes; or with both R and W, a bidirectional command,
/// which is not served.
fn has_bad_flags(bhs: &[u8; BHS_LENGTH]) -> bool
    ensures { IsTrue result ↔ HasBadFlags bhs.now }
{
    bhs[0] % 64 == 0x01
        && (!has_bit(bhs, 1, 0x80) || (has_bit(bhs, 1, 0x40) && has_bit(bhs, 1, 0x20)))
}

fn is_target(header: &Header) -> bool
    ensures { IsTrue result ↔ IsTarget header.now }
{
    matches!(header, Header::Target(_))
}

fn is_zeros(b: &[u8]) -> bool
    ensures { IsTrue result ↔ (b.now ≡ zeros (length b.now)) }
{
    b.iter().all(|x| *x == 0)
}

/// Whether a PDU with this header may have this padding: a target's is zeros.
fn is_padding(header: &Header, pad: &[u8]) -> bool
    ensures right { result ≡ true → IsTarget header.now → pad.now ≡ zeros (length pad.now) }
    ensures wrong { result ≡ false → IsTarget header.now × (pad.now ≢ zeros (length pad.now)) }
{
    !is_target(header) || is_zeros(pad)
}

fn is_same(a: &[u8], b: &[u8]) -> bool
    ensures { IsTrue result ↔ (a.now ≡ b.now) }
{
    a == b
}

/// A target's header. It is spelled again and compared: whatever differs is a reserved field that is not zero. An initiator's reserved
/// fields are ignored (RFC 7143, section 11); a target's PDU comes only to be rejected, or to a test, and has one spelling.
fn target_header(b: &[u8; BHS_LENGTH], len: u32) -> Result<TargetHeader, PduFault>
    requires opcode { IsTargetOpcode (opcode_of b.now) }
    requires same_length { len ≡ three_at b.now 5 }
    requires limit { len ≤ MAX_DATA_SEGMENT_LENGTH }
    ensures found { IfOk result (λ h. HasFields b.now (Target h)) }
    ensures fault { IfErr result (λ f. (f ≡ BadReserved) × HasBadReserved b.now) }
{
    let header = read_target(b);
    if is_same(b, &spell_target(&header, len)) {
        Ok(header)
    } else {
        Err(PduFault::BadReserved)
    }
}

/// The header at the front, which has an opcode that is known and this length of its data segment.
fn header_of(bytes: &[u8], len: u32) -> Result<Header, PduFault>
    requires bhs { HasBhs bytes.now }
    requires same_length { len ≡ three_at bytes.now 5 }
    ensures found { IfOk result (HasFields (take BHS_LENGTH bytes.now)) }
    ensures fault { IfErr result (Stands bytes.now) }
{
    let Some(bhs) = bytes.first_chunk::<BHS_LENGTH>() else {
        unreachable!()
    };
    if is_initiators(bhs[0] % 64) {
        if has_bad_flags(bhs) {
            return Err(PduFault::BadFlags);
        }
        return Ok(Header::Initiator(read_initiator(bhs)));
    }
    match target_header(bhs, len) {
        Ok(header) => Ok(Header::Target(header)),
        Err(fault) => Err(fault),
    }
}

/// The PDU at the front of the bytes and how many bytes it takes, or its first fault. `None` where more
/// bytes are needed. Takes no memory.
pub fn decode(bytes: &[u8]) -> Result<Option<(Pdu<'_>, usize)>, PduFault>
    ensures found { IfOk result (λ o. MatchOption o
        ((n : ℕ) (h : Header) (d : List ℕ) → IsPdu (take n bytes.now) h d → n ≤ length bytes.now → ⊥)
        (λ p. (p.1 ≤ length bytes.now) × IsPdu (take p.1 bytes.now) p.0.header p.0.data.now)) }
    ensures sound { IfOk result (λ o. (f : PduFault) → Stands bytes.now f → ⊥) }
    ensures fault { IfErr result (Stands bytes.now) }
    ensures short { IfOk result (λ o. IfNone o (length bytes.now < LONGEST_PDU)) }
{
    if bytes.is_empty() {
        return Ok(None);
    }
    if !is_initiators(bytes[0] % 64) && !is_targets(bytes[0] % 64) {
        return Err(PduFault::UnknownOpcode);
    }
    if bytes.len() < BHS_LENGTH {
        return Ok(None);
    }
    if bytes[4] != 0 {
        return Err(PduFault::HasAhs);
    }
    let len = three(bytes, 5);
    if len > MAX_DATA_SEGMENT_LENGTH as u32 {
        return Err(PduFault::TooLong);
    }
    decode_known(bytes, len)
}

// The same, where the opcode at the front is known, no other header segment follows, and the data segment has this length.
fn decode_known(bytes: &[u8], len: u32) -> Result<Option<(Pdu<'_>, usize)>, PduFault>
    requires bhs { HasBhs bytes.now }
    requires same_length { len ≡ three_at bytes.now 5 }
    ensures found { IfOk result (λ o. MatchOption o
        ((n : ℕ) (h : Header) (d : List ℕ) → IsPdu (take n bytes.now) h d → n ≤ length bytes.now → ⊥)
        (λ p. (p.1 ≤ length bytes.now) × IsPdu (take p.1 bytes.now) p.0.header p.0.data.now)) }
    ensures sound { IfOk result (λ o. (f : PduFault) → Stands bytes.now f → ⊥) }
    ensures fault { IfErr result (Stands bytes.now) }
    ensures short { IfOk result (λ o. IfNone o (length bytes.now < LONGEST_PDU)) }
{
    let header = header_of(bytes, len)?;
    let len = len as usize;
    let end = BHS_LENGTH + padded_length(len);
    if bytes.len() < end {
        return Ok(None);
    }
    if !is_padding(&header, &bytes[BHS_LENGTH + len..end]) {
        return Err(PduFault::NonZeroPad);
    }
    let data = &bytes[BHS_LENGTH..BHS_LENGTH + len];
    Ok(Some((Pdu { header, data }, end)))
}
