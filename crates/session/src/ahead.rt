//! What waits behind the PDU that is served next.

use iscsi_pdu::BHS_LENGTH;
use iscsi_pdu::numbers::{cdb, lun, three};
use scsi_types::{Lun, decode};
use session_rules::Target;

/// The opcode of a SCSI Command PDU (RFC 7143, 11.3).
const SCSI_COMMAND: u8 = 0x01;

// How many bytes a PDU takes, by the segment lengths of its basic header segment (RFC 7143, 11.2.1).
fn length_of(bhs: &[u8; BHS_LENGTH]) -> usize {
    let segment = three(bhs, 5) as usize;
    BHS_LENGTH + 4 * usize::from(bhs[4]) + (segment + 3) / 4 * 4
}

// Tells the target of a PDU that waits, where it has a command.
fn tell<T: Target>(target: &T, bhs: &[u8; BHS_LENGTH]) {
    if bhs[0] & 0x3F != SCSI_COMMAND {
        return;
    }
    target.prefetch(Lun::parse(&lun(bhs)), &decode(&cdb(bhs)));
}

/// Tells the target of the commands that wait in these bytes, where it wants that and more than one PDU does: a command that
/// came alone is served now. What is no PDU ends it: the session finds that when it comes to it.
pub fn look_ahead<T: Target>(target: &T, bytes: &[u8]) {
    if bytes.len() <= BHS_LENGTH || !target.wants_prefetch() {
        return;
    }
    let mut rest = bytes;
    for _ in 0..bytes.len() / BHS_LENGTH {
        let Some(bhs) = rest.first_chunk::<BHS_LENGTH>() else {
            return;
        };
        let length = length_of(bhs);
        if length >= bytes.len() {
            return;
        }
        tell(target, bhs);
        if length >= rest.len() {
            return;
        }
        rest = &rest[length..];
    }
}
