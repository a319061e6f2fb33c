//! What a session finds where the next PDU is to stand.
ghost use Rattle.session.specs.Front.{IsFront};

use iscsi_coding::decode;
use iscsi_pdu::{BHS_LENGTH, Pdu, PduFault};

/// What stands at the front of the bytes that wait.
#[derive(Clone, Copy)]
pub enum Front<'a> {
    /// A PDU, the bytes of its basic header segment, and how many bytes it takes.
    Whole {
        bhs: &'a [u8; BHS_LENGTH],
        pdu: Pdu<'a>,
        taken: usize,
    },
    /// A fault, and the bytes of the header segment.
    Faulty {
        bhs: &'a [u8; BHS_LENGTH],
        fault: PduFault,
    },
    /// Less than a PDU.
    Partial,
}

/// What stands at the front: a fault is told once its whole header segment is there.
pub fn front_of(bytes: &[u8]) -> Front<'_>
    ensures { IsFront bytes.now result }
{
    let Some(bhs) = bytes.first_chunk::<BHS_LENGTH>() else {
        return Front::Partial;
    };
    match decode(bytes) {
        Ok(Some((pdu, taken))) => Front::Whole { bhs, pdu, taken },
        Ok(None) => Front::Partial,
        Err(fault) => Front::Faulty { bhs, fault },
    }
}
