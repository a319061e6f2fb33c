//! How long the answer to a Text Request may be.
use iscsi_pdu::MAX_DATA_SEGMENT_LENGTH;

/// The longest answer to a Text Request, in bytes: what a data segment has at most. The length that the initiator takes is
/// known only behind its login.
pub const LONGEST_TEXT: u32 = MAX_DATA_SEGMENT_LENGTH as u32;
