//! iSCSI PDUs as values, and what bytes spell them (RFC 7143, section 11).
//!
//! A header is read from its basic header segment, and written as one. The grammar of whole PDUs stands in specs/ `Pdu`,
//! `Fault` and `Spelling`, and its laws are here. `iscsi_coding` makes whole PDUs of bytes, and bytes of them, by this grammar.
#![tactic(auto)]

mod fault;
mod fields;
mod header;
mod initiator_spelling;
mod laws;
pub mod numbers;
mod pieces;
mod target_spelling;

pub use fault::PduFault;
pub use fields::{read_initiator, read_target};
pub use header::{
    CommandNumbers, DataIn, DataOut, Header, InitiatorHeader, LoginRequest, LoginResponse,
    LogoutRequest, LogoutResponse, NopIn, NopOut, Numbers, Pdu, R2t, Reject, ScsiCommand,
    ScsiResponse, TargetHeader, TaskManagementRequest, TaskManagementResponse, TextRequest,
    TextResponse,
};
pub use initiator_spelling::spell_initiator;
pub use laws::{one_front, one_pdu, one_spelling, spelled};
pub use target_spelling::spell_target;

/// The bytes of a basic header segment (RFC 7143, 11.2.1).
pub const BHS_LENGTH: usize = 48;

/// The most bytes of a data segment: the target's MaxRecvDataSegmentLength (RFC 7143, 13.12).
pub const MAX_DATA_SEGMENT_LENGTH: usize = 65536;

/// The most bytes of a PDU.
pub const LONGEST_PDU: usize = BHS_LENGTH + MAX_DATA_SEGMENT_LENGTH;
