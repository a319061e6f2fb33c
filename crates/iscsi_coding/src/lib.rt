//! Whole iSCSI PDUs from bytes and to bytes (RFC 7143, section 11).
//!
//! [`decode`] gives the PDU at the front of bytes, and [`encode`] appends the bytes of one. Which bytes spell which PDU, and
//! why some spell none, is the grammar of `iscsi_pdu`.
#![tactic(auto)]

mod padding;
mod reading;
mod writing;

pub use reading::decode;
pub use writing::encode;
