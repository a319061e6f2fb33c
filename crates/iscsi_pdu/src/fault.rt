//! Why bytes spell no PDU.
use thiserror::Error;

/// Why bytes spell no PDU: the first fault in this order, each found as soon as its bytes are there.
#[derive(Clone, Copy, Debug, Error)]
pub enum PduFault {
    #[error("unknown opcode")]
    UnknownOpcode,
    #[error("additional header segment")]
    HasAhs,
    #[error("data segment above 65536 bytes")]
    TooLong,
    /// A SCSI Command without F, or with both R and W.
    #[error("bad flags")]
    BadFlags,
    /// A target's header that differs from each spelling of one.
    #[error("reserved field that is not zero")]
    BadReserved,
    /// A target's PDU padded with other bytes than zeros.
    #[error("padding that is not zero")]
    NonZeroPad,
}
