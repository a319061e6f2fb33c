//! What initiators are told of a target (RFC 7143, appendix C).
use std::net::SocketAddrV4;

/// The name of a session's target, and where it listens.
#[derive(Clone, Copy)]
pub struct TargetRecord<'a> {
    /// The target's name (RFC 7143, 4.2.7).
    pub target_name: &'a [u8],
    /// The portals of the first controller, in order.
    pub first: &'a [SocketAddrV4],
    /// The portals of the second controller, in order.
    pub second: &'a [SocketAddrV4],
}
