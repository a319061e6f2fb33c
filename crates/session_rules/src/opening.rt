//! How a session begins: with a login or behind it.
use crate::start::Start;
use login::SessionType;

/// How a session begins.
#[derive(Clone, Copy)]
pub enum Opening {
    /// With a login, by a portal of the portal group with this tag (RFC 7143, 6.3).
    Login(u16),
    /// In full feature phase, as a session of this kind whose login came to this.
    FullFeature(SessionType, Start),
}
