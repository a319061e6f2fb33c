//! The login of a session (RFC 7143, section 6): what each PDU comes to, its one answer, and what full feature phase begins with.
//!
//! [`LoginPhase`] reads and writes nothing; [`login_turn`] does one turn, with the target and the outbox.
#![tactic(auto)]

mod login_phase;
mod turn;

pub use login_phase::LoginPhase;
pub use turn::{login_fault_turn, login_turn};
