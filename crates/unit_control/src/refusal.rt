//! Refusals by rule.
ghost use Rattle.std.specs.Prelude.{◌≡◌};

use scsi_types::{Reply, Sense, UnitAttention};
use std::alloc::Global;

/// Why a rule refuses a command, with its answer.
#[derive(Clone, Copy)]
pub enum Refusal {
    /// CHECK CONDITION with the sense of an attention that was pending, which is told so.
    Attention(UnitAttention),
    /// RESERVATION CONFLICT; nothing changes.
    Conflict,
    /// CHECK CONDITION with this sense; nothing changes.
    Check(Sense),
}

impl Refusal {
    ghost use Rattle.unit_control.specs.Refusal.{refusal_reply};

    /// Its answer.
    pub fn reply(self, alloc: Global) -> Reply
        ensures { result ≡ refusal_reply self }
    {
        match self {
            Refusal::Attention(attention) => Reply::check(alloc, attention.sense()),
            Refusal::Conflict => Reply::conflict(alloc),
            Refusal::Check(sense) => Reply::check(alloc, sense),
        }
    }
}
