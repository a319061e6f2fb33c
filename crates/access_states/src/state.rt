//! Access states.
ghost use Rattle.std.specs.Prelude.{◌≡◌};
ghost use Rattle.access_states.specs.State.{is_optimized, refusal_in, same_state, state_code, state_of_code, status_code};

use scsi_types::{Op, Sense, ServedIn};

/// The asymmetric access state of a target port group (SPC-4, 5.15.2.4).
#[derive(Clone, Copy, Debug, PartialEq, Eq)]
pub enum AccessState {
    /// Active/optimized: the group owns the unit.
    ActiveOptimized,
    /// Active/non-optimized: what comes through the group is forwarded to the owner.
    ActiveNonOptimized,
    /// Standby: the group serves what tells of the unit, and persistent reservations.
    Standby,
    /// Unavailable: the group serves what tells of the unit.
    Unavailable,
}

/// What altered an access state (SPC-4, 5.15.2.2).
#[derive(Clone, Copy)]
pub enum Cause {
    /// A SET TARGET PORT GROUPS command.
    Explicit,
    /// The array itself.
    Implicit,
}

/// The access state of one group, and what altered it last; none as long as nothing has.
#[derive(Clone, Copy)]
pub struct GroupAccess {
    pub state: AccessState,
    pub altered: Option<Cause>,
}

impl AccessState {
    /// The ASYMMETRIC ACCESS STATE field (SPC-4, 6.37).
    pub fn code(self) -> u8
        ensures { result ≡ state_code self }
    {
        match self {
            AccessState::ActiveOptimized => 0,
            AccessState::ActiveNonOptimized => 1,
            AccessState::Standby => 2,
            AccessState::Unavailable => 3,
        }
    }

    /// The state of this code; none where no state that is supported has it.
    pub fn from_code(code: u8) -> Option<AccessState>
        ensures { result ≡ state_of_code code }
    {
        match code {
            0 => Some(AccessState::ActiveOptimized),
            1 => Some(AccessState::ActiveNonOptimized),
            2 => Some(AccessState::Standby),
            3 => Some(AccessState::Unavailable),
            _ => None,
        }
    }

    /// Whether a group in this state owns the unit.
    pub fn is_optimized(self) -> bool
        ensures { result ≡ is_optimized self }
    {
        matches!(self, AccessState::ActiveOptimized)
    }

    /// Whether both are one state.
    pub(crate) fn same(self, other: AccessState) -> bool
        ensures { result ≡ same_state self other }
    {
        self == other
    }
}

impl GroupAccess {
    /// The STATUS CODE field (SPC-4, 6.37).
    pub fn status_code(self) -> u8
        ensures { result ≡ status_code self.altered }
    {
        match self.altered {
            None => 0,
            Some(Cause::Explicit) => 1,
            Some(Cause::Implicit) => 2,
        }
    }
}

/// How a command that comes through a group in this state is refused, if it is (SPC-4, 5.15.2.4): by the kind of command
/// alone, whatever its fields. Takes no memory.
pub fn permits(state: AccessState, op: Op) -> Option<Sense>
    ensures { result ≡ refusal_in state op }
{
    let served_in = op.traits().served_in;
    match state {
        AccessState::ActiveOptimized | AccessState::ActiveNonOptimized => None,
        AccessState::Standby => match served_in {
            ServedIn::Active => Some(Sense::TARGET_PORT_IN_STANDBY_STATE),
            ServedIn::Standby | ServedIn::Unavailable => None,
        },
        AccessState::Unavailable => match served_in {
            ServedIn::Active | ServedIn::Standby => Some(Sense::TARGET_PORT_IN_UNAVAILABLE_STATE),
            ServedIn::Unavailable => None,
        },
    }
}
