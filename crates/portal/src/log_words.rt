//! What of commands and replies the log is told.

use access_states::{AccessState, named_by};
use events::{Access, Action, Operation, Reservation, Sense};
use scsi_types::{Asked, Command, PrOutAction, Reply};
use unit_state::reserve::{LIST_LENGTH, pr_out};

/// What a command is, as the log names it.
pub(crate) fn operation_of(asked: &Asked) -> Operation {
    match asked {
        Ok(Command::Read { .. }) => Operation::Read,
        Ok(Command::Write { .. }) => Operation::Write,
        Ok(Command::CompareAndWrite { .. }) => Operation::CompareAndWrite,
        Ok(Command::SynchronizeCache { .. }) => Operation::SynchronizeCache,
        Ok(Command::PersistentReserveOut { .. }) => Operation::ReserveOut,
        Ok(Command::SetTargetPortGroups { .. }) => Operation::SetGroups,
        _ => Operation::Other,
    }
}

// The service action, as the log names it.
fn action_of(action: PrOutAction) -> Action {
    match action {
        PrOutAction::Register => Action::Register,
        PrOutAction::Reserve => Action::Reserve,
        PrOutAction::Release => Action::Release,
        PrOutAction::Clear => Action::Clear,
        PrOutAction::Preempt => Action::Preempt,
        PrOutAction::PreemptAndAbort => Action::PreemptAndAbort,
        PrOutAction::RegisterAndIgnoreExistingKey => Action::RegisterAndIgnore,
    }
}

/// What a PERSISTENT RESERVE OUT asks for, with its parameter list (SPC-4, 6.16.3).
pub(crate) fn reservation_in(asked: &Asked, list: &[u8]) -> Option<Reservation> {
    match asked {
        Ok(
            Command::PersistentReserveOut {
                action,
                scope,
                kind,
                ..
            },
        ) if list.len() >= LIST_LENGTH as usize => {
            let request = pr_out(*action, *scope, *kind, list);
            Some(Reservation {
                action: action_of(*action),
                key: request.key,
                service_action_key: request.sakey,
                kind: *kind,
            })
        }
        _ => None,
    }
}

/// The access states of a unit's groups: which one is active/optimized, and the states of both.
#[derive(Clone, Copy)]
pub(crate) struct States {
    pub(crate) owner: u16,
    pub(crate) first: Access,
    pub(crate) second: Access,
}

// The states of both groups where these were set: just one of them is active/optimized, also where only the other one was named.
fn states_of(first: Access, second: Access) -> Option<States> {
    match (first, second) {
        (Access::Unnamed, Access::Unnamed) => None,
        (Access::Optimized, _) => Some(States {
            owner: 1,
            first,
            second,
        }),
        (_, Access::Optimized) => Some(States {
            owner: 2,
            first,
            second,
        }),
        (Access::Unnamed, _) => Some(States {
            owner: 1,
            first: Access::Optimized,
            second,
        }),
        _ => Some(States {
            owner: 2,
            first,
            second: Access::Optimized,
        }),
    }
}

// The state with which a list names a group, as the log tells it.
fn access_of(named: Option<AccessState>) -> Access {
    match named {
        Some(state) => Access::of(u64::from(state.code())),
        None => Access::Unnamed,
    }
}

/// What a SET TARGET PORT GROUPS makes of both groups by its parameter list (SPC-4, 6.45), where it is GOOD and names any.
pub(crate) fn states_in(asked: &Asked, bytes: &[u8]) -> Option<States> {
    let Ok(Command::SetTargetPortGroups { list_length }) = asked else {
        return None;
    };
    let list = bytes.get(..*list_length as usize)?;
    match named_by(list) {
        Ok(named) => states_of(access_of(named.one), access_of(named.two)),
        Err(_) => None,
    }
}

/// Whether a reply tells of a device that failed: MEDIUM ERROR or HARDWARE ERROR (SPC-4, 4.5.6).
pub(crate) fn is_trouble(reply: &Reply) -> bool {
    match reply.sense() {
        Some(sense) => sense.key == 3 || sense.key == 4,
        None => false,
    }
}

/// Key and codes of a reply's sense, zeros where it has none.
pub(crate) fn sense_of(reply: &Reply) -> Sense {
    match reply.sense() {
        Some(sense) => Sense {
            key: sense.key,
            code: sense.asc,
            qualifier: sense.ascq,
        },
        None => Sense {
            key: 0,
            code: 0,
            qualifier: 0,
        },
    }
}
