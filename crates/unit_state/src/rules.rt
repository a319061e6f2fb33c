//! The rules that refuse a command, in their order.
ghost use Rattle.std.specs.Prelude.{◌≡◌, [], ◌∷◌, ℕ, List, Ok, Some, None, if◌then◌else◌};
ghost use Rattle.std.specs.Prelude.{MatchResult};
ghost use Rattle.unit_control.specs.Medium.{is_too_long, work_of};
ghost use Rattle.unit_control.specs.Ops.{access_of, passes_attention};
ghost use Rattle.unit_control.specs.Places.{IsPlaceOf};
ghost use Rattle.unit_control.specs.Groups.{set_by};
ghost use Rattle.unit_control.specs.Refusal.{access_by, attention_by, conflict_by, field_by, first_refusal, groups_list_by};
ghost use Rattle.unit_control.specs.Refusal.{is_let, is_saved, list_rule, opcode_by, past_end_by, range_rule, refusal};
ghost use Rattle.unit_control.specs.Refusal.{request, saved_rule};
ghost use Rattle.unit_control.specs.Refusal.{reserve_list_by};
ghost use Rattle.unit_control.specs.Refusal.{state_for};
ghost use Rattle.scsi_types.specs.Sense.{saving_parameters_not_supported};
ghost use Rattle.unit_control.specs.Route.{IsAdmitted, IsRefused};
ghost use Rattle.unit_control.specs.Sessions.{first_pending, sender_of};

use crate::ops::{access_of, kind_asked, passes_attention};
use crate::reserve::LIST_LENGTH;
use access_states::permits;
use compare_write::MOST_COMPARED;
use scsi_types::{Asked, CdbFault, Command, MOST_BLOCKS, Op, PageControl, Sense, need};
use unit_control::groups::states_asked;
use unit_control::{Control, Refusal, Sender};

/// The command, where no rule refuses it.
pub fn admit(
    control: &Control,
    sender: Sender,
    asked: Asked,
    bytes: &[u8],
) -> Result<Command, Refusal>
    requires { IsPlaceOf control.now.sessions sender.session sender.at }
    ensures { let r = request sender.session asked bytes.now in
        MatchResult result (IsAdmitted control.now r) (IsRefused control.now r) }
{
    if let Some(refusal) = first_refusal(control, sender, &asked, bytes) {
        return Err(refusal);
    }
    match asked {
        Ok(command) => Ok(command),
        Err(_) => unreachable!(),
    }
}

/// The refusal of the first rule that applies. Each looks at a field or two, so that all are asked at once.
fn first_refusal(control: &Control, sender: Sender, asked: &Asked, bytes: &[u8]) -> Option<Refusal>
    requires { IsPlaceOf control.now.sessions sender.session sender.at }
    ensures { result ≡ refusal control.now (request sender.session asked.now bytes.now) }
{
    let kind = kind_asked(asked);
    attention(control, sender, kind)
        .or(opcode(kind))
        .or(access(control, sender, kind))
        .or(conflict(control, sender, kind))
        .or(field(asked, bytes))
        .or(own(control, asked, bytes))
}

/// An attention is pending, and the command is none that it lets pass (SAM-5, 5.14).
fn attention(control: &Control, sender: Sender, kind: Option<Op>) -> Option<Refusal>
    requires { IsPlaceOf control.now.sessions sender.session sender.at }
    ensures { result ≡ attention_by (first_pending control.now.sessions sender.session) (passes_attention kind) }
{
    let attention = control.first(sender)?;
    if passes_attention(kind) {
        return None;
    }
    Some(Refusal::Attention(attention))
}

/// The opcode is that of no command.
fn opcode(kind: Option<Op>) -> Option<Refusal>
    ensures { result ≡ opcode_by kind }
{
    match kind {
        Some(_) => None,
        None => Some(Refusal::Check(Sense::INVALID_OPCODE)),
    }
}

/// The ports of the session's group serve no such command in the state of that group (SPC-4, 5.15.2.4).
fn access(control: &Control, sender: Sender, kind: Option<Op>) -> Option<Refusal>
    requires { IsPlaceOf control.now.sessions sender.session sender.at }
    ensures { result ≡ access_by (state_for control.now sender.session) kind }
{
    let state = control.access().state(control.group(sender));
    match permits(state, kind?) {
        Some(sense) => Some(Refusal::Check(sense)),
        None => None,
    }
}

/// The reservation does not let the nexus do this (SPC-4, 5.13.1).
fn conflict(control: &Control, sender: Sender, kind: Option<Op>) -> Option<Refusal>
    requires { IsPlaceOf control.now.sessions sender.session sender.at }
    ensures { result ≡ conflict_by (is_let control.now (sender_of control.now.sessions sender.session)
        (access_of kind)) }
{
    if control.allows(sender, access_of(kind)) {
        return None;
    }
    Some(Refusal::Conflict)
}

/// A field of the CDB is bad, such as more blocks than the command may have, or less data came than it needs.
fn field(asked: &Asked, bytes: &[u8]) -> Option<Refusal>
    ensures { result ≡ field_by asked.now bytes.now }
{
    match asked {
        Ok(command) if (bytes.len() as u64) < u64::from(need(command)) || is_too_long(command) => {
            Some(Refusal::Check(Sense::INVALID_FIELD_IN_CDB))
        }
        Err(CdbFault::BadField(_)) => Some(Refusal::Check(Sense::INVALID_FIELD_IN_CDB)),
        Ok(_) | Err(CdbFault::UnknownOpcode) => None,
    }
}

/// The command has more blocks than it may have.
fn is_too_long(command: &Command) -> bool
    ensures { (bytes : List ℕ) → result ≡ is_too_long (work_of command.now bytes) }
{
    match command {
        Command::Read { blocks, .. } | Command::Write { blocks, .. } => *blocks > MOST_BLOCKS,
        Command::CompareAndWrite { blocks, .. } => *blocks > MOST_COMPARED,
        Command::TestUnitReady
        | Command::RequestSense { .. }
        | Command::Inquiry { .. }
        | Command::ModeSense { .. }
        | Command::ReadCapacity10
        | Command::ReadCapacity16 { .. }
        | Command::SynchronizeCache { .. }
        | Command::PersistentReserveIn { .. }
        | Command::PersistentReserveOut { .. }
        | Command::ReportLuns { .. }
        | Command::ReportTargetPortGroups { .. }
        | Command::SetTargetPortGroups { .. } => false,
    }
}

/// The last three rules: saved values of mode pages are asked for, the range passes the end, or the parameter list is none that the
/// command may have. Of these a command can come to one at most.
fn own(control: &Control, asked: &Asked, bytes: &[u8]) -> Option<Refusal>
    ensures { (session : ℕ) → result
        ≡ first_refusal (saved_rule ∷ range_rule ∷ list_rule ∷ []) control.now (request session asked.now bytes.now) }
{
    match asked {
        Ok(Command::ModeSense { control, .. }) => saved_values(*control),
        Ok(Command::Read { lba, blocks, .. })
        | Ok(Command::Write { lba, blocks, .. })
        | Ok(Command::CompareAndWrite { lba, blocks, .. }) => {
            past_end(*lba, u32::from(*blocks), control.total())
        }
        Ok(Command::SynchronizeCache { lba, blocks }) => past_end(*lba, *blocks, control.total()),
        Ok(Command::PersistentReserveOut { list_length, .. }) => reserve_list(*list_length),
        Ok(Command::SetTargetPortGroups { list_length }) => {
            groups_list(control, *list_length, bytes)
        }
        Ok(Command::TestUnitReady)
        | Ok(Command::RequestSense { .. })
        | Ok(Command::Inquiry { .. })
        | Ok(Command::ReadCapacity10)
        | Ok(Command::ReadCapacity16 { .. })
        | Ok(Command::PersistentReserveIn { .. })
        | Ok(Command::ReportLuns { .. })
        | Ok(Command::ReportTargetPortGroups { .. })
        | Err(_) => None,
    }
}

/// The values of mode pages that this page control asks for.
fn saved_values(control: PageControl) -> Option<Refusal>
    ensures { result ≡ (if is_saved control then Some (Refusal.Check saving_parameters_not_supported) else None) }
{
    match control {
        PageControl::Saved => Some(Refusal::Check(Sense::SAVING_PARAMETERS_NOT_SUPPORTED)),
        PageControl::Current | PageControl::Changeable | PageControl::Default => None,
    }
}

/// The LBA or the range passes the end, the LBA of an empty range too (SBC-3, READ (10) command).
fn past_end(lba: u64, blocks: u32, total: u32) -> Option<Refusal>
    ensures { result ≡ past_end_by total (record { lba = lba; blocks = blocks }) }
{
    if lba < u64::from(total) && lba + u64::from(blocks) <= u64::from(total) {
        return None;
    }
    Some(Refusal::Check(Sense::LBA_OUT_OF_RANGE))
}

/// A PERSISTENT RESERVE OUT with a parameter list of another length.
fn reserve_list(list_length: u32) -> Option<Refusal>
    ensures { result ≡ reserve_list_by list_length }
{
    if list_length == LIST_LENGTH {
        return None;
    }
    Some(Refusal::Check(Sense::PARAMETER_LIST_LENGTH_ERROR))
}

/// A SET TARGET PORT GROUPS with a parameter list that the access states can't follow.
fn groups_list(control: &Control, list_length: u32, bytes: &[u8]) -> Option<Refusal>
    ensures { result ≡ groups_list_by (set_by control.now list_length bytes.now) }
{
    match states_asked(control, list_length, bytes) {
        Ok(_) => None,
        Err(fault) => Some(Refusal::Check(fault.sense())),
    }
}
