//! The kind of a command, and what the kind alone decides.
ghost use Rattle.std.specs.Prelude.{◌≡◌};
ghost use Rattle.unit_control.specs.Ops.{access_of, kind_of, kind_asked, passes_attention};

use scsi_types::{Access, Asked, CdbFault, Command, Op};

/// The kind of a command, also of one with a bad field.
pub fn kind_asked(asked: &Asked) -> Option<Op>
    ensures { result ≡ kind_asked asked.now }
{
    match asked {
        Ok(command) => Some(kind_of(command)),
        Err(CdbFault::BadField(op)) => Some(*op),
        Err(CdbFault::UnknownOpcode) => None,
    }
}

fn kind_of(command: &Command) -> Op
    ensures { result ≡ kind_of command.now }
{
    match command {
        Command::TestUnitReady => Op::TestUnitReady,
        Command::RequestSense { .. } => Op::RequestSense,
        Command::Inquiry { .. } => Op::Inquiry,
        Command::ModeSense { .. } => Op::ModeSense,
        Command::ReadCapacity10 | Command::ReadCapacity16 { .. } => Op::ReadCapacity,
        Command::Read { .. } => Op::Read,
        Command::Write { .. } => Op::Write,
        Command::CompareAndWrite { .. } => Op::CompareAndWrite,
        Command::SynchronizeCache { .. } => Op::SynchronizeCache,
        Command::PersistentReserveIn { .. } => Op::PersistentReserveIn,
        Command::PersistentReserveOut { .. } => Op::PersistentReserveOut,
        Command::ReportLuns { .. } => Op::ReportLuns,
        Command::ReportTargetPortGroups { .. } => Op::ReportTargetPortGroups,
        Command::SetTargetPortGroups { .. } => Op::SetTargetPortGroups,
    }
}

/// Whether a pending attention lets a command pass (SAM-5, 5.14).
pub fn passes_attention(kind: Option<Op>) -> bool
    ensures { result ≡ passes_attention kind }
{
    match kind {
        Some(op) => op.traits().passes_attention,
        None => false,
    }
}

/// What a command does with the medium, as a reservation sees it (SPC-4, 5.13.1).
pub fn access_of(kind: Option<Op>) -> Access
    ensures { result ≡ access_of kind }
{
    match kind {
        Some(op) => op.traits().access,
        None => Access::Other,
    }
}
