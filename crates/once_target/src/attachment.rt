//! A session at a unit: how its commands are submitted, and what a target answers for them.
ghost use Rattle.std.specs.Prelude.{◌≡◌, ◌<◌, ◌≤◌, IfOk, Some};
ghost use Rattle.once_target.specs.Once.{nothing, place};
ghost use Rattle.once_target.specs.OneUnit.{IsStepped, IsOwnStep, IsTargetAnswer, IsResetBy, IsAbsent};
ghost use Rattle.unit_control.specs.Entry.{IsAttached, IsNext};
ghost use Rattle.unit_control.specs.State.{opening_control};

use aptpl_file::{FILE_BLOCKS, RegFile};
use block_file::{Blocks, KeepOpener, MemBlocks, ReplyMemory};
use identity::absent;
use reservations::Record;
use scsi_types::{Asked, Group, NoMemory, Place};
use session::{ResetAnswer, TargetAnswer};
use std::alloc::Global;
use unit_state::{SessionId, StepEnd, Unit};

/// The place of the unit.
const UNIT: u8 = 0;

/// A session that was attached to a unit.
#[derive(Clone, Copy)]
pub struct Attachment {
    /// The unit's session.
    pub session: SessionId,
    /// The serial of the session's next command.
    pub serial: u64,
    /// The group that is believed to own the unit.
    pub by: Group,
}

/// The only unit of array 1, over these blocks, one at least, to which nobody is attached. The registration file is formatted in
/// memory. Refused, it drops the blocks.
pub fn open<B: Blocks>(alloc: Global, blocks: B) -> Result<Unit<B, MemBlocks, KeepOpener>, NoMemory>
    requires { 0 < B.size blocks }
    ensures device { IfOk result (λ u. u.device ≡ blocks) }
    ensures control { IfOk result (λ u. u.control ≡ opening_control place (B.size blocks) nothing) }
{
    let place = Place {
        unit: UNIT,
        units: 1,
        array: 1,
    };
    let registrations = MemBlocks::new(alloc, FILE_BLOCKS)?;
    // Blocks in memory never fail.
    let Ok(file) = RegFile::format(registrations) else {
        return Err(NoMemory);
    };
    Unit::open(alloc, place, blocks, KeepOpener, file, Record::empty(alloc))
}

// One step of the unit, by the group that is believed to own it.
fn step<B: Blocks>(
    alloc: Global,
    unit: &mut Unit<B, MemBlocks, KeepOpener>,
    at: &mut Attachment,
    asked: Asked,
    bytes: &[u8],
) -> StepEnd
    requires { at.old.serial ≤ unit.old.control.count }
    ensures { IsStepped B.Blocks ⟦<MemBlocks as Blocks>⟧ (record { unit = unit.old; at = at.old })
        (record { unit = Some 0; asked = asked; bytes = bytes.now }) result (record { unit = unit.new; at = at.new }) }
{
    let room = ReplyMemory::new(alloc);
    match unit.step(room, at.session, at.serial, at.by, asked, bytes) {
        StepEnd::Reply(reply) => {
            at.serial += 1;
            StepEnd::Reply(reply)
        }
        StepEnd::Moved(owner) => {
            at.by = owner;
            StepEnd::Moved(owner)
        }
        end => end,
    }
}

// One step of the unit, by its owner: a command that came by another group is submitted once more.
fn step_by_owner<B: Blocks>(
    alloc: Global,
    unit: &mut Unit<B, MemBlocks, KeepOpener>,
    at: &mut Attachment,
    asked: Asked,
    bytes: &[u8],
) -> StepEnd
    requires { at.old.serial ≤ unit.old.control.count }
    ensures { IsOwnStep B.Blocks ⟦<MemBlocks as Blocks>⟧ (record { unit = unit.old; at = at.old })
        (record { unit = Some 0; asked = asked; bytes = bytes.now }) result (record { unit = unit.new; at = at.new }) }
{
    match step(alloc, unit, at, asked, bytes) {
        StepEnd::Moved(_) => step(alloc, unit, at, asked, bytes),
        end => end,
    }
}

// What a session is answered to a command of a unit that is not there.
fn turn_away(alloc: Global, asked: &Asked) -> TargetAnswer
    ensures { IsAbsent asked.now result }
{
    match absent(alloc, asked) {
        Ok(reply) => TargetAnswer::Outside(reply),
        Err(NoMemory) => TargetAnswer::Busy,
    }
}

/// What a session is answered to a command of the unit with this number, of which there is unit 0 alone.
pub fn answer<B: Blocks>(
    alloc: Global,
    unit: &mut Unit<B, MemBlocks, KeepOpener>,
    at: &mut Attachment,
    number: Option<u8>,
    asked: Asked,
    bytes: &[u8],
) -> TargetAnswer
    requires { at.old.serial ≤ unit.old.control.count }
    ensures { IsTargetAnswer (IsNext unit.old.control at.old.session at.old.serial → ⊥) B.Blocks
        ⟦<MemBlocks as Blocks>⟧ (record { unit = unit.old; at = at.old })
        (record { unit = number; asked = asked; bytes = bytes.now }) result (record { unit = unit.new; at = at.new }) }
{
    if number != Some(UNIT) {
        return turn_away(alloc, &asked);
    }
    match step_by_owner(alloc, unit, at, asked, bytes) {
        StepEnd::Reply(reply) => TargetAnswer::Replied(reply),
        StepEnd::Gone => TargetAnswer::Gone,
        StepEnd::NoMemory => TargetAnswer::Busy,
        StepEnd::Moved(_) => unreachable!(),
    }
}

/// What a session is answered to a reset of the unit with this number.
pub fn reset<B: Blocks>(
    unit: &mut Unit<B, MemBlocks, KeepOpener>,
    at: Attachment,
    number: u8,
) -> ResetAnswer
    ensures { IsResetBy (IsAttached unit.old.control at.session → ⊥) (record { unit = unit.old; at = at }) number result
        (record { unit = unit.new; at = at }) }
{
    if number != UNIT {
        return ResetAnswer::Failed;
    }
    match unit.reset(at.session) {
        Ok(()) => ResetAnswer::Done,
        Err(_) => ResetAnswer::Gone,
    }
}
