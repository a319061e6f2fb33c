//! What an event makes of one unit, whatever history the unit has.
ghost use Rattle.std.specs.Prelude.{◌&&◌};
ghost use Rattle.registrants.specs.Nexus.{through};
ghost use Rattle.unit_entries.specs.NoEntry.{IsSessionGone, StaysBehind};
ghost use Rattle.unit_control.specs.Choice.{Fine};
ghost use Rattle.unit_control.specs.Entry.{Detach, Move, Reset};
ghost use Rattle.unit_state.specs.declared.unit.MoveFault.{MoveFault};
ghost use Rattle.unit_events.specs.Entries.{IsUnitAttach, IsUnitEntry, IsUnitServing};

use crate::job::{End, Job};
use block_file::{Blocks, Opener, ReplyMemory};
use scsi_types::{Group, PortName};
use std::alloc::Global;
use unit_history::{Arrival, Noted, Opened};
use unit_lock::Machine;
use unit_state::Unit;

/// A unit ends the session with this id.
pub fn detach_unit<B: Blocks, F: Blocks, O: Opener<B>>(unit: &mut Unit<B, F, O>, id: u64)
    ensures { IsUnitEntry (O.claims && B.claims) B.contents B.failures O.opens_failed F.failures
        (Detach id) (λ s h. IsSessionGone s h id) unit.old unit.new }
{
    let _is_entry = Machine::detach(unit, id);
}

/// The session with this id resets a unit.
pub fn reset_unit<B: Blocks, F: Blocks, O: Opener<B>>(unit: &mut Unit<B, F, O>, id: u64)
    ensures { IsUnitEntry (O.claims && B.claims) B.contents B.failures O.opens_failed F.failures
        (Reset id) (λ s h. IsSessionGone s h id) unit.old unit.new }
{
    let _is_entry = Machine::reset(unit, id);
}

/// A unit moves by the parameter list of a SET TARGET PORT GROUPS (SPC-4, 6.45).
pub fn move_unit<B: Blocks, F: Blocks, O: Opener<B>>(unit: &mut Unit<B, F, O>, list: &[u8])
    ensures { IsUnitEntry (O.claims && B.claims) B.contents B.failures O.opens_failed F.failures
        (Move list.now Fine) (λ s h. (why : MoveFault) × StaysBehind s h list.now why) unit.old unit.new }
{
    let _told = Machine::move_to(unit, list);
}

/// A session attaches to a unit, which gives it an id. None: the unit has no room for it.
pub fn attach_unit<B: Blocks, F: Blocks, O: Opener<B>>(
    unit: &mut Unit<B, F, O>,
    port: PortName,
    group: Group,
) -> Option<u64>
    ensures { IsUnitAttach (O.claims && B.claims) B.contents B.failures O.opens_failed F.failures
        (through port group) result unit.old unit.new }
{
    Machine::attach(unit, Arrival { port, group })
}

/// A unit serves the command of a job, which is the one with this serial of the session with this id.
pub fn serve_unit<B: Blocks, F: Blocks, O: Opener<B>>(
    unit: &mut Unit<B, F, O>,
    alloc: Global,
    id: u64,
    serial: u64,
    job: &Job,
) -> End
    ensures { IsUnitServing (O.claims && B.claims) B.contents B.failures O.opens_failed F.failures
        id serial job.now unit.old unit.new result }
{
    let at = unit.row().entries;
    match Machine::step(
        unit,
        ReplyMemory::new(alloc),
        id,
        serial,
        &job.by_group,
        &job.asked,
        job.bytes.as_slice(),
    ) {
        Ok(reply) => End::Replied(reply, at, serial + 1),
        Err(why) => End::Refused(why),
    }
}
