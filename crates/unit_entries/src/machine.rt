//! The unit as what is locked: each of its calls is one entry.
ghost use Rattle.std.specs.Prelude.{◌≡◌};
ghost use Rattle.unit_entries.specs.RowOf.{row_of};

use crate::entry::{Arrival, Noted, Opened};
use access_states::Change;
use block_file::{Blocks, DeviceFailed, Opener, ReplyMemory};
use reservations::Registry;
use scsi_types::{Asked, Group, Reply};
use status::{Published, Row};
use std::marker::Brand;
use unit_lock::{Machine, Refused};
use unit_sequence::ArrayNaming;
use unit_state::{MoveFault, StepEnd, Unit};

impl<B: Blocks, F: Blocks, O: Opener<B>> Published<Noted, Opened> for Unit<B, F, O> {
    ghost use Rattle.std.specs.Prelude.{◌&&◌};
    ghost use Rattle.unit_entries.specs.Histories.{IsHistory, own, command};
    ghost use Rattle.unit_entries.specs.RowOf.{row_behind};

    ghost legal = { IsHistory (O.claims && B.claims) };

    ghost rows = { row_behind };

    ghost own = { own };

    ghost command = { command };
}

impl ArrayNaming<Opened> for Brand {
    ghost use Rattle.unit_sequence.specs.Rights.{no_book, no_table};
    ghost use Rattle.unit_entries.specs.Histories.{no_state};

    ghost book = { λ place. no_book };

    ghost table = { λ place. no_table };

    ghost opening = { λ place. no_state };
}

/// The row of a unit.
fn row_of<B: Blocks, F: Blocks, O: Opener<B>>(unit: &Unit<B, F, O>) -> Row
    ensures { result ≡ row_of unit.now.control }
{
    let row = unit.row();
    Row {
        entries: row.entries,
        owner: u64::from(row.owner.number()),
        states: (row.states[0].code() as u64, row.states[1].code() as u64),
        generation: row.generation as u64,
        registrants: row.registrants as u64,
        kind: row.kind as u64,
    }
}

impl<B: Blocks, F: Blocks, O: Opener<B>> Machine<Noted, Opened> for Unit<B, F, O> {
    ghost use Rattle.std.specs.Prelude.{◌&&◌};
    ghost use Rattle.unit_control.specs.State.{state_of};
    ghost use Rattle.unit_control.specs.Choice.{Fine};
    ghost use Rattle.unit_control.specs.Entry.{Attach, Detach, Reset, Move};
    ghost use Rattle.unit_control.specs.Sessions.{last_nexus};
    ghost use Rattle.unit_state.specs.Step.{entry_of};
    ghost use Rattle.unit_entries.specs.Devices.{devices, HaveFlushed, HaveMoved, HaveWorked};
    ghost use Rattle.unit_entries.specs.Histories.{IsBehind, IsCommand, IsToldBehind};
    ghost use Rattle.unit_entries.specs.RowOf.{IsRegistryBehind};
    ghost use Rattle.unit_entries.specs.NoEntry.{IsFull, IsSessionGone, IsUnattached, IsOwner, TakesMemoryBehind, StaysBehind};
    ghost use Rattle.unit_entries.specs.Histories.{IsMoveTold};

    type Name = Arrival;

    type Group = Group;

    type Ask = Asked;

    type Reply = Reply;

    type Memory = ReplyMemory;

    type Change = Change;

    type Stays = MoveFault;

    type Fault = DeviceFailed;

    type Registrations = Registry;

    ghost after = { IsBehind (O.claims && B.claims) B.contents B.failures O.opens_failed F.failures };

    ghost attaching = { λ name. Attach (record { port = name.port; group = name.group }) };

    ghost detaching = { λ session. Detach session };

    ghost resetting = { λ session. Reset session };

    ghost moving = { λ list. Move list Fine };

    ghost serving = { λ session serial by_group asked bytes reply u.
        entry_of session serial by_group asked bytes reply (state_of B.contents u) };

    ghost joined = { λ u. Attach (last_nexus u.control.sessions) };

    ghost asks = { IsCommand };

    ghost told = { IsToldBehind (O.claims && B.claims) };

    ghost full = { λ s h name. IsFull s h (record { port = name.port; group = name.group }) };

    ghost gone = { IsSessionGone };

    ghost absent = { IsUnattached };

    ghost owner = { IsOwner };

    ghost wants = { TakesMemoryBehind };

    ghost stays = { StaysBehind };

    ghost moved = { IsMoveTold };

    ghost worked = { HaveWorked (devices B.Blocks F.Blocks O.Opener) };

    ghost handed_over = { HaveMoved (devices B.Blocks F.Blocks O.Opener) };

    ghost registered = { IsRegistryBehind };

    ghost flushed = { HaveFlushed (devices B.Blocks F.Blocks O.Opener) };

    fn row(&self) -> Row {
        row_of(self)
    }

    fn registrations(&self) -> Option<Registry> {
        self.registry().ok()
    }

    fn attach(&mut self, name: Arrival) -> Option<u64> {
        let Arrival { port, group } = name;
        match self.attach(port, group) {
            Ok(id) => Some(id),
            Err(_) => None,
        }
    }

    fn detach(&mut self, session: u64) -> bool {
        match self.detach(session) {
            Ok(()) => true,
            Err(_) => false,
        }
    }

    fn reset(&mut self, session: u64) -> bool {
        match self.reset(session) {
            Ok(()) => true,
            Err(_) => false,
        }
    }

    fn move_to(&mut self, list: &[u8]) -> Result<Change, MoveFault> {
        match self.move_to(list) {
            Ok(change) => Ok(change),
            Err(why) => Err(why),
        }
    }

    fn flush(&mut self) -> Result<(), DeviceFailed> {
        self.flush()
    }

    fn step(
        &mut self,
        room: ReplyMemory,
        session: u64,
        serial: u64,
        by_group: &Group,
        ask: &Asked,
        bytes: &[u8],
    ) -> Result<Reply, Refused<Group>> {
        match self.step(room, session, serial, *by_group, *ask, bytes) {
            StepEnd::Reply(reply) => Ok(reply),
            StepEnd::Gone => Err(Refused::Gone),
            StepEnd::Moved(owner) => Err(Refused::Moved(owner)),
            StepEnd::NoMemory => Err(Refused::NoMemory),
        }
    }
}
