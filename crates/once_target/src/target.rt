//! The target of a session that alone has a unit.
ghost use Rattle.std.specs.Prelude.{◌≡◌, ◌<◌, IfOk};
ghost use Rattle.aptpl_file.specs.Lasts.{EachOutcomeHolds};
ghost use Rattle.once_target.specs.Once.{IsBegun};

use crate::attachment::{Attachment, answer, open, reset};
use block_file::{Blocks, KeepOpener, MemBlocks, ReplyMemory};
use login::SessionType;
use scsi_types::{Asked, Command, Group, NoMemory, PortName};
use session::{BeginAnswer, ResetAnswer, Target, TargetAnswer};
use std::alloc::Global;
use std::marker::Model;
use unit_state::{StepEnd, Unit};

/// The initiator of the one session.
const INITIATOR: &[u8] = b"iqn.2000-01.test:host";

/// One unit, and the session that is attached to it.
#[derive(Drop)]
pub struct OneUnit<B: Blocks> {
    alloc: Global,
    unit: Unit<B, MemBlocks, KeepOpener>,
    at: Attachment,
}

impl<B: Blocks> Model for OneUnit<B> {
    ghost use Rattle.std.specs.Prelude.{◌≡◌, ◌≤◌, Some};
    ghost use Rattle.unit_control.specs.Sessions.{next_of};
    ghost use Rattle.once_target.specs.OneUnit.{TargetValue};

    ghost Value = { TargetValue B };

    ghost view = { λ t. record { unit = t.unit; at = t.at } };

    ghost invariant = { λ t. (next_of t.unit.control.sessions t.at.session ≡ Some t.at.serial)
        × (t.at.serial ≤ t.unit.control.count) };
}

impl<B: Blocks> OneUnit<B> {
    /// A unit over these blocks, one at least, to which a session of `iqn.2000-01.test:host` with ISID 0 through the first group is
    /// attached, which was told of the power on. The registration file is formatted in memory. Refused, it drops the
    /// blocks.
    pub fn over(alloc: Global, blocks: B) -> Result<OneUnit<B>, NoMemory>
        requires { 0 < B.size blocks }
        ensures { IfOk result (IsBegun B.Blocks ⟦<MemBlocks as Blocks>⟧ blocks) }
    {
        let name = INITIATOR.to_vec(alloc)?;
        let Some(port) = PortName::new(name, 0) else {
            unreachable!()
        };
        let mut unit = open(alloc, blocks)?;
        let Ok(session) = unit.attach(port, Group::One) else {
            unreachable!()
        };
        let by = Group::One;
        // Takes the attention that the unit was powered on.
        match unit.step(
            ReplyMemory::new(alloc),
            session,
            1,
            by,
            Ok(Command::TestUnitReady),
            &[],
        ) {
            StepEnd::Reply(_) => Ok(OneUnit {
                alloc,
                unit,
                at: Attachment {
                    session,
                    serial: 2,
                    by,
                },
            }),
            _ => unreachable!(),
        }
    }

    /// Hands the device back, and that of the registration file, of which a crash leaves a record that the unit names.
    pub fn close(self) -> (B, MemBlocks)
        ensures closed { result ≡ (self.unit.device, self.unit.file.device) }
        ensures restart { EachOutcomeHolds (⟦<MemBlocks as Blocks>⟧.size result.1)
            (⟦<MemBlocks as Blocks>⟧.may_hold result.1) self.unit.control.lasting }
    {
        let (blocks, registrations, KeepOpener) = self.unit.close();
        (blocks, registrations)
    }
}

impl<B: Blocks> Target for OneUnit<B> {
    ghost use Rattle.once_target.specs.OneUnit.{LeadsOn};

    ghost leads = { LeadsOn B.Blocks ⟦<MemBlocks as Blocks>⟧ };

    ghost unit_count = { λ t. 1 };

    fn units(&self) -> u16 {
        1
    }

    // The session was attached before: no other one begins.
    fn begin(&mut self, _name: &[u8], _isid: u64, _kind: SessionType) -> BeginAnswer {
        BeginAnswer::Refused
    }

    fn lives(&mut self, _tsih: u16, _name: &[u8], _isid: u64) -> bool {
        false
    }

    fn end(&mut self) {}

    fn serve(&mut self, unit: Option<u8>, asked: Asked, bytes: &[u8]) -> TargetAnswer {
        answer(self.alloc, &mut self.unit, &mut self.at, unit, asked, bytes)
    }

    fn reset(&mut self, unit: u8) -> ResetAnswer {
        reset(&mut self.unit, self.at, unit)
    }
}
