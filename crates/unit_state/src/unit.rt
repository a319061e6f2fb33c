//! A logical unit: its state, and the one step that each command is.
ghost use Rattle.std.specs.Prelude.{◌≡◌, ◌≢◌, ◌<◌, ◌≤◌, ◌++◌, ◌&&◌, ◌↔◌, false, Err, [], ◌∷◌, IfOk, OnOk, OnErr, IsErr};
ghost use Rattle.block_file.specs.Disk.{Only};
ghost use Rattle.block_file.specs.Failures.{Counts, Tells};
ghost use Rattle.aptpl_file.specs.Lasts.{EachOutcomeHolds, LastsAmong, StopLeavesOneOf};
ghost use Rattle.unit_control.specs.Limits.{last_length};

use crate::commands::answer;
use crate::devices::UnitDevices;
use access_states::{AsetFault, Cause, Change};
use aptpl_file::RegFile;
use block_file::{Blocks, DeviceFailed, Opener, ReplyMemory};
use reservations::{Record, Registry};
use scsi_types::{Asked, Group, NoMemory, Place, PortName, Reply};
use std::alloc::Global;
use std::marker::Model;
use thiserror::Error;
use unit_control::groups::change;
use unit_control::{AttachFault, Control, Gone, Route, Sender, SessionId, UnitRow};

/// What a step ended with. Only `Reply` is an entry of the unit's history; the others change nothing.
#[derive(Debug, Drop)]
pub enum StepEnd {
    /// The command was served, or refused.
    Reply(Reply),
    /// The session is not attached, the serial is not its next, or the history has its last length.
    Gone,
    /// The unit belongs to this group, and the command came by another.
    Moved(Group),
    /// There was no memory for the data of the reply.
    NoMemory,
}

/// Why a unit does not move. Nothing has changed.
#[derive(Clone, Copy, Debug, PartialEq, Eq, Error)]
pub enum MoveFault {
    /// The list is none that the access states can follow.
    #[error("{0}")]
    List(AsetFault),
    /// The blocks could not be opened for the new owner.
    #[error("the device could not be opened")]
    OpenFailed,
    /// The history has its last length.
    #[error("the unit is gone")]
    Gone,
}

/// A logical unit over a device, with an opener that opens the device for the controller that takes it over, and a
/// registration file on a device of its own. Of every unit it is known that it has one block at least, and that a crash of
/// that device leaves one of the records that `lasting` names, where its type claims what is said of a crash.
#[derive(Drop)]
pub struct Unit<B: Blocks, F: Blocks, O: Opener<B>> {
    devices: UnitDevices<B, F, O>,
    control: Control,
}

impl<B: Blocks, F: Blocks, O: Opener<B>> Model for Unit<B, F, O> {
    ghost use Rattle.std.specs.Prelude.{◌≡◌, ◌<◌, IsTrue};
    ghost use Rattle.aptpl_file.specs.Lasts.{LastsAmong};
    ghost use Rattle.unit_control.specs.State.{UnitValue};
    ghost use Rattle.unit_state.specs.Answered.{unit_over};

    ghost Value = { UnitValue B F O };

    ghost view = { λ u. unit_over u.devices u.control };

    ghost invariant = { λ u. (u.control.total ≡ B.size u.devices.device)
        × (IsTrue F.claims → LastsAmong F.size F.may_hold u.devices.file u.control.lasting)
        × (0 < B.size u.devices.device) };
}

impl<B: Blocks, F: Blocks, O: Opener<B>> Unit<B, F, O> {
    ghost use Rattle.unit_control.specs.State.{UnitValue, opening_control, state_of, failures_of};
    ghost use Rattle.access_states.specs.AccessMap.{owner_of};
    ghost use Rattle.unit_control.specs.Choice.{IsFine, choice_of};
    ghost use Rattle.unit_control.specs.Counts.{AreCounted, counters_of};
    ghost use Rattle.unit_control.specs.Crash.{HoldsAsBefore, LeavesAmong, holds_with, saved_with};
    ghost use Rattle.unit_control.specs.Refusal.{refusal, request};
    ghost use Rattle.unit_control.specs.Entry.{Attach, Detach, Reset, HasRoom, IsAttached, control_after};
    ghost use Rattle.std.specs.Prelude.{IsTrue};
    ghost use Rattle.unit_control.specs.Answer.{Lasts};
    ghost use Rattle.unit_control.specs.Row.{row_of};
    ghost use Rattle.unit_control.specs.Medium.{work_asked};
    ghost use Rattle.unit_control.specs.Groups.{is_moved_by, move_by};
    ghost use Rattle.unit_state.specs.Moves.{IsMove, choice_of_move};
    ghost use Rattle.unit_state.specs.Step.{OnReply, OnNoReply, WhereRefused, IsRouted, IsStep, TakesMemory};
    ghost use Rattle.unit_state.specs.Step.{asks_file, asks_medium, asks_opener, entry_of};

    /// Opens a unit over its blocks, of which there is one at least, with this registration file and the record that it
    /// holds; its preferred group owns it. Refused, it drops the devices and the opener.
    pub fn open(
        alloc: Global,
        place: Place,
        blocks: B,
        opener: O,
        file: RegFile<F>,
        lasted: Record,
    ) -> Result<Unit<B, F, O>, NoMemory>
        requires blocks { 0 < B.size blocks }
        requires lasts { IsTrue F.claims → LastsAmong F.size F.may_hold file (lasted ∷ []) }
        ensures { IfOk result (λ u. u ≡ record {
          device = blocks;
          opener = opener;
          file = file;
          control = opening_control place (B.size blocks) lasted;
        }) }
    {
        let control = Control::new(alloc, place, blocks.count(), lasted)?;
        let scratch = Registry::new(alloc)?;
        Ok(Unit {
            devices: UnitDevices {
                device: blocks,
                opener,
                file,
                scratch,
            },
            control,
        })
    }

    /// Another value of its registry.
    pub fn registry(&self) -> Result<Registry, NoMemory>
        ensures { IfOk result (λ registry. registry ≡ self.now.control.registry) }
    {
        self.control.registry().copy()
    }

    /// Attaches a session of this nexus, and ends one that it had. Takes no memory.
    pub fn attach(&mut self, port: PortName, group: Group) -> Result<SessionId, AttachFault>
        ensures room { IsErr result ↔ (HasRoom self.old.control (record { port = port; group = group }) → ⊥) }
        ensures had { IfOk result (λ id. HasRoom self.old.control (record { port = port; group = group })) }
        ensures id { IfOk result (λ id. id ≡ self.old.control.count) }
        ensures control { IfOk result (λ id. self.new.control
            ≡ control_after self.old.control (Attach (record { port = port; group = group }))) }
        ensures device { self.new.device ≡ self.old.device }
        ensures opener { self.new.opener ≡ self.old.opener }
        ensures file { self.new.file ≡ self.old.file }
        ensures err { OnErr result (self.new ≡ self.old) }
    {
        self.control.attach(port, group)
    }

    /// Ends a session. Takes no memory.
    pub fn detach(&mut self, session: SessionId) -> Result<(), Gone>
        ensures gone { IsErr result ↔ (IsAttached self.old.control session → ⊥) }
        ensures was { IfOk result (λ done. IsAttached self.old.control session) }
        ensures control { IfOk result (λ done. self.new.control ≡ control_after self.old.control (Detach session)) }
        ensures device { self.new.device ≡ self.old.device }
        ensures opener { self.new.opener ≡ self.old.opener }
        ensures file { self.new.file ≡ self.old.file }
        ensures err { OnErr result (self.new ≡ self.old) }
    {
        self.control.detach(session)
    }

    /// LOGICAL UNIT RESET by a session (SAM-5): every other one is told of it, and of nothing before it. Takes no
    /// memory.
    pub fn reset(&mut self, session: SessionId) -> Result<(), Gone>
        ensures gone { IsErr result ↔ (IsAttached self.old.control session → ⊥) }
        ensures was { IfOk result (λ done. IsAttached self.old.control session) }
        ensures control { IfOk result (λ done. self.new.control ≡ control_after self.old.control (Reset session)) }
        ensures device { self.new.device ≡ self.old.device }
        ensures opener { self.new.opener ≡ self.old.opener }
        ensures file { self.new.file ≡ self.old.file }
        ensures err { OnErr result (self.new ≡ self.old) }
    {
        self.control.reset(session)
    }

    /// What the status board shows of the unit.
    pub fn row(&self) -> UnitRow
        ensures { result ≡ row_of self.now.control }
    {
        self.control.row()
    }

    /// Serves one command of a session, with the data that came for it.
    pub fn step(
        &mut self,
        room: ReplyMemory,
        session: SessionId,
        serial: u64,
        by: Group,
        asked: Asked,
        bytes: &[u8],
    ) -> StepEnd
        ensures routed { IsRouted self.old.control session serial by result }
        // No session has had more commands than the unit has had entries.
        ensures fits { OnReply result (λ reply. serial ≤ self.old.control.count) }
        ensures unchanged { OnNoReply result (self.new ≡ self.old) }
        ensures memory { result ≡ StepEnd.NoMemory → TakesMemory self.old.control (request session asked bytes.now) }
        // Over all devices one entry of the model, as far as the medium does not decide it; over a device and an opener that
        // claim the contents the blocks too.
        ensures entry { OnReply result (λ reply. IsStep (O.claims && B.claims) (state_of B.contents self.old)
            (state_of B.contents self.new)
            (entry_of session serial by asked bytes.now reply (state_of B.contents self.new)) reply) }
        // After GOOD of a SYNCHRONIZE CACHE or of a command with FUA a crash leaves the blocks that the unit holds, and after
        // a READ with FUA whose read failed.
        ensures lasts { IsTrue B.claims → OnReply result
            (Lasts (B.contents self.new.device) (B.may_hold self.new.device) (work_asked asked bytes.now)) }
        // A crash after it, and a stop anywhere inside it, leaves each block with a value that it might have left before, or,
        // in a range that the command wrote, with the new block.
        ensures left { IsTrue (O.claims && B.claims) → OnReply result (λ reply.
            LeavesAmong B.claims_moments B.moment B.left_since B.size B.may_hold
            (holds_with (refusal self.old.control (request session asked bytes.now)) (B.contents self.old.device)
            (work_asked asked bytes.now)
            (choice_of reply (B.contents self.new.device) self.new.control.lasting) (B.may_hold self.old.device))
            self.old.device self.new.device) }
        // A device that the command does not work on, also one that was opened for another owner, holds the same.
        ensures same { asks_medium self.old.control (request session asked bytes.now) ≡ false → IsTrue O.claims
            → HoldsAsBefore B.moment B.left_since B.may_hold self.old.device self.new.device }
        // A stop anywhere inside it leaves a record of those that the unit said before, or the one that it saves.
        ensures stop { IsTrue F.claims → IsTrue F.claims_moments → StopLeavesOneOf F.moment F.left_since
            (saved_with (refusal self.old.control (request session asked bytes.now)) self.old.control
            (request session asked bytes.now) ++ self.old.control.lasting) self.old.file.device self.new.file.device }
        // A command that a rule refuses does not reach the device.
        ensures unreached { OnReply result (λ reply. WhereRefused
            (refusal self.old.control (request session asked bytes.now)) (self.new.device ≡ self.old.device)) }
        // Nor does one that neither works on the medium nor changes the owner.
        ensures idle { asks_medium self.old.control (request session asked bytes.now) ≡ false
            → asks_opener self.old.control (request session asked bytes.now) ≡ false
            → self.new.device ≡ self.old.device }
        // The opener is asked only by a command that changes the owner.
        ensures unopened { asks_opener self.old.control (request session asked bytes.now) ≡ false
            → self.new.opener ≡ self.old.opener }
        // The registration file is asked only by a PERSISTENT RESERVE OUT.
        ensures unsaved { asks_file self.old.control (request session asked bytes.now) ≡ false
            → self.new.file ≡ self.old.file }
        // A crash leaves one of the records that the unit then says.
        ensures restart { IsTrue F.claims → EachOutcomeHolds (F.size self.new.file.device)
            (F.may_hold self.new.file.device) self.new.control.lasting }
        // Where another group owns the unit then, the device was opened for it.
        ensures opened { owner_of self.new.control.access ≢ owner_of self.old.control.access
            → O.opened self.old.device self.new.device }
        // Each count of failures rose exactly where the choice tells of that failure: of a read, of a write or a flush, of an
        // open, or of a save.
        ensures counted { OnReply result (λ reply. AreCounted
            (counters_of B.reads_failed B.writes_failed O.opens_failed F.failures self.old)
            (counters_of B.reads_failed B.writes_failed O.opens_failed F.failures self.new)
            (choice_of reply (B.contents self.new.device) self.new.control.lasting)) }
        // The choice is Fine exactly where no count of failures rose.
        ensures fine { OnReply result (λ reply. Tells (failures_of B.failures O.opens_failed F.failures self.old)
            (failures_of B.failures O.opens_failed F.failures self.new)
            (IsFine (choice_of reply (B.contents self.new.device) self.new.control.lasting))) }
    {
        let sender = match self.control.route(session, serial, by) {
            Route::Gone => return StepEnd::Gone,
            Route::Moved(owner) => return StepEnd::Moved(owner),
            Route::At(at) => Sender { session, at },
        };
        let reply = match answer(
            &mut self.devices,
            &mut self.control,
            room,
            sender,
            asked,
            bytes,
        ) {
            Ok(reply) => reply,
            Err(NoMemory) => return StepEnd::NoMemory,
        };
        self.control.count_command(sender);
        StepEnd::Reply(reply)
    }

    /// Moves the unit as a parameter list of SET TARGET PORT GROUPS says, without a session: the states that it changes
    /// are altered implicitly (SPC-4, 5.15.2.2), and every session hears of it. Takes no memory.
    pub fn move_to(&mut self, list: &[u8]) -> Result<Change, MoveFault>
        ensures moved { IsMove (O.claims && B.claims) (state_of B.contents self.old) (state_of B.contents self.new)
            list.now result }
        ensures err { OnErr result ((self.new.control ≡ self.old.control) × (self.new.device ≡ self.old.device)) }
        ensures file { self.new.file ≡ self.old.file }
        // The device, opened for another owner or not, holds the same.
        ensures same { IsTrue O.claims
            → HoldsAsBefore B.moment B.left_since B.may_hold self.old.device self.new.device }
        ensures unopened { is_moved_by self.old.control.access (move_by self.old.control list.now) ≡ false
            → self.new.opener ≡ self.old.opener }
        ensures unasked { self.old.control.count ≡ last_length → self.new ≡ self.old }
        ensures opened { owner_of self.new.control.access ≢ owner_of self.old.control.access
            → O.opened self.old.device self.new.device }
        ensures counted { AreCounted (counters_of B.reads_failed B.writes_failed O.opens_failed F.failures self.old)
            (counters_of B.reads_failed B.writes_failed O.opens_failed F.failures self.new) (choice_of_move result) }
        ensures failures { Tells (failures_of B.failures O.opens_failed F.failures self.old)
            (failures_of B.failures O.opens_failed F.failures self.new) (result ≢ Err MoveFault.OpenFailed) }
    {
        if self.control.is_full() {
            return Err(MoveFault::Gone);
        }
        let access = match self.control.access().after(Cause::Implicit, list) {
            Ok(access) => access,
            Err(fault) => return Err(MoveFault::List(fault)),
        };
        let moved = self.control.access().change_to(&access);
        match change(
            &mut self.devices.device,
            &mut self.devices.opener,
            &mut self.control,
            None,
            access,
        ) {
            Ok(()) => {}
            Err(DeviceFailed) => return Err(MoveFault::OpenFailed),
        }
        self.control.count_one();
        Ok(moved)
    }

    /// Makes what was written last: after a success a crash leaves the blocks that the unit holds. It is no entry.
    pub fn flush(&mut self) -> Result<(), DeviceFailed>
        ensures control { self.new.control ≡ self.old.control }
        ensures opener { self.new.opener ≡ self.old.opener }
        ensures file { self.new.file ≡ self.old.file }
        ensures blocks { IsTrue B.claims → B.contents self.new.device ≡ B.contents self.old.device }
        ensures lasts { IsTrue B.claims → OnOk result
            (Only (B.contents self.new.device) (B.may_hold self.new.device)) }
        ensures left { IsTrue B.claims → LeavesAmong B.claims_moments B.moment B.left_since B.size B.may_hold
            (B.may_hold self.old.device) self.old.device self.new.device }
        ensures failures { Counts (failures_of B.failures O.opens_failed F.failures self.old)
            (failures_of B.failures O.opens_failed F.failures self.new) result }
    {
        self.devices.device.flush()
    }

    /// Hands the device, the device of the registration file and the opener back. A crash of the second leaves one of the
    /// records that the unit says.
    pub fn close(self) -> (B, F, O)
        ensures closed { result ≡ (self.device, self.file.device, self.opener) }
        ensures blocks { 0 < B.size result.0 }
        ensures restart { IsTrue F.claims
            → EachOutcomeHolds (F.size result.1) (F.may_hold result.1) self.control.lasting }
    {
        (
            self.devices.device,
            self.devices.file.close(),
            self.devices.opener,
        )
    }
}
