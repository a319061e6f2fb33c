//! The units of an array, as a session reaches them.
ghost use Rattle.std.specs.Prelude.{◌≡◌, ◌<◌, ◌⊎◌, ℕ, List, IfOk, IfErr};
ghost use mathlib.Core.List.{IsPrefix};
ghost use Rattle.registrants.specs.Nexus.{through};
ghost use Rattle.unit_control.specs.State.{UnitState};
ghost use Rattle.unit_lock.specs.Calls.{PlacedPass};
ghost use Rattle.unit_control.specs.Entry.{Entry};
ghost use Rattle.unit_history.specs.Calls.{HasAttached, HasNoRoom};
ghost use Rattle.session_units.specs.Units.{Claims, IsSubmitted, IsResetBy, IsRetired};

use block_file::ReplyMemory;
use forwarding::DeskFault;
use scsi_types::{Asked, Group, PortName, Reply};
use std::sync::Wait;
use unit_history::Refused;

/// Why a command that was submitted has no reply.
#[derive(Clone, Copy)]
pub enum Unserved {
    /// Its unit did not serve it.
    ByUnit(Refused<Group>),
    /// The desk of the group did not take it, and no unit was asked.
    ByDesk(DeskFault),
}

/// The one right to add a session's entries to the history of a unit. It need not be `Drop`, so who is generic over it cannot let go of
/// one: each that `attach` gave out goes back by `retire`.
pub trait Pass {
    /// What the session knows of the unit.
    ghost held: { Self → PlacedPass Entry };

    /// The place of its unit.
    fn place(&self) -> usize
        ensures { result ≡ (held self.now).place };

    /// The serial of the session's next command.
    fn next_serial(&self) -> u64
        ensures { result ≡ (held self.now).pass.serial };
}

/// The units of an array, which all threads share. Each has one history, and what a session does at a unit is an entry there.
pub trait LogicalUnits {
    /// The right to add a session's entries to the history of a unit.
    type Right: Pass;

    /// What was seen of the history of a unit: nothing but a call of the units gives one.
    type History: Drop;

    /// How many units there are, from unit 0 on.
    ghost unit_count: { Self → ℕ };

    /// What is known of the units' devices.
    ghost claims: { Claims };

    /// The state that the unit at a place opened with.
    ghost opening: { ℕ → UnitState };

    /// The place of the unit, and the entries that were seen.
    ghost seen: { Self.History → ℕ × List Entry };

    fn count(&self) -> u8
        ensures { result ≡ unit_count self.now };

    /// Whether a command could have the unit now, as far as was seen. It waits for nobody, and is no entry.
    fn is_free(&self, unit: u8) -> bool
        requires { unit < unit_count self.now };

    /// All that is seen of one unit stands in one history: of two such, one begins the other. It does nothing.
    fn in_one_history(one: &Self::History, other: &Self::History)
        requires { (seen other.now).0 ≡ (seen one.now).0 }
        ensures { IsPrefix (seen one.now).1 (seen other.now).1 ⊎ IsPrefix (seen other.now).1 (seen one.now).1 };

    /// Attaches a session of this port through this group to a unit; one that its nexus had there ends. Refused, there is no room
    /// for it: what was seen of the unit shows that.
    fn attach<R: Wait>(
        &self,
        rt: &R,
        unit: u8,
        port: PortName,
        group: Group,
    ) -> Result<Self::Right, Self::History>
        requires unit { unit < unit_count self.now }
        ensures place { IfOk result (λ p. (Self.Right.held p).place ≡ unit) }
        ensures attached { IfOk result (λ p. HasAttached claims.contents (opening unit) (through port group) (Self.Right.held p).pass) }
        ensures full { IfErr result (λ s. ((seen s).0 ≡ unit)
            × HasNoRoom claims.contents (opening unit) (through port group) (seen s).1) };

    /// Submits a command of the session to a group.
    fn serve<R: Wait>(
        &self,
        rt: &R,
        room: ReplyMemory,
        pass: Self::Right,
        by_group: Group,
        asked: &Asked,
        bytes: &[u8],
    ) -> (Self::Right, Result<Reply, Unserved>)
        requires unit { (Self.Right.held pass).place < unit_count self.now }
        ensures place { (Self.Right.held result.0).place ≡ (Self.Right.held pass).place }
        ensures end { IsSubmitted claims (opening (Self.Right.held pass).place) (Self.Right.held pass).pass by_group asked.now
            bytes.now result.1 (Self.Right.held result.0).pass };

    /// Resets the unit for the session. False: the session is gone.
    fn reset<R: Wait>(&self, rt: &R, pass: Self::Right) -> (Self::Right, bool)
        requires unit { (Self.Right.held pass).place < unit_count self.now }
        ensures place { (Self.Right.held result.0).place ≡ (Self.Right.held pass).place }
        ensures end { IsResetBy claims (opening (Self.Right.held pass).place) (Self.Right.held pass).pass result.1
            (Self.Right.held result.0).pass };

    /// Ends the session at the unit: what was seen there shows that it is over.
    fn retire<R: Wait>(&self, rt: &R, pass: Self::Right) -> Self::History
        requires unit { (Self.Right.held pass).place < unit_count self.now }
        ensures place { (seen result).0 ≡ (Self.Right.held pass).place }
        ensures end { IsRetired claims (opening (Self.Right.held pass).place) (Self.Right.held pass).pass (seen result).1 };
}
