//! One unit that threads share.
ghost use Rattle.std.specs.Prelude.{◌≡◌, ◌≤◌, ◌&&◌, [], length, IfOk, IfErr, IfSome, MatchBool, All, List};
ghost use Rattle.registrants.specs.Nexus.{through};
ghost use Rattle.unit_history.specs.Calls.{HasAttached, HasNoRoom, HasServed, HasRefused, HasReset, WasGone, HasRetired};
ghost use Rattle.unit_history.specs.Calls.{HasFlushed, HasMoved, HasStayed, HasWorked, HaveMerged, IsRegistry};
ghost use Rattle.unit_entries.specs.Devices.{devices};
ghost use Rattle.unit_history.specs.Naming.{IsNamedAt};

use crate::new_unit::NewUnit;
use access_states::Change;
use block_file::{Blocks, DeviceFailed, Opener, ReplyMemory};
use reservations::Registry;
use scsi_types::{Asked, Group, NoMemory, PortName, Reply};
use status::{Board as StatusBoard, MOST_SEATS, Seat as BoardSeat};
use std::alloc::Global;
use std::sync::Wait;
use unit_entries::laws::a_unit_that_opened_has_the_history_without_an_entry;
use unit_entries::{Arrival, Noted, Opened};
use unit_lock::{LegalHistory as Seen, Pass as SessionPass, Refused};
use unit_sequence::{ArrayNaming, At};
use unit_state::{MoveFault, Unit};

/// A session of a unit: what it has seen of the unit's history, and the one right to add the session's entries. Contracts see
/// the unit's place, the session's number, the serial of its next command, and the entries that it has seen.
pub type Pass<B, F, O, N> = SessionPass<Noted, Opened, Unit<B, F, O>, N>;

/// A legal history that was seen of a unit. Contracts see the unit's place and the entries.
pub type LegalHistory<B, F, O, N> = Seen<Noted, Opened, Unit<B, F, O>, N>;

/// The board that shows a unit.
pub type Board<B, F, O, N, const U: usize> = StatusBoard<
    Noted,
    Opened,
    Unit<B, F, O>,
    At<Opened, N, U>,
>;

/// A reader's seat at the board of a unit. Contracts see the history whose row it read last.
pub type Seat<B, F, O, N, const U: usize> = BoardSeat<
    Noted,
    Opened,
    Unit<B, F, O>,
    At<Opened, N, U>,
>;

/// The unit at a place of an array, which all threads share: each call of any session is one step of it, at one point of one
/// history.
pub struct SharedUnit<B: Blocks, F: Blocks, O: Opener<B>, N: ArrayNaming<Opened>, const U: usize> {
    unit: unit_lock::LockedUnit<Noted, Opened, Unit<B, F, O>, N, U>,
}

impl<
    B: Blocks + Drop,
    F: Blocks + Drop,
    O: Opener<B> + Drop,
    N: ArrayNaming<Opened>,
    const U: usize,
> Drop for SharedUnit<B, F, O, N, U> {
    fn drop(self) {
        let Self { unit: _ } = self;
    }
}

impl<B: Blocks, F: Blocks, O: Opener<B>, N: ArrayNaming<Opened>, const U: usize> SharedUnit<
    B,
    F,
    O,
    N,
    U,
> {
    /// The unit under its name, and so many readers' seats at its board, which shows that it has no entry.
    pub fn new<W: Wait>(
        rt: &W,
        alloc: Global,
        new: NewUnit<B, F, O>,
        seats: usize,
    ) -> Result<(SharedUnit<B, F, O, N, U>, Vec<Seat<B, F, O, N, U>>), NoMemory>
        requires named { IsNamedAt N.book N.table N.opening B.contents U new }
        requires seats { seats ≤ MOST_SEATS }
        ensures { IfOk result (λ r. (length r.1.items ≡ seats) × All (λ seat. seat ≡ []) r.1.items) }
    {
        let NewUnit { posted, unit } = new;
        a_unit_that_opened_has_the_history_without_an_entry::<B, F, O, N, U>(&unit);
        match unit_lock::LockedUnit::new(rt, alloc, posted, unit, seats) {
            Ok((unit, seats)) => Ok((SharedUnit { unit }, seats)),
            Err(_) => Err(NoMemory),
        }
    }

    /// The board that shows the unit.
    pub fn board(&self) -> &Board<B, F, O, N, U> {
        self.unit.board()
    }

    /// Attaches a session of this port by this group, and ends one that the nexus had. Refused, 64 sessions of other nexuses are
    /// attached, or the history has its last length.
    pub fn attach<W: Wait>(
        &self,
        rt: &W,
        port: PortName,
        group: Group,
    ) -> Result<Pass<B, F, O, N>, LegalHistory<B, F, O, N>>
        ensures attached { IfOk result (λ p. (p.place ≡ U)
            × HasAttached (O.claims && B.claims) (N.opening U) (through port group) p.pass) }
        ensures full { IfErr result (λ f. (f.0 ≡ U)
            × HasNoRoom (O.claims && B.claims) (N.opening U) (through port group) f.1) }
    {
        self.unit.attach(rt, Arrival { port, group })
    }

    /// Serves a command of the session that came by this group, with the data that came for it.
    pub fn serve<W: Wait>(
        &self,
        rt: &W,
        pass: Pass<B, F, O, N>,
        room: ReplyMemory,
        by_group: &Group,
        asked: &Asked,
        bytes: &[u8],
    ) -> (Pass<B, F, O, N>, Result<Reply, Refused<Group>>)
        requires { pass.place ≡ U }
        ensures place { result.0.place ≡ U }
        ensures served { IfOk result.1 (λ reply. HasServed (O.claims && B.claims) (N.opening U) pass.pass result.0.pass
            by_group.now asked.now bytes.now reply) }
        ensures worked { IfOk result.1 (λ reply. HasWorked (devices B.Blocks F.Blocks O.Opener) (N.opening U)
            pass.pass.session asked.now bytes.now reply result.0.pass.seen) }
        ensures refused { IfErr result.1 (λ why. HasRefused (O.claims && B.claims) (N.opening U) pass.pass result.0.pass
            by_group.now asked.now bytes.now why) }
    {
        self.unit.serve(rt, pass, room, by_group, asked, bytes)
    }

    /// Resets the unit for the session (SAM-5, logical unit reset). False: the session is gone.
    pub fn reset<W: Wait>(&self, rt: &W, pass: Pass<B, F, O, N>) -> (Pass<B, F, O, N>, bool)
        requires { pass.place ≡ U }
        ensures place { result.0.place ≡ U }
        ensures done { MatchBool result.1 (HasReset (O.claims && B.claims) (N.opening U) pass.pass result.0.pass)
            (WasGone (O.claims && B.claims) (N.opening U) pass.pass result.0.pass) }
    {
        self.unit.reset(rt, pass)
    }

    /// Ends the session. Refused, it is gone.
    pub fn retire<W: Wait>(
        &self,
        rt: &W,
        pass: Pass<B, F, O, N>,
    ) -> Result<LegalHistory<B, F, O, N>, Pass<B, F, O, N>>
        requires { pass.place ≡ U }
        ensures done { IfOk result (λ f. (f.0 ≡ U) × HasRetired (O.claims && B.claims) (N.opening U) pass.pass f.1) }
        ensures gone { IfErr result (λ p. (p.place ≡ U) × WasGone (O.claims && B.claims) (N.opening U) pass.pass p.pass) }
    {
        self.unit.retire(rt, pass)
    }

    /// Moves the unit as a parameter list of SET TARGET PORT GROUPS says, without a session, or tells why it stays.
    pub fn move_to<W: Wait>(
        &self,
        rt: &W,
        list: &[u8],
    ) -> (LegalHistory<B, F, O, N>, Result<Change, MoveFault>)
        ensures place { result.0.0 ≡ U }
        ensures moved { IfOk result.1 (λ told. HasMoved (devices B.Blocks F.Blocks O.Opener) (N.opening U) list.now result.0.1 told) }
        ensures stays { IfErr result.1 (λ why. HasStayed (devices B.Blocks F.Blocks O.Opener) (N.opening U) list.now result.0.1 why) }
    {
        self.unit.move_to(rt, list)
    }

    /// Both sessions have then seen what either had: one legal history. It waits for nobody.
    pub fn merge_seen(
        &self,
        one: Pass<B, F, O, N>,
        two: Pass<B, F, O, N>,
    ) -> (Pass<B, F, O, N>, Pass<B, F, O, N>)
        requires { (one.place ≡ U) × (two.place ≡ U) }
        ensures places { (result.0.place ≡ U) × (result.1.place ≡ U) }
        ensures merged { HaveMerged (O.claims && B.claims) (N.opening U) one.pass two.pass result.0.pass result.1.pass }
    {
        self.unit.merge_seen(one, two)
    }

    /// Another value of the unit's registry, which a legal history left. None: a command has the unit for long, or there was no
    /// memory. It is no entry, and waits for nobody.
    pub fn registry(&self) -> Option<Registry>
        ensures { IfSome result (IsRegistry (O.claims && B.claims) (N.opening U)) }
    {
        self.unit.registrations()
    }

    /// Makes what was written last: after a success there was a legal history behind which a crash left the blocks that the
    /// unit held. It is no entry.
    pub fn flush<W: Wait>(&self, rt: &W) -> Result<(), DeviceFailed>
        ensures { HasFlushed (devices B.Blocks F.Blocks O.Opener) (N.opening U) result }
    {
        self.unit.flush(rt)
    }
}
