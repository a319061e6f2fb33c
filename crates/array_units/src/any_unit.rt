//! A unit at a place that is known when it runs.
ghost use Rattle.std.specs.Prelude.{◌≡◌, ◌&&◌, IfOk, IfErr, IfSome, MatchBool, List};
ghost use Rattle.registrants.specs.Nexus.{through};
ghost use Rattle.unit_history.specs.Calls.{HasAttached, HasNoRoom, HasServed, HasRefused, HasReset, WasGone, HasRetired};
ghost use Rattle.unit_history.specs.Calls.{HasFlushed, HasMoved, HasStayed, HasWorked, IsRegistry};
ghost use Rattle.unit_entries.specs.Devices.{devices};
ghost use Rattle.array_units.specs.Places.{place_of};
ghost use Rattle.array_units.specs.Rows.{IsRead};

use access_states::Change;
use block_file::{Blocks, DeviceFailed, Opener, ReplyMemory};
use reservations::Registry;
use scsi_types::{Asked, Group, PortName, Reply};
use status::Row;
use std::sync::{Mutex, Wait};
use unit_history::{LegalHistory, Opened, Pass, Seat, SharedUnit};
use unit_lock::Refused;
use unit_sequence::ArrayNaming;
use unit_state::MoveFault;

/// A shared unit, and a reader's seat at its board.
#[derive(Drop)]
pub struct Seated<B: Blocks, F: Blocks, O: Opener<B>, N: ArrayNaming<Opened>, const U: usize> {
    pub(crate) unit: SharedUnit<B, F, O, N, U>,
    pub(crate) seat: Mutex<Seat<B, F, O, N, U>>,
}

impl<B: Blocks, F: Blocks, O: Opener<B>, N: ArrayNaming<Opened>, const U: usize> Seated<
    B,
    F,
    O,
    N,
    U,
> {
    /// What the board shows. The lock is the reader's own.
    fn read<W: Wait>(&self, rt: &W) -> Row
        ensures { IsRead (O.claims && B.claims) (N.opening U) U result }
    {
        let mut seat = self.seat.lock(rt);
        self.unit.board().read(rt, &mut seat)
    }
}

/// A shared unit, by its place.
#[derive(Drop)]
pub enum AnyUnit<B: Blocks, F: Blocks, O: Opener<B>, N: ArrayNaming<Opened>> {
    Zero(Seated<B, F, O, N, 0>),
    One(Seated<B, F, O, N, 1>),
    Two(Seated<B, F, O, N, 2>),
    Three(Seated<B, F, O, N, 3>),
    Four(Seated<B, F, O, N, 4>),
    Five(Seated<B, F, O, N, 5>),
    Six(Seated<B, F, O, N, 6>),
    Seven(Seated<B, F, O, N, 7>),
}

/// The call of the unit, whichever it is.
macro_rules! each {
    ($self:expr, $unit:ident, $call:expr) => {
        match $self {
            AnyUnit::Zero($unit) => $call,
            AnyUnit::One($unit) => $call,
            AnyUnit::Two($unit) => $call,
            AnyUnit::Three($unit) => $call,
            AnyUnit::Four($unit) => $call,
            AnyUnit::Five($unit) => $call,
            AnyUnit::Six($unit) => $call,
            AnyUnit::Seven($unit) => $call,
        }
    };
}

impl<B: Blocks, F: Blocks, O: Opener<B>, N: ArrayNaming<Opened>> AnyUnit<B, F, O, N> {
    /// Attaches a session of this port by this group, as [`SharedUnit::attach`].
    pub(crate) fn attach<W: Wait>(
        &self,
        rt: &W,
        port: PortName,
        group: Group,
    ) -> Result<Pass<B, F, O, N>, LegalHistory<B, F, O, N>>
        ensures attached { IfOk result (λ p. (p.place ≡ place_of self.now)
            × HasAttached (O.claims && B.claims) (N.opening (place_of self.now)) (through port group) p.pass) }
        ensures full { IfErr result (λ f. (f.0 ≡ place_of self.now)
            × HasNoRoom (O.claims && B.claims) (N.opening (place_of self.now)) (through port group) f.1) }
    {
        each!(self, seated, seated.unit.attach(rt, port, group))
    }

    /// Serves a command of the session, as [`SharedUnit::serve`].
    pub(crate) fn serve<W: Wait>(
        &self,
        rt: &W,
        pass: Pass<B, F, O, N>,
        room: ReplyMemory,
        by_group: &Group,
        asked: &Asked,
        bytes: &[u8],
    ) -> (Pass<B, F, O, N>, Result<Reply, Refused<Group>>)
        requires { pass.place ≡ place_of self.now }
        ensures place { result.0.place ≡ place_of self.now }
        ensures served { IfOk result.1 (λ reply. HasServed (O.claims && B.claims) (N.opening (place_of self.now)) pass.pass
            result.0.pass by_group.now asked.now bytes.now reply) }
        ensures worked { IfOk result.1 (λ reply. HasWorked (devices B.Blocks F.Blocks O.Opener) (N.opening (place_of self.now))
            pass.pass.session asked.now bytes.now reply result.0.pass.seen) }
        ensures refused { IfErr result.1 (λ why. HasRefused (O.claims && B.claims) (N.opening (place_of self.now)) pass.pass
            result.0.pass by_group.now asked.now bytes.now why) }
    {
        each!(
            self,
            seated,
            seated.unit.serve(rt, pass, room, by_group, asked, bytes)
        )
    }

    /// Resets the unit for the session, as [`SharedUnit::reset`].
    pub(crate) fn reset<W: Wait>(&self, rt: &W, pass: Pass<B, F, O, N>) -> (Pass<B, F, O, N>, bool)
        requires { pass.place ≡ place_of self.now }
        ensures place { result.0.place ≡ place_of self.now }
        ensures done { MatchBool result.1
            (HasReset (O.claims && B.claims) (N.opening (place_of self.now)) pass.pass result.0.pass)
            (WasGone (O.claims && B.claims) (N.opening (place_of self.now)) pass.pass result.0.pass) }
    {
        each!(self, seated, seated.unit.reset(rt, pass))
    }

    /// Ends the session, as [`SharedUnit::retire`].
    pub(crate) fn retire<W: Wait>(
        &self,
        rt: &W,
        pass: Pass<B, F, O, N>,
    ) -> Result<LegalHistory<B, F, O, N>, Pass<B, F, O, N>>
        requires { pass.place ≡ place_of self.now }
        ensures done { IfOk result (λ f. (f.0 ≡ place_of self.now)
            × HasRetired (O.claims && B.claims) (N.opening (place_of self.now)) pass.pass f.1) }
        ensures gone { IfErr result (λ p. (p.place ≡ place_of self.now)
            × WasGone (O.claims && B.claims) (N.opening (place_of self.now)) pass.pass p.pass) }
    {
        each!(self, seated, seated.unit.retire(rt, pass))
    }

    /// Moves the unit as a list says, as [`SharedUnit::move_to`].
    pub(crate) fn move_to<W: Wait>(
        &self,
        rt: &W,
        list: &[u8],
    ) -> (LegalHistory<B, F, O, N>, Result<Change, MoveFault>)
        ensures place { result.0.0 ≡ place_of self.now }
        ensures moved { IfOk result.1 (λ told.
            HasMoved (devices B.Blocks F.Blocks O.Opener) (N.opening (place_of self.now)) list.now result.0.1 told) }
        ensures stays { IfErr result.1 (λ why.
            HasStayed (devices B.Blocks F.Blocks O.Opener) (N.opening (place_of self.now)) list.now result.0.1 why) }
    {
        each!(self, seated, seated.unit.move_to(rt, list))
    }

    /// Another value of its registry, as [`SharedUnit::registry`].
    pub(crate) fn registry(&self) -> Option<Registry>
        ensures { IfSome result (IsRegistry (O.claims && B.claims) (N.opening (place_of self.now))) }
    {
        each!(self, seated, seated.unit.registry())
    }

    /// Makes what was written last, as [`SharedUnit::flush`].
    pub(crate) fn flush<W: Wait>(&self, rt: &W) -> Result<(), DeviceFailed>
        ensures { HasFlushed (devices B.Blocks F.Blocks O.Opener) (N.opening (place_of self.now)) result }
    {
        each!(self, seated, seated.unit.flush(rt))
    }

    /// What the board shows.
    pub(crate) fn read<W: Wait>(&self, rt: &W) -> Row
        ensures { IsRead (O.claims && B.claims) (N.opening (place_of self.now)) (place_of self.now) result }
    {
        each!(self, seated, seated.read(rt))
    }
}
