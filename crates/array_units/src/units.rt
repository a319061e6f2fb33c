//! The units of an array.
ghost use Rattle.std.specs.Prelude.{◌≡◌, ◌+◌, ◌<◌, ◌≤◌, ◌&&◌, length, IfOk, IfErr, IfSome, OnOk, MatchBool};
ghost use Rattle.registrants.specs.Nexus.{through};
ghost use Rattle.unit_history.specs.Calls.{HasAttached, HasNoRoom, HasServed, HasRefused, HasReset, WasGone, HasRetired};
ghost use Rattle.unit_history.specs.Calls.{HasFlushed, HasMoved, HasStayed, HasWorked, IsRegistry};
ghost use Rattle.unit_entries.specs.Devices.{devices};
ghost use Rattle.unit_history.specs.Naming.{IsNamed, IsNamedAt};
ghost use Rattle.array_units.specs.Places.{AreInOrder, place_of};
ghost use Rattle.array_units.specs.Rows.{IsRead};

use crate::any_unit::{AnyUnit, Seated};
use access_states::Change;
use block_file::{Blocks, DeviceFailed, Opener, ReplyMemory};
use crossbeam_utils::CachePadded;
use reservations::Registry;
use scsi_types::{Asked, Group, NoMemory, PortName, Reply};
use status::Row;
use std::alloc::Global;
use std::marker::Model;
use std::sync::{Mutex, Wait};
use unit_history::{LegalHistory, NewUnit, Opened, Pass, SharedUnit};
use unit_lock::Refused;
use unit_sequence::ArrayNaming;
use unit_state::MoveFault;

/// The most units of an array.
pub const MOST_UNITS: usize = 8;

/// Units 0 to n-1 of an array, which all threads share, none on a cache line of another. Contracts see how many there
/// are.
pub struct Units<B: Blocks, F: Blocks, O: Opener<B>, N: ArrayNaming<Opened>> {
    units: Vec<CachePadded<AnyUnit<B, F, O, N>>>,
}

impl<B: Blocks, F: Blocks, O: Opener<B>, N: ArrayNaming<Opened>> Drop for Units<B, F, O, N> {
    fn drop(self) {
        let Self { units: _ } = self;
    }
}

impl<B: Blocks, F: Blocks, O: Opener<B>, N: ArrayNaming<Opened>> Model for Units<B, F, O, N> {
    ghost use Rattle.std.specs.Prelude.{ℕ, ◌≤◌, length};
    ghost use Rattle.array_units.specs.Places.{AreInOrder};

    ghost Value = { ℕ };

    ghost view = { λ u. length u.units.items };

    ghost invariant = { λ u. AreInOrder u.units.items × (length u.units.items ≤ 8) };
}

/// The unit at a place under its name, with a reader's seat at its board.
fn seated<B: Blocks, F: Blocks, O: Opener<B>, N: ArrayNaming<Opened>, const U: usize, W: Wait>(
    rt: &W,
    alloc: Global,
    new: NewUnit<B, F, O>,
) -> Result<Seated<B, F, O, N, U>, NoMemory>
    requires { IsNamedAt N.book N.table N.opening B.contents U new }
{
    let (unit, mut seats) = SharedUnit::new(rt, alloc, new, 1)?;
    let Some(seat) = seats.pop() else {
        unreachable!()
    };
    Ok(Seated {
        unit,
        seat: Mutex::new(seat),
    })
}

/// The unit at a place that is known when it runs.
fn any_seated<B: Blocks, F: Blocks, O: Opener<B>, N: ArrayNaming<Opened>, W: Wait>(
    rt: &W,
    alloc: Global,
    place: usize,
    new: NewUnit<B, F, O>,
) -> Result<AnyUnit<B, F, O, N>, NoMemory>
    requires named { IsNamedAt N.book N.table N.opening B.contents place new }
    requires place { place < 8 }
    ensures { IfOk result (λ unit. place_of unit ≡ place) }
{
    macro_rules! seat {
        ($variant:ident) => {
            match seated(rt, alloc, new) {
                Ok(unit) => Ok(AnyUnit::$variant(unit)),
                Err(why) => Err(why),
            }
        };
    }
    match place {
        0 => seat!(Zero),
        1 => seat!(One),
        2 => seat!(Two),
        3 => seat!(Three),
        4 => seat!(Four),
        5 => seat!(Five),
        6 => seat!(Six),
        7 => seat!(Seven),
        _ => unreachable!(),
    }
}

/// Puts the next unit under its name behind those that are there. Refused, it is dropped.
fn seat_next<B: Blocks, F: Blocks, O: Opener<B>, N: ArrayNaming<Opened>, W: Wait>(
    rt: &W,
    alloc: Global,
    units: &mut Vec<CachePadded<AnyUnit<B, F, O, N>>>,
    new: NewUnit<B, F, O>,
) -> Result<(), NoMemory>
    requires named { IsNamedAt N.book N.table N.opening B.contents (length units.old.items) new }
    requires place { length units.old.items < 8 }
    requires order { AreInOrder units.old.items }
    ensures order { OnOk result (AreInOrder units.new.items) }
    ensures count { OnOk result (length units.new.items ≡ length units.old.items + 1) }
{
    let unit = any_seated(rt, alloc, units.len(), new)?;
    units.push(CachePadded::new(unit))?;
    Ok(())
}

impl<B: Blocks, F: Blocks, O: Opener<B>, N: ArrayNaming<Opened>> Units<B, F, O, N> {
    /// These units under their names, in their order. Refused, they are dropped.
    pub fn new<W: Wait>(
        rt: &W,
        alloc: Global,
        new: Vec<NewUnit<B, F, O>>,
    ) -> Result<Units<B, F, O, N>, NoMemory>
        requires named { IsNamed N.book N.table N.opening B.contents new.items }
        requires count { length new.items ≤ 8 }
        ensures { IfOk result (λ units. units ≡ length new.items) }
    {
        let mut new = new;
        let mut units = Vec::new(alloc);
        for _place in 0..new.len() {
            seat_next(rt, alloc, &mut units, new.remove(0))?;
        }
        Ok(Units { units })
    }

    /// How many units there are.
    pub fn count(&self) -> usize
        ensures count { result ≡ self.now }
        ensures few { result ≤ 8 }
    {
        self.units.len()
    }

    /// The unit at a place.
    fn at(&self, place: usize) -> &AnyUnit<B, F, O, N>
        requires { place < self.now }
        ensures { place_of result.now ≡ place }
    {
        &self.units[place]
    }

    /// Attaches a session of this port by this group to the unit at a place, as [`unit_history::SharedUnit::attach`].
    pub fn attach<W: Wait>(
        &self,
        rt: &W,
        place: usize,
        port: PortName,
        group: Group,
    ) -> Result<Pass<B, F, O, N>, LegalHistory<B, F, O, N>>
        requires place { place < self.now }
        ensures attached { IfOk result (λ p. (p.place ≡ place)
            × HasAttached (O.claims && B.claims) (N.opening place) (through port group) p.pass) }
        ensures full { IfErr result (λ f. (f.0 ≡ place)
            × HasNoRoom (O.claims && B.claims) (N.opening place) (through port group) f.1) }
    {
        self.at(place).attach(rt, port, group)
    }

    /// Serves a command of the session, as [`unit_history::SharedUnit::serve`].
    pub fn serve<W: Wait>(
        &self,
        rt: &W,
        pass: Pass<B, F, O, N>,
        room: ReplyMemory,
        by_group: &Group,
        asked: &Asked,
        bytes: &[u8],
    ) -> (Pass<B, F, O, N>, Result<Reply, Refused<Group>>)
        requires { pass.place < self.now }
        ensures place { result.0.place ≡ pass.place }
        ensures served { IfOk result.1 (λ reply. HasServed (O.claims && B.claims) (N.opening pass.place) pass.pass
            result.0.pass by_group.now asked.now bytes.now reply) }
        ensures worked { IfOk result.1 (λ reply. HasWorked (devices B.Blocks F.Blocks O.Opener) (N.opening pass.place)
            pass.pass.session asked.now bytes.now reply result.0.pass.seen) }
        ensures refused { IfErr result.1 (λ why. HasRefused (O.claims && B.claims) (N.opening pass.place) pass.pass
            result.0.pass by_group.now asked.now bytes.now why) }
    {
        let place = pass.place();
        self.at(place).serve(rt, pass, room, by_group, asked, bytes)
    }

    /// Resets the unit of the session, as [`unit_history::SharedUnit::reset`].
    pub fn reset<W: Wait>(&self, rt: &W, pass: Pass<B, F, O, N>) -> (Pass<B, F, O, N>, bool)
        requires { pass.place < self.now }
        ensures place { result.0.place ≡ pass.place }
        ensures done { MatchBool result.1
            (HasReset (O.claims && B.claims) (N.opening pass.place) pass.pass result.0.pass)
            (WasGone (O.claims && B.claims) (N.opening pass.place) pass.pass result.0.pass) }
    {
        let place = pass.place();
        self.at(place).reset(rt, pass)
    }

    /// Ends the session, as [`unit_history::SharedUnit::retire`].
    pub fn retire<W: Wait>(
        &self,
        rt: &W,
        pass: Pass<B, F, O, N>,
    ) -> Result<LegalHistory<B, F, O, N>, Pass<B, F, O, N>>
        requires { pass.place < self.now }
        ensures done { IfOk result (λ f. (f.0 ≡ pass.place)
            × HasRetired (O.claims && B.claims) (N.opening pass.place) pass.pass f.1) }
        ensures gone { IfErr result (λ p. (p.place ≡ pass.place)
            × WasGone (O.claims && B.claims) (N.opening pass.place) pass.pass p.pass) }
    {
        let place = pass.place();
        self.at(place).retire(rt, pass)
    }

    /// Moves the unit at a place as a list says, as [`unit_history::SharedUnit::move_to`].
    pub fn move_to<W: Wait>(
        &self,
        rt: &W,
        place: usize,
        list: &[u8],
    ) -> (LegalHistory<B, F, O, N>, Result<Change, MoveFault>)
        requires { place < self.now }
        ensures place { result.0.0 ≡ place }
        ensures moved { IfOk result.1 (λ told.
            HasMoved (devices B.Blocks F.Blocks O.Opener) (N.opening place) list.now result.0.1 told) }
        ensures stays { IfErr result.1 (λ why.
            HasStayed (devices B.Blocks F.Blocks O.Opener) (N.opening place) list.now result.0.1 why) }
    {
        self.at(place).move_to(rt, list)
    }

    /// Another value of the registry of the unit at a place, as [`unit_history::SharedUnit::registry`].
    pub fn registry(&self, place: usize) -> Option<Registry>
        requires { place < self.now }
        ensures { IfSome result (IsRegistry (O.claims && B.claims) (N.opening place)) }
    {
        self.at(place).registry()
    }

    /// Makes what was written to the unit at a place last, as [`unit_history::SharedUnit::flush`].
    pub fn flush<W: Wait>(&self, rt: &W, place: usize) -> Result<(), DeviceFailed>
        requires { place < self.now }
        ensures { HasFlushed (devices B.Blocks F.Blocks O.Opener) (N.opening place) result }
    {
        self.at(place).flush(rt)
    }

    /// What the board of the unit at a place shows: the row of a legal history, which begins with that of each row that its reader's
    /// seat had read before. It does not wait for the unit's lock.
    pub fn read<W: Wait>(&self, rt: &W, place: usize) -> Row
        requires { place < self.now }
        ensures { IsRead (O.claims && B.claims) (N.opening place) place result }
    {
        self.at(place).read(rt)
    }
}
