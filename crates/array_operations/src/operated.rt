//! The array as its console sees it.
ghost use Rattle.std.specs.Prelude.{◌≡◌, []};

use access_states::Change;
use array_administration::Operations;
use array_units::Units;
use block_file::{Blocks, Opener};
use command_line::MAX_UNITS;
use event_log::Log;
use events::{Access, By, Event, Stayed};
use failover::{GroupsList, Mover, Moves, NotMoved, bring_up, preferred, take_down};
use scsi_types::Group;
use session_units::Controllers;
use status::Row;
use std::sync::Wait;
use std::time::Clock;
use unit_history::Opened;
use unit_sequence::ArrayNaming;
use unit_state::MoveFault;

/// The codes of the access states standby and unavailable (SPC-4, 5.15.2.2).
const STANDBY: u64 = 2;

const UNAVAILABLE: u64 = 3;

/// Both controllers, as the console sees them.
#[derive(Drop)]
pub struct Operated<
    'a,
    R: Wait + Clock,
    B: Blocks,
    F: Blocks,
    O: Opener<B>,
    N: ArrayNaming<Opened>,
> {
    pub rt: &'a R,
    pub controllers: &'a Controllers<B, F, O, N>,
    /// What happens is told to it.
    pub log: &'a Log,
}

// The number of the unit at a place.
fn number(place: usize) -> u8 {
    u8::try_from(place).unwrap_or(u8::MAX)
}

// Why a unit stays, as the log names it.
fn stayed(why: MoveFault) -> Stayed {
    match why {
        MoveFault::List(_) => Stayed::BadList,
        MoveFault::OpenFailed => Stayed::NotOpened,
        MoveFault::Gone => Stayed::Gone,
    }
}

// Whether a controller that comes up concerns a unit: it is not served by it, or prefers it and has another owner. Of no other
// does it move, so nothing of the other controller comes back.
fn concerns(controller: Group, place: usize, row: Row) -> bool {
    let state = match controller {
        Group::One => row.states.0,
        Group::Two => row.states.1,
    };
    let is_owner = row.owner == u64::from(controller.number());
    state == STANDBY || state == UNAVAILABLE || (preferred(place) == controller && !is_owner)
}

// What the parameter list of a move makes of both groups: the one whose state is active/optimized, and the states of the first and
// of the second (SPC-4, 6.45).
fn said_by(list: &GroupsList) -> (u16, Access, Access) {
    let one = (list[7], Access::of(u64::from(list[4])));
    let other = (list[11], Access::of(u64::from(list[8])));
    let owner = if list[4] == 0 { one.0 } else { other.0 };
    let (first, second) = if one.0 == 1 {
        (one.1, other.1)
    } else {
        (other.1, one.1)
    };
    (u16::from(owner), first, second)
}

// Whether a move changed the owner or the states.
fn has_changed(change: &Change) -> bool {
    let changed = change.changed;
    change.owner.is_some() || changed[0] || changed[1]
}

// One who moves units by another, and tells the log of each move that changed something, and of the unit that stays.
#[derive(Drop)]
struct ToldMoves<'a, R: Clock, M> {
    rt: &'a R,
    log: &'a Log,
    mover: M,
}

impl<R: Clock, M: Moves> ToldMoves<'_, R, M> {
    // Tells of a move of the unit at a place.
    fn tell(&self, place: usize, list: &GroupsList, end: Result<Change, MoveFault>) {
        let (owner, first, second) = said_by(list);
        let event = match end {
            Ok(change) if !has_changed(&change) => return,
            Ok(_) => Event::GroupsSet(number(place), owner, first, second, By::Console),
            Err(why) => Event::NotMoved(number(place), owner, stayed(why), By::Console),
        };
        self.log.tell(self.rt, &event);
    }
}

impl<R: Clock, M: Moves> Moves for ToldMoves<'_, R, M> {
    ghost unit_count = { λ m. M.unit_count m.mover };

    ghost asked = { λ m. M.asked m.mover };

    ghost made = { M.made };

    fn count(&self) -> usize {
        self.mover.count()
    }

    fn move_to<W: Wait>(
        &mut self,
        rt: &W,
        place: usize,
        list: &GroupsList,
    ) -> Result<Change, MoveFault> {
        let end = self.mover.move_to(rt, place, list);
        self.tell(place, list, end);
        end
    }
}

// The place of the unit that does not move, where one stays.
fn end_of(end: Result<(), NotMoved>) -> Result<(), usize> {
    match end {
        Ok(()) => Ok(()),
        Err(stays) => Err(stays.unit),
    }
}

/// The row of the unit at a place, where there is one.
pub(crate) fn row_at<R: Wait, B: Blocks, F: Blocks, O: Opener<B>, N: ArrayNaming<Opened>>(
    rt: &R,
    units: &Units<B, F, O, N>,
    place: usize,
) -> Option<Row> {
    if place >= units.count() {
        return None;
    }
    Some(units.read(rt, place))
}

impl<R: Wait + Clock, B: Blocks, F: Blocks, O: Opener<B>, N: ArrayNaming<Opened>> Operated<
    '_,
    R,
    B,
    F,
    O,
    N,
> {
    // Tells of the end of the array: once, where an administrator has ended it by the control socket.
    fn tell_end(&self, event: &Event<'_>) {
        if !self.log.has_quit() {
            self.log.tell(self.rt, event);
        }
    }

    // One who moves the units, and tells of it.
    fn mover(&self) -> ToldMoves<'_, R, Mover<'_, B, F, O, N>>
        ensures { result.mover.asked ≡ [] }
    {
        ToldMoves {
            rt: self.rt,
            log: self.log,
            mover: Mover::new(self.controllers.units()),
        }
    }

    /// Brings a controller up, unit by unit: each that prefers it gets it as its owner, and it is active/non-optimized for each
    /// other at which it was unavailable. What it owns already stays as it is. The first unit that does not move is told; those
    /// behind it stay.
    pub(crate) fn up(&mut self, controller: Group) -> Result<(), usize> {
        let units = self.controllers.units();
        let mut chosen = [false; MAX_UNITS];
        for (place, chosen) in chosen.iter_mut().enumerate() {
            if let Some(row) = row_at(self.rt, units, place) {
                *chosen = concerns(controller, place, row);
            }
        }
        end_of(bring_up(self.rt, &mut self.mover(), &chosen))
    }
}

impl<R: Wait + Clock, B: Blocks, F: Blocks, O: Opener<B>, N: ArrayNaming<Opened>> Operations
    for Operated<'_, R, B, F, O, N> {
    fn status(&mut self, unit: u8) -> Option<Row> {
        row_at(self.rt, self.controllers.units(), usize::from(unit))
    }

    fn down(&mut self, controller: Group) -> Result<(), usize> {
        end_of(take_down(self.rt, &mut self.mover(), controller))
    }

    fn close(&mut self) {
        self.tell_end(&Event::Stopping);
        self.controllers.close(self.rt);
    }

    fn flush(&mut self) -> Result<(), u8> {
        let units = self.controllers.units();
        let mut end = Ok(());
        for place in 0..units.count() {
            if units.flush(self.rt, place).is_err() {
                self.tell_end(&Event::NotFlushed(number(place)));
                end = end.and(Err(number(place)));
            }
        }
        end
    }
}
