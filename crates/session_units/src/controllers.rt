//! The controllers of an array: its units, each under its lock, and the desk of each controller.
ghost use Rattle.std.specs.Prelude.{◌≡◌, IfOk};

use crate::units::{LogicalUnits, Pass, Unserved};
use array_units::Units;
use block_file::{Blocks, Opener, ReplyMemory};
use forwarding::Desk;
use scsi_types::{Asked, Group, NoMemory, PortName, Reply};
use std::alloc::Global;
use std::marker::Model;
use std::sync::Wait;
use unit_history::{LegalHistory, Opened, Pass as UnitPass};
use unit_sequence::ArrayNaming;

impl<B: Blocks, F: Blocks, O: Opener<B>, N: ArrayNaming<Opened>> Pass for UnitPass<B, F, O, N> {
    ghost held = { λ p. p };

    fn place(&self) -> usize {
        self.place()
    }

    fn next_serial(&self) -> u64 {
        self.serial()
    }
}

/// The units of an array, and a desk for each controller, to which sessions of both hand the commands of the units that it owns.
/// Contracts see how many units there are.
pub struct Controllers<B: Blocks, F: Blocks, O: Opener<B>, N: ArrayNaming<Opened>> {
    units: Units<B, F, O, N>,
    first: Desk<B, F, O, N>,
    second: Desk<B, F, O, N>,
}

impl<B: Blocks, F: Blocks, O: Opener<B>, N: ArrayNaming<Opened>> Drop for Controllers<B, F, O, N> {
    fn drop(self) {
        let Self {
            units: _,
            first: _,
            second: _,
        } = self;
    }
}

impl<B: Blocks, F: Blocks, O: Opener<B>, N: ArrayNaming<Opened>> Model for Controllers<B, F, O, N> {
    ghost use Rattle.std.specs.Prelude.{◌≡◌, ℕ};
    ghost use Rattle.scsi_types.specs.declared.names.Group.TheVariants.{One, Two};

    ghost Value = { ℕ };

    ghost view = { λ c. c.units };

    ghost invariant = { λ c. (c.first ≡ One) × (c.second ≡ Two) };
}

impl<B: Blocks, F: Blocks, O: Opener<B>, N: ArrayNaming<Opened>> Controllers<B, F, O, N> {
    /// Two controllers with these units. No lane is at their desks yet.
    pub fn new(alloc: Global, units: Units<B, F, O, N>) -> Result<Controllers<B, F, O, N>, NoMemory>
        ensures { IfOk result (λ controllers. controllers ≡ units) }
    {
        Ok(Controllers {
            units,
            first: Desk::new(alloc, Group::One)?,
            second: Desk::new(alloc, Group::Two)?,
        })
    }

    /// The units.
    pub fn units(&self) -> &Units<B, F, O, N>
        ensures { result.now ≡ self.now }
    {
        &self.units
    }

    /// The desk of a group's controller.
    pub fn desk(&self, group: Group) -> &Desk<B, F, O, N>
        ensures { result.now ≡ group }
    {
        match group {
            Group::One => &self.first,
            Group::Two => &self.second,
        }
    }

    /// Closes both desks: from now on they take no command. The lanes serve those that wait, and end.
    pub fn close<W: Wait>(&self, rt: &W) {
        self.first.close(rt);
        self.second.close(rt);
    }
}

impl<B: Blocks, F: Blocks, O: Opener<B>, N: ArrayNaming<Opened>> LogicalUnits
    for Controllers<B, F, O, N> {
    ghost use Rattle.unit_history.specs.Calls.{HasWorked};
    ghost use Rattle.unit_entries.specs.Devices.{claims_of, devices};
    ghost use Rattle.session_units.specs.Leaving.{has_left};

    type Right = UnitPass<B, F, O, N>;

    type History = LegalHistory<B, F, O, N>;

    ghost unit_count = { λ c. c };

    ghost claims = { record {
      contents = claims_of (devices B.Blocks F.Blocks O.Opener);
      worked = HasWorked (devices B.Blocks F.Blocks O.Opener);
      left = has_left;
    } };

    ghost opening = { N.opening };

    ghost seen = { λ s. s };

    fn count(&self) -> u8 {
        self.units.count() as u8
    }

    fn is_free(&self, unit: u8) -> bool {
        self.units.registry(usize::from(unit)).is_some()
    }

    fn in_one_history(one: &LegalHistory<B, F, O, N>, other: &LegalHistory<B, F, O, N>) {
        one.in_one_history(other);
    }

    fn attach<W: Wait>(
        &self,
        rt: &W,
        unit: u8,
        port: PortName,
        group: Group,
    ) -> Result<UnitPass<B, F, O, N>, LegalHistory<B, F, O, N>> {
        self.units.attach(rt, usize::from(unit), port, group)
    }

    // By way of the group's desk.
    fn serve<W: Wait>(
        &self,
        rt: &W,
        room: ReplyMemory,
        pass: UnitPass<B, F, O, N>,
        by_group: Group,
        asked: &Asked,
        bytes: &[u8],
    ) -> (UnitPass<B, F, O, N>, Result<Reply, Unserved>) {
        let desk = self.desk(by_group);
        match desk.serve(rt, room, &self.units, pass, asked, bytes) {
            (pass, Ok(Ok(reply))) => (pass, Ok(reply)),
            (pass, Ok(Err(why))) => (pass, Err(Unserved::ByUnit(why))),
            (pass, Err(fault)) => {
                // What its pass has seen is legal, as the place tells.
                let _place = pass.place();
                (pass, Err(Unserved::ByDesk(fault)))
            }
        }
    }

    fn reset<W: Wait>(&self, rt: &W, pass: UnitPass<B, F, O, N>) -> (UnitPass<B, F, O, N>, bool) {
        self.units.reset(rt, pass)
    }

    #[tactic(auto, using(crate::specs::Leaving::an_end_says))]
    fn retire<W: Wait>(&self, rt: &W, pass: UnitPass<B, F, O, N>) -> LegalHistory<B, F, O, N> {
        match self.units.retire(rt, pass) {
            Ok(seen) => seen,
            Err(gone) => gone.history(),
        }
    }
}
