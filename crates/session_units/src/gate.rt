//! The gate of a portal: what makes a disk ready before its unit is asked, and flushes it behind.
ghost use Rattle.std.specs.Prelude.{ℕ, Bool, IsTrue, false};
ghost use Rattle.session_units.specs.Disks.{AreOver, no_file};
ghost use Rattle.unit_lock.specs.Calls.{PlacedPass};
ghost use Rattle.unit_control.specs.Entry.{Entry};

use crate::units::Pass;
use block_file::{BLOCK_LENGTH, ReplyMemory};
use disk_preparer::{Account, Preparer};
use scsi_types::{Asked, Command};
use std::marker::{Brand, Model, PhantomData};
use std::time::Duration;

/// So many seconds a command waits at most for room, before its unit is asked.
const PATIENCE_SECONDS: u64 = 8;

/// What each command passes before its unit is asked, and what flushes behind it, where the unit was asked without the flush. It makes no
/// reply: it can only keep a command waiting, and say that its flush has failed.
pub trait Gate {
    /// Whether flushes are ever left to it.
    ghost is_late: { Bool };

    /// A flush is done that began when a session's pass was this. That it began then follows from who may say it: a call of
    /// `flush_behind` alone.
    ghost lasts: { PlacedPass Entry → Type 0 };

    /// The command of a session with this account at the unit of this place is about to be submitted: where it writes, and much is
    /// written that is not flushed, it waits first. No lock is held meanwhile.
    fn let_in(&self, _unit: usize, _asked: &Asked, _account: &mut Account) {}

    /// Waits until much was written to the unit at this place, one of so many, and flushes it. False: nothing is flushed so any more.
    fn flush_when_due(&self, _unit: usize, _among: u64) -> bool {
        false
    }

    /// Nothing is from now on.
    fn close(&self) {}

    /// The command with this serial of a session is about to be submitted to the unit at this place: what it needs is fetched first,
    /// unless it is read by `read`.
    fn fetch(&self, unit: usize, serial: u64, asked: &Asked);

    /// Of a READ without FUA: its blocks are read beside the unit, into the memory that is ready in this room, where that can be done. The
    /// unit takes them if no write has ended since, and else reads them once more.
    fn read(&self, _unit: usize, _serial: u64, _asked: &Asked, room: ReplyMemory) -> ReplyMemory {
        room
    }

    /// Whether it has a use for commands that wait to be served.
    fn wants_prefetch(&self) -> bool {
        false
    }

    /// A command of this unit waits to be served: what it needs may be fetched meanwhile.
    fn prefetch(&self, _unit: u8, _asked: &Asked) {}

    /// Whether the flushes of the commands of the unit at this place are left to it.
    fn flushes_behind(&self, unit: usize) -> bool
        ensures { IsTrue result → IsTrue is_late };

    /// Makes all last that was written to a pass's unit until now, behind a command of its session. False: this flush has failed, or
    /// one before it.
    fn flush_behind<P: Pass>(&self, pass: &P) -> bool
        ensures { IsTrue result → lasts (P.held pass.now) };
}

/// Which file is the disk of the unit at a place of an array.
pub trait Disks {
    ghost use Rattle.disk_preparer.specs.declared.Node.{Node};

    ghost disk: { ℕ → Node };
}

// A name that the caller of `serve` picks: its own meaning is never used.
impl Disks for Brand {
    ghost disk = { λ place. no_file };
}

/// The gate over disks: each unit's disk is made ready for what is to come, and flushed, by a preparer of its own. Contracts see
/// the preparers.
#[derive(Drop)]
pub struct Prepared<P: Preparer, N: Disks> {
    of: Vec<P>,
    disks: PhantomData<N>,
}

impl<P: Preparer, N: Disks> Model for Prepared<P, N> {
    ghost use Rattle.std.specs.Prelude.{List};
    ghost use Rattle.session_units.specs.Disks.{AreOver};

    ghost Value = { List P };

    ghost view = { λ g. g.of.items };

    ghost invariant = { λ g. AreOver P.disk N.disk g.of.items };
}

impl<P: Preparer, N: Disks> Prepared<P, N> {
    /// The gate before units with these preparers, in order: each is of the disk of the unit at its place.
    pub fn new(of: Vec<P>) -> Prepared<P, N>
        requires { AreOver P.disk N.disk of.items }
    {
        Prepared {
            of,
            disks: PhantomData,
        }
    }
}

// How many bytes a command writes at most.
fn written_by(asked: &Asked) -> u64 {
    match asked {
        Ok(Command::Write { blocks, .. }) => BLOCK_LENGTH as u64 * u64::from(*blocks),
        Ok(Command::CompareAndWrite { blocks, .. }) => BLOCK_LENGTH as u64 * u64::from(*blocks),
        _ => 0,
    }
}

impl<P: Preparer, N: Disks> Gate for Prepared<P, N> {
    ghost is_late = { P.may_flush };

    ghost lasts = { λ pass. P.has_flushed (N.disk pass.place) };

    fn let_in(&self, unit: usize, asked: &Asked, account: &mut Account) {
        let bytes = written_by(asked);
        if bytes > 0
            && let Some(preparer) = self.of.get(unit)
        {
            preparer.let_in(bytes, account, Duration::from_secs(PATIENCE_SECONDS));
        }
    }

    fn flush_when_due(&self, unit: usize, among: u64) -> bool {
        let Some(preparer) = self.of.get(unit) else {
            return false;
        };
        let is_due = preparer.await_flush(among);
        if is_due {
            // One that fails is told to the log by its preparer, and to the next command that flushes.
            let _ = preparer.flush();
        }
        is_due
    }

    fn close(&self) {
        for preparer in &self.of {
            preparer.close();
        }
    }

    fn fetch(&self, unit: usize, serial: u64, asked: &Asked) {
        let Some(preparer) = self.of.get(unit) else {
            return;
        };
        match asked {
            // `read` asks `wants` for these: it is asked once for each command, since asking may reset what it looks at.
            Ok(Command::Read { fua: false, .. }) => return,
            Ok(Command::Write { lba, blocks, .. }) => preparer.touch(serial, *lba, *blocks),
            _ => {}
        }
        if !preparer.wants(serial) {
            return;
        }
        match asked {
            Ok(
                Command::Read {
                    lba,
                    blocks,
                    fua: true,
                },
            ) => preparer.fetch(*lba, *blocks),
            Ok(Command::Write { lba, blocks, .. }) => preparer.fetch_edges(*lba, *blocks),
            Ok(Command::CompareAndWrite { lba, blocks, .. }) => preparer.fetch(*lba, *blocks),
            _ => {}
        }
    }

    // Not of a READ with FUA, which the unit reads itself, behind its flush. Where no memory is ready, the blocks are only fetched.
    fn read(&self, unit: usize, serial: u64, asked: &Asked, room: ReplyMemory) -> ReplyMemory {
        let (lba, blocks) = match asked {
            Ok(
                Command::Read {
                    lba,
                    blocks,
                    fua: false,
                },
            ) => (*lba, *blocks),
            _ => return room,
        };
        let Some(preparer) = self.of.get(unit) else {
            return room;
        };
        let (alloc, is_wanted) = (room.alloc(), preparer.wants(serial));
        let Some(ready) = room.into_ready() else {
            if is_wanted {
                preparer.fetch(lba, blocks);
            }
            return ReplyMemory::new(alloc);
        };
        match preparer.read(lba, ready.bytes, is_wanted) {
            Some(memory) => ReplyMemory::with(alloc, memory),
            None => ReplyMemory::new(alloc),
        }
    }

    // As long as any disk is slow, commands of all units are told.
    fn wants_prefetch(&self) -> bool {
        for preparer in &self.of {
            if preparer.wants_hints() {
                return true;
            }
        }
        false
    }

    fn prefetch(&self, unit: u8, asked: &Asked) {
        let Some(preparer) = self.of.get(usize::from(unit)) else {
            return;
        };
        match asked {
            Ok(Command::Read { lba, blocks, .. }) => preparer.advise(*lba, *blocks),
            Ok(Command::CompareAndWrite { lba, blocks, .. }) => preparer.advise(*lba, *blocks),
            Ok(Command::Write { lba, blocks, .. }) => preparer.advise_edges(*lba, *blocks),
            _ => {}
        }
    }

    fn flushes_behind(&self, unit: usize) -> bool {
        match self.of.get(unit) {
            Some(preparer) => preparer.flushes(),
            None => false,
        }
    }

    fn flush_behind<Q: Pass>(&self, pass: &Q) -> bool {
        match self.of.get(pass.place()) {
            Some(preparer) => preparer.flush(),
            None => false,
        }
    }
}
