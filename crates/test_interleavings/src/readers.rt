//! One unit whose board has as many readers as it has seats for: two sessions write in two threads while two others read by all
//! seats, and the sessions merge what they have seen when all threads have ended.
ghost use Rattle.std.specs.Prelude.{◌≡◌, IfSome};
ghost use Rattle.unit_history.specs.Naming.{IsNamedAt};

use crate::ends::must;
use block_file::{Blocks, FusedOpener, KeepOpener, MemBlocks, Opener, ReplyMemory};
use scsi_types::{Command, Group, PortName};
use status::MOST_SEATS;
use std::alloc::Global;
use std::marker::Brand;
use std::process::Abort;
use std::sync::Wait;
use std::test::*;
use std::thread::{Threads, join};
use test_memory::{Opens, new_unit};
use unit_history::{NewUnit, Opened, Pass, Seat, SharedUnit};
use unit_sequence::ArrayNaming;

/// A unit that threads share, sessions S of it, and readers' seats T at its board.
trait Shared<S, T> {
    /// The port of this ISID attaches.
    fn attach(&self, isid: u64) -> Option<S>;

    /// Whether a TEST UNIT READY of a session was served, however it was answered.
    fn serves(&self, session: &mut S) -> bool;

    /// How many entries the row tells of that a seat reads.
    fn read(&self, seat: &mut T) -> u64;

    /// How many entries a session has seen, or 0.
    fn seen(&self, session: &S) -> u64;

    /// Both sessions have then seen what either had: whether they could.
    fn merge_seen(&self, one: &mut S, two: &mut S) -> bool;
}

/// Such a unit, and what its calls want.
#[derive(Drop)]
struct Unit<W: Wait + Drop, B: Blocks, F: Blocks, O: Opener<B>, N: ArrayNaming<Opened>> {
    rt: W,
    alloc: Global,
    unit: SharedUnit<B, F, O, N, 0>,
}

/// A session. A call takes its pass out and puts it back.
#[derive(Drop)]
struct Session<B: Blocks, F: Blocks, O: Opener<B>, N: ArrayNaming<Opened>> {
    pass: Option<Pass<B, F, O, N>>,
}

impl<B: Blocks, F: Blocks, O: Opener<B>, N: ArrayNaming<Opened>> Session<B, F, O, N> {
    // Takes the pass out, which is one of unit 0.
    fn take(&mut self) -> Option<Pass<B, F, O, N>>
        ensures { IfSome result (λ pass. pass.place ≡ 0) }
    {
        let pass = self.pass.take()?;
        if pass.place() == 0 { Some(pass) } else { None }
    }
}

impl<W: Wait + Drop, B: Blocks, F: Blocks, O: Opener<B>, N: ArrayNaming<Opened>> Shared<
    Session<B, F, O, N>,
    Seat<B, F, O, N, 0>,
> for Unit<W, B, F, O, N> {
    fn attach(&self, isid: u64) -> Option<Session<B, F, O, N>> {
        let name = b"iqn.2000-01.test:a".to_vec(self.alloc).ok()?;
        let port = PortName::new(name, isid)?;
        let pass = self.unit.attach(&self.rt, port, Group::One).ok()?;
        Some(Session { pass: Some(pass) })
    }

    fn serves(&self, session: &mut Session<B, F, O, N>) -> bool {
        let Some(pass) = session.take() else {
            return false;
        };
        let asked = Ok(Command::TestUnitReady);
        let (pass, end) = self.unit.serve(
            &self.rt,
            pass,
            ReplyMemory::new(self.alloc),
            &Group::One,
            &asked,
            &[],
        );
        session.pass = Some(pass);
        end.is_ok()
    }

    fn read(&self, seat: &mut Seat<B, F, O, N, 0>) -> u64 {
        self.unit.board().read(&self.rt, seat).entries
    }

    fn seen(&self, session: &Session<B, F, O, N>) -> u64 {
        match &session.pass {
            Some(pass) => pass.len(),
            None => 0,
        }
    }

    fn merge_seen(&self, one: &mut Session<B, F, O, N>, two: &mut Session<B, F, O, N>) -> bool {
        let (Some(first), Some(second)) = (one.take(), two.take()) else {
            return false;
        };
        let (first, second) = self.unit.merge_seen(first, second);
        one.pass = Some(first);
        two.pass = Some(second);
        true
    }
}

/// So many commands a session.
const TIMES: u64 = 2000;

/// So many rows a seat.
const ROWS: u64 = 200;

/// Whether all commands of a session are served.
fn writes<S, T, A: Shared<S, T>>(unit: &A, session: &mut S) -> bool {
    for _ in 0..TIMES {
        if !unit.serves(session) {
            return false;
        }
    }
    true
}

/// Whether no seat reads a row that is older than its last one.
fn never_older<S, T, A: Shared<S, T>>(unit: &A, seats: &mut [T]) -> bool {
    let mut last = [0u64; MOST_SEATS];
    for _ in 0..ROWS {
        if !is_no_older(unit, seats, &mut last) {
            return false;
        }
    }
    true
}

/// Whether no seat reads a row of fewer entries than these.
fn is_no_older<S, T, A: Shared<S, T>>(unit: &A, seats: &mut [T], last: &mut [u64]) -> bool {
    for (seat, last) in seats.iter_mut().zip(last) {
        let entries = unit.read(seat);
        if entries < *last {
            return false;
        }
        *last = entries;
    }
    true
}

/// Whether each seat reads the row of so many entries.
fn all_read<S, T, A: Shared<S, T>>(unit: &A, seats: &mut [T], entries: u64) -> bool {
    for seat in seats {
        if unit.read(seat) != entries {
            return false;
        }
    }
    true
}

/// Two sessions write in two threads, and two others read, each by half of the seats: whether each was right.
fn are_right<W: Threads + Sync, S: Send, T: Send, A: Shared<S, T> + Sync>(
    rt: &W,
    unit: &A,
    (one, two): (&mut S, &mut S),
    seats: &mut [T],
) -> bool {
    let half = seats.len() / 2;
    let (first, second) = seats.split_at_mut(half);
    let (writers, readers) = join(
        rt,
        || join(rt, || writes(unit, one), || writes(unit, two)),
        || join(
            rt,
            || never_older(unit, first),
            || never_older(unit, second),
        ),
    );
    writers.0 && writers.1 && readers.0 && readers.1
}

/// Whether both have seen all once they have merged what they had seen: one of them had before.
fn have_merged<S, T, A: Shared<S, T>>(unit: &A, one: &mut S, two: &mut S, entries: u64) -> bool {
    let longer = unit.seen(one).max(unit.seen(two));
    longer == entries
        && unit.merge_seen(one, two)
        && unit.seen(one) == entries
        && unit.seen(two) == entries
        && unit.serves(one)
        && unit.serves(two)
}

/// Two attach, and all of it happens. Their attaches are two entries.
fn happens<W: Threads + Abort + Sync, S: Send + Drop, T: Send, A: Shared<S, T> + Sync>(
    rt: &W,
    unit: &A,
    seats: &mut [T],
) {
    let entries = 2 + 2 * TIMES;
    let mut one = unit.attach(1).expect(rt, "a session");
    let mut two = unit.attach(2).expect(rt, "a session");
    let count = seats.len();
    must(
        rt,
        count == MOST_SEATS,
        "as many seats as there may be",
        &count,
    );
    let is_right = are_right(rt, unit, (&mut one, &mut two), seats);
    must(rt, is_right, "rows that are never older", &TIMES);
    let is_last = all_read(unit, seats, entries);
    must(rt, is_last, "the last row at each seat", &entries);
    let is_seen = have_merged(unit, &mut one, &mut two, entries);
    must(rt, is_seen, "all entries are seen by both", &entries);
}

// Shares a unit.
fn share<
    N: ArrayNaming<Opened> + Send + Sync,
    B: Blocks + Send + Sync,
    F: Blocks + Send + Sync,
    O: Opener<B> + Send + Sync,
    W: Threads + Wait + Abort + Clone + Send + Sync + Drop,
>(rt: &W, alloc: Global, new: NewUnit<B, F, O>)
    requires { IsNamedAt N.book N.table N.opening B.contents 0 new }
{
    let shared = SharedUnit::<B, F, O, N, 0>::new(rt, alloc, new, MOST_SEATS);
    let (unit, mut seats) = shared.expect(rt, "memory");
    let unit = Unit {
        rt: rt.clone().expect(rt, "memory"),
        alloc,
        unit,
    };
    happens::<W, Session<B, F, O, N>, Seat<B, F, O, N, 0>, Unit<W, B, F, O, N>>(
        rt, &unit, &mut seats,
    );
}

#[test]
fn two_sessions_merge_beside_as_many_readers_as_there_may_be(rt: HostRuntime) -> Result<(), Fail> {
    let alloc = rt.alloc();
    let opener: Opens = FusedOpener::new(KeepOpener, u64::MAX);
    let new = new_unit(alloc, MemBlocks::new(alloc, 16)?, opener, 0, 1)?;
    share::<Brand, _, _, _, _>(&rt, alloc, new);
    Ok(())
}
