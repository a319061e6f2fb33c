//! A command on its way: its job, its ticket and its answer.
ghost use Rattle.std.specs.Prelude.{◌≡◌, ◌<◌, IfOk, IfErr, MatchBool};
ghost use Rattle.forwarding.specs.Served.{HasAnsweredJob, handed, handed_of};
ghost use Rattle.forwarding.specs.Jobs.{IsFor};
ghost use Rattle.unit_entries.specs.Devices.{devices};

use crate::desk::DeskFault;
use crate::names::{are_of, named, serve_named};
use array_units::Units;
use block_file::{Blocks, Opener, ReplyMemory};
use desk_jobs::Names;
use scsi_types::{Asked, Group, NoMemory, Reply};
use std::alloc::Global;
use std::marker::Model;
use std::sync::{Arc, Condvar, Mutex, Wait};
use unit_history::{LegalHistory, Opened, Pass, Refused};
use unit_sequence::ArrayNaming;

// What a command came to. It keeps what the job's pass had seen, and that the pass has since seen what the reply or the refusal
// says.
#[derive(Drop)]
struct Ended<B: Blocks, F: Blocks, O: Opener<B>, N: ArrayNaming<Opened>> {
    names: Names,
    bytes: Vec<u8>,
    before: LegalHistory<B, F, O, N>,
    pass: Pass<B, F, O, N>,
    end: Result<Reply, Refused<Group>>,
}

impl<B: Blocks, F: Blocks, O: Opener<B>, N: ArrayNaming<Opened>> Model for Ended<B, F, O, N> {
    ghost use Rattle.std.specs.Prelude.{◌≡◌};
    ghost use Rattle.unit_entries.specs.Devices.{devices};
    ghost use Rattle.forwarding.specs.Served.{HasAnsweredJob, handed};
    ghost use Rattle.forwarding.specs.Jobs.{Done};

    ghost Value = { Done };

    ghost view = { λ e. record { job = handed e.names e.bytes.items e.before.1; after = e.pass.pass; end = e.end } };

    ghost invariant = { λ e. (e.before.0 ≡ e.names.place) × (e.pass.place ≡ e.names.place)
        × HasAnsweredJob (devices B.Blocks F.Blocks O.Opener) (N.opening e.names.place) (handed e.names e.bytes.items e.before.1)
        e.pass.pass e.end };
}

impl<B: Blocks, F: Blocks, O: Opener<B>, N: ArrayNaming<Opened>> Ended<B, F, O, N> {
    // Whether the ticket with these names, whose pass had seen this, waits for it.
    fn is_for(&self, names: &Names, bytes: &[u8], seen: &LegalHistory<B, F, O, N>) -> bool
        ensures { MatchBool result (self.now.job ≡ handed names.now bytes.now seen.now.1) (Unit {0}) }
    {
        self.names.is_same(names) && self.bytes.as_slice() == bytes && self.before.is_same(seen)
    }

    // The pass and the end.
    fn open(self) -> (Pass<B, F, O, N>, Result<Reply, Refused<Group>>)
        ensures place { result.0.place ≡ self.job.names.place }
        ensures end { HasAnsweredJob (devices B.Blocks F.Blocks O.Opener) (N.opening self.job.names.place) self.job result.0.pass result.1 }
    {
        (self.pass, self.end)
    }
}

// Where an answer comes. It is made when its job is handed in.
struct Mailbox<B: Blocks, F: Blocks, O: Opener<B>, N: ArrayNaming<Opened>> {
    answer: Mutex<Option<Ended<B, F, O, N>>>,
    filled: Condvar,
}

impl<B: Blocks, F: Blocks, O: Opener<B>, N: ArrayNaming<Opened>> Drop for Mailbox<B, F, O, N> {
    fn drop(self) {
        let Self {
            answer: _,
            filled: _,
        } = self;
    }
}

impl<B: Blocks, F: Blocks, O: Opener<B>, N: ArrayNaming<Opened>> Mailbox<B, F, O, N> {
    // A mailbox without an answer, shared by two.
    fn shared(
        alloc: Global,
    ) -> Result<
        (
            Arc<Mailbox<B, F, O, N>, Global>,
            Arc<Mailbox<B, F, O, N>, Global>,
        ),
        NoMemory,
    > {
        let mailbox = Mailbox {
            answer: Mutex::new(None),
            filled: Condvar::new(),
        };
        let Ok(mine) = Arc::new(alloc, mailbox) else {
            return Err(NoMemory);
        };
        match Arc::try_clone(&mine) {
            Ok(mailbox) => Ok((mine, mailbox)),
            Err(_) => Err(NoMemory),
        }
    }
}

// A command of a session in a desk's queue: the session's pass and the memory for its reply, which go with it, a copy of the data that
// came, and the mailbox of its answer.
#[derive(Drop)]
pub(crate) struct Waiting<B: Blocks, F: Blocks, O: Opener<B>, N: ArrayNaming<Opened>> {
    pub(crate) pass: Pass<B, F, O, N>,
    pub(crate) room: ReplyMemory,
    asked: Asked,
    bytes: Vec<u8>,
    mailbox: Arc<Mailbox<B, F, O, N>, Global>,
}

/// A job that was taken from the desk of a group. Contracts see what it is known by, its data, and what its pass has seen.
pub struct Job<B: Blocks, F: Blocks, O: Opener<B>, N: ArrayNaming<Opened>> {
    waiting: Waiting<B, F, O, N>,
    by_group: Group,
}

impl<B: Blocks, F: Blocks, O: Opener<B>, N: ArrayNaming<Opened>> Drop for Job<B, F, O, N> {
    fn drop(self) {
        let Self {
            waiting: _,
            by_group: _,
        } = self;
    }
}

impl<B: Blocks, F: Blocks, O: Opener<B>, N: ArrayNaming<Opened>> Model for Job<B, F, O, N> {
    ghost use Rattle.forwarding.specs.Served.{Handed, handed_of};

    ghost Value = { Handed };

    ghost view = { λ j. handed_of j.waiting.pass j.waiting.asked j.waiting.bytes.items j.by_group };
}

impl<B: Blocks, F: Blocks, O: Opener<B>, N: ArrayNaming<Opened>> Job<B, F, O, N> {
    // What waited at the desk of this group.
    pub(crate) fn from_desk(waiting: Waiting<B, F, O, N>, by_group: Group) -> Job<B, F, O, N>
        ensures { result ≡ handed_of waiting.pass waiting.asked waiting.bytes.items by_group }
    {
        Job { waiting, by_group }
    }

    /// The place of its unit.
    pub fn place(&self) -> usize
        ensures { result ≡ self.now.names.place }
    {
        self.waiting.pass.place()
    }

    /// Serves the job, as [`Units::serve`].
    pub fn serve<W: Wait>(self, rt: &W, units: &Units<B, F, O, N>) -> Answer<B, F, O, N>
        requires { self.names.place < units.now }
        ensures { result.job ≡ self }
    {
        let Job { waiting, by_group } = self;
        let Waiting {
            pass,
            room,
            asked,
            bytes,
            mailbox,
        } = waiting;
        let names = named(&pass, &asked, by_group);
        let before = pass.history();
        let (pass, end) = serve_named(&names, rt, room, units, pass, bytes.as_slice());
        Answer {
            ended: Ended {
                names,
                bytes,
                before,
                pass,
                end,
            },
            mailbox,
        }
    }
}

/// What a job came to, with the mailbox that it goes to. Contracts see the job, what its pass has seen since, and the end.
pub struct Answer<B: Blocks, F: Blocks, O: Opener<B>, N: ArrayNaming<Opened>> {
    ended: Ended<B, F, O, N>,
    mailbox: Arc<Mailbox<B, F, O, N>, Global>,
}

impl<B: Blocks, F: Blocks, O: Opener<B>, N: ArrayNaming<Opened>> Drop for Answer<B, F, O, N> {
    fn drop(self) {
        let Self {
            ended: _,
            mailbox: _,
        } = self;
    }
}

impl<B: Blocks, F: Blocks, O: Opener<B>, N: ArrayNaming<Opened>> Model for Answer<B, F, O, N> {
    ghost use Rattle.forwarding.specs.Jobs.{Done};

    ghost Value = { Done };

    ghost view = { λ a. a.ended };
}

impl<B: Blocks, F: Blocks, O: Opener<B>, N: ArrayNaming<Opened>> Answer<B, F, O, N> {
    // Puts it where its ticket waits. It takes no memory.
    pub(crate) fn post<W: Wait>(self, rt: &W) {
        let Answer { ended, mailbox } = self;
        *mailbox.answer.lock(rt) = Some(ended);
        mailbox.filled.notify_one();
    }
}

/// What is left to the worker that handed a job in, with the data that it came with. Contracts see what the job is known by, its
/// data, and what its pass had seen.
pub struct Ticket<'a, B: Blocks, F: Blocks, O: Opener<B>, N: ArrayNaming<Opened>> {
    names: Names,
    bytes: &'a [u8],
    seen: LegalHistory<B, F, O, N>,
    mailbox: Arc<Mailbox<B, F, O, N>, Global>,
}

impl<B: Blocks, F: Blocks, O: Opener<B>, N: ArrayNaming<Opened>> Drop for Ticket<'_, B, F, O, N> {
    fn drop(self) {
        let Self {
            names: _,
            bytes: _,
            seen: _,
            mailbox: _,
        } = self;
    }
}

impl<'a, B: Blocks, F: Blocks, O: Opener<B>, N: ArrayNaming<Opened>> Model
    for Ticket<'a, B, F, O, N> {
    ghost use Rattle.std.specs.Prelude.{◌≡◌};
    ghost use Rattle.forwarding.specs.Served.{Handed, handed};

    ghost Value = { Handed };

    ghost view = { λ t. handed t.names t.bytes.now t.seen.1 };

    ghost invariant = { λ t. t.seen.0 ≡ t.names.place };
}

// Whether the answer that a ticket waits for is there.
fn is_for<B: Blocks, F: Blocks, O: Opener<B>, N: ArrayNaming<Opened>>(
    held: &Option<Ended<B, F, O, N>>,
    names: &Names,
    bytes: &[u8],
    seen: &LegalHistory<B, F, O, N>,
) -> bool
    ensures { MatchBool result (IsFor held.now (handed names.now bytes.now seen.now.1)) (Unit {0}) }
{
    match held {
        Some(ended) => ended.is_for(names, bytes, seen),
        None => false,
    }
}

impl<'a, B: Blocks, F: Blocks, O: Opener<B>, N: ArrayNaming<Opened>> Ticket<'a, B, F, O, N> {
    /// The place of its job's unit.
    pub fn place(&self) -> usize
        ensures { result ≡ self.now.names.place }
    {
        self.names.place
    }

    // Whether this pass is that of its job.
    pub(crate) fn is_of(&self, pass: &Pass<B, F, O, N>) -> bool
        ensures { MatchBool result
            (handed_of pass.now self.now.names.asked self.now.data_in self.now.names.by_group ≡ self.now) (Unit {0}) }
    {
        are_of(&self.names, pass) && pass.history().is_same(&self.seen)
    }

    // Serves its job, whose pass was taken back, with the data that it came with.
    pub(crate) fn serve<W: Wait>(
        self,
        rt: &W,
        room: ReplyMemory,
        units: &Units<B, F, O, N>,
        pass: Pass<B, F, O, N>,
    ) -> (Pass<B, F, O, N>, Result<Reply, Refused<Group>>)
        requires own { handed_of pass self.names.asked self.data_in self.names.by_group ≡ self }
        requires place { self.names.place < units.now }
        ensures place { result.0.place ≡ self.entry.names.place }
        ensures end { HasAnsweredJob (devices B.Blocks F.Blocks O.Opener) (N.opening self.entry.names.place) self.entry
            result.0.pass result.1 }
    {
        serve_named(&self.names, rt, room, units, pass, self.bytes)
    }

    // Its answer, once it is there. Another's is left where it is.
    fn ended<W: Wait>(&self, rt: &W) -> Ended<B, F, O, N>
        ensures { result.job ≡ self.now }
    {
        let held = self.mailbox.answer.lock(rt);
        let mut held = self.mailbox.filled.wait_while(rt, held, |held| {
            !is_for(held, &self.names, self.bytes, &self.seen)
        });
        match held.take() {
            Some(ended) => ended,
            None => unreachable!(),
        }
    }

    // Its answer, once it is there. Another's is left where it is.
    pub(crate) fn collect<W: Wait>(
        self,
        rt: &W,
    ) -> (Pass<B, F, O, N>, Result<Reply, Refused<Group>>)
        ensures place { result.0.place ≡ self.entry.names.place }
        ensures end { HasAnsweredJob (devices B.Blocks F.Blocks O.Opener) (N.opening self.entry.names.place) self.entry
            result.0.pass result.1 }
    {
        self.ended(rt).open()
    }
}

// A command of a session that is to wait at the desk of a group, and its ticket: the job that waits is the ticket's. Refused, there
// was no memory, and the pass is handed back, with the memory for the reply.
pub(crate) fn prepare<'a, B: Blocks, F: Blocks, O: Opener<B>, N: ArrayNaming<Opened>>(
    room: ReplyMemory,
    pass: Pass<B, F, O, N>,
    asked: &Asked,
    bytes: &'a [u8],
    by_group: Group,
) -> Result<
    (Ticket<'a, B, F, O, N>, Waiting<B, F, O, N>),
    (DeskFault, Pass<B, F, O, N>, ReplyMemory),
>
    ensures ticket { IfOk result (λ r. r.0 ≡ handed_of pass asked.now bytes.now by_group) }
    ensures pass { IfOk result (λ r. r.1.pass ≡ pass) }
    ensures waits { IfOk result (λ r. handed_of r.1.pass r.1.asked r.1.bytes.items by_group ≡ r.0) }
    ensures back { IfErr result (λ back. back.1 ≡ pass) }
{
    let Ok(copy) = bytes.to_vec(room.alloc()) else {
        return Err((DeskFault::NoMemory, pass, room));
    };
    let Ok((mine, mailbox)) = Mailbox::shared(room.alloc()) else {
        return Err((DeskFault::NoMemory, pass, room));
    };
    let ticket = Ticket {
        names: named(&pass, asked, by_group),
        bytes,
        seen: pass.history(),
        mailbox: mine,
    };
    let waiting = Waiting {
        pass,
        room,
        asked: *asked,
        bytes: copy,
        mailbox,
    };
    Ok((ticket, waiting))
}
