//! The desk of a controller.
ghost use Rattle.std.specs.Prelude.{◌≡◌, ◌<◌, IfOk, IfErr, IfSome, slice_get};
ghost use Rattle.forwarding.specs.Settled.{IsSettled};
ghost use Rattle.forwarding.specs.Served.{HasAnsweredJob, handed_of};
ghost use Rattle.unit_entries.specs.Devices.{devices};

use crate::job::{Answer, Job, Ticket, Waiting, prepare};
use crate::queue::{NotQueued, Queue};
use array_units::Units;
use block_file::{Blocks, Opener, ReplyMemory};
use crossbeam_utils::CachePadded;
use scsi_types::{Asked, Group, NoMemory, Reply};
use std::alloc::Global;
use std::marker::Model;
use std::sync::atomic::{AtomicBool, AtomicU64, Ordering};
use std::sync::{Condvar, Mutex, Wait};
use thiserror::Error;
use unit_history::{Opened, Pass, Refused};
use unit_sequence::ArrayNaming;

/// Longer data is not copied for a desk: the worker that it came to serves its command at once, past those that wait.
pub const LONGEST_COPY: usize = 256;

// So many workers at a time serve a command with no longer data past its queue, as many as a desk has lanes.
const AT_ONCE: u64 = 4;

/// Why a desk does not take a job.
#[derive(Clone, Copy, Debug, Error)]
pub enum DeskFault {
    /// 64 jobs wait.
    #[error("the desk is full")]
    Full,
    /// The desk is closed.
    #[error("the desk is closed")]
    Closed,
    /// There was no memory.
    #[error("no memory")]
    NoMemory,
}

impl From<NotQueued> for DeskFault {
    fn from(why: NotQueued) -> DeskFault {
        match why {
            NotQueued::Full => DeskFault::Full,
            NotQueued::Closed => DeskFault::Closed,
        }
    }
}

/// What a command comes to: its pass, and what the unit said, or why the desk asked no unit.
type Settled<B, F, O, N> = (
    Pass<B, F, O, N>,
    Result<Result<Reply, Refused<Group>>, DeskFault>,
);

/// The desk of a controller, by way of which the workers of both controllers' sessions have commands served of the units that
/// the controller owns: past its queue, or as jobs in it, which the lanes of the controller serve, or the workers that put them
/// there. What waits stands on a cache line of its own. Contracts see the controller's group.
pub struct Desk<B: Blocks, F: Blocks, O: Opener<B>, N: ArrayNaming<Opened>> {
    group: Group,
    // Whether the queue is closed, for those who do not ask it.
    is_closed: AtomicBool,
    // How many workers serve a command with short data past the queue now, or look whether they may.
    at_once: CachePadded<AtomicU64>,
    queue: CachePadded<Mutex<Queue<Waiting<B, F, O, N>>>>,
    filled: Condvar,
}

impl<B: Blocks, F: Blocks, O: Opener<B>, N: ArrayNaming<Opened>> Drop for Desk<B, F, O, N> {
    fn drop(self) {
        let Self {
            group: _,
            is_closed: _,
            at_once: _,
            queue: _,
            filled: _,
        } = self;
    }
}

impl<B: Blocks, F: Blocks, O: Opener<B>, N: ArrayNaming<Opened>> Model for Desk<B, F, O, N> {
    ghost use Rattle.scsi_types.specs.declared.names.Group.{Group};

    ghost Value = { Group };

    ghost view = { λ d. d.group };
}

// Where the ticket's job waits.
fn index_of<B: Blocks, F: Blocks, O: Opener<B>, N: ArrayNaming<Opened>>(
    queue: &Queue<Waiting<B, F, O, N>>,
    ticket: &Ticket<'_, B, F, O, N>,
) -> Option<usize>
    ensures { IfSome result (λ at. IfSome (slice_get queue.now.items at) (λ waiting.
        handed_of waiting.pass ticket.now.names.asked ticket.now.data_in ticket.now.names.by_group ≡ ticket.now)) }
{
    for at in 0..queue.len() {
        match queue.get(at) {
            Some(waiting) if ticket.is_of(&waiting.pass) => return Some(at),
            _ => (),
        }
    }
    None
}

// Lets a command wait behind those that came before: whether others wait.
fn enqueue<B: Blocks, F: Blocks, O: Opener<B>, N: ArrayNaming<Opened>>(
    queue: &mut Queue<Waiting<B, F, O, N>>,
    waiting: Waiting<B, F, O, N>,
) -> Result<bool, (DeskFault, Pass<B, F, O, N>, ReplyMemory)>
    ensures { IfErr result (λ e. e.1 ≡ waiting.pass) }
{
    match queue.push(waiting) {
        Ok(()) => Ok(queue.len() > 1),
        Err((why, waiting)) => Err((DeskFault::from(why), waiting.pass, waiting.room)),
    }
}

impl<B: Blocks, F: Blocks, O: Opener<B>, N: ArrayNaming<Opened>> Desk<B, F, O, N> {
    /// The desk of a group, with 64 places, which are taken now.
    pub fn new(alloc: Global, group: Group) -> Result<Desk<B, F, O, N>, NoMemory>
        ensures { IfOk result (λ desk. desk ≡ group) }
    {
        let Ok(queue) = Queue::new(alloc) else {
            return Err(NoMemory);
        };
        Ok(Desk {
            group,
            is_closed: AtomicBool::new(false),
            at_once: CachePadded::new(AtomicU64::new(0)),
            queue: CachePadded::new(Mutex::new(queue)),
            filled: Condvar::new(),
        })
    }

    /// The group of its controller.
    pub fn group(&self) -> Group
        ensures { result ≡ self.now }
    {
        self.group
    }

    /// Hands a command of a session in, with a copy of its data: its job waits behind those that came before, and has the memory for its
    /// reply. Refused, the pass and this memory are handed back.
    pub fn submit<'a, W: Wait>(
        &self,
        rt: &W,
        room: ReplyMemory,
        pass: Pass<B, F, O, N>,
        asked: &Asked,
        bytes: &'a [u8],
    ) -> Result<Ticket<'a, B, F, O, N>, (DeskFault, Pass<B, F, O, N>, ReplyMemory)>
        ensures ticket { IfOk result (λ t. t ≡ handed_of pass asked.now bytes.now self.now) }
        ensures back { IfErr result (λ e. e.1 ≡ pass) }
    {
        let (ticket, waiting) = match prepare(room, pass, asked, bytes, self.group) {
            Ok(both) => both,
            Err(refused) => return Err(refused),
        };
        let queued = enqueue(&mut self.queue.lock(rt), waiting);
        match queued {
            Ok(others_wait) => {
                // A lane is woken where others wait.
                if others_wait {
                    self.filled.notify_one();
                }
                Ok(ticket)
            }
            Err(refused) => Err(refused),
        }
    }

    /// The first job, once there is one. None: the desk is closed, and no job is left.
    pub fn take<W: Wait>(&self, rt: &W) -> Option<Job<B, F, O, N>>
        ensures { IfSome result (λ job. job.names.by_group ≡ self.now) }
    {
        let mut queue = self.filled.wait_while(rt, self.queue.lock(rt), |queue| {
            queue.len() == 0 && !queue.is_closed()
        });
        let waiting = queue.take()?;
        Some(Job::from_desk(waiting, self.group))
    }

    /// Gives an answer to the ticket that waits for it. It takes no memory.
    pub fn post<W: Wait>(&self, rt: &W, answer: Answer<B, F, O, N>) {
        answer.post(rt);
    }

    /// Serves the first job, once there is one, and posts its answer. False: the desk is closed, and no job is left.
    pub fn serve_next<W: Wait>(&self, rt: &W, units: &Units<B, F, O, N>) -> bool {
        let Some(job) = self.take(rt) else {
            return false;
        };
        // Each job is of one of the array's units, which its type does not say.
        if job.place() < units.count() {
            self.post(rt, job.serve(rt, units));
        }
        true
    }

    /// From now on no job is taken in. Those that wait are left to the lanes, which end when none is left.
    pub fn close<W: Wait>(&self, rt: &W) {
        self.is_closed.store(true, Ordering::SeqCst);
        self.queue.lock(rt).close();
        self.filled.notify_all();
    }

    /// Leaves a job to the lanes, and waits for its answer.
    pub fn collect<W: Wait>(
        &self,
        rt: &W,
        ticket: Ticket<'_, B, F, O, N>,
    ) -> (Pass<B, F, O, N>, Result<Reply, Refused<Group>>)
        ensures place { result.0.place ≡ ticket.entry.names.place }
        ensures end { HasAnsweredJob (devices B.Blocks F.Blocks O.Opener) (N.opening ticket.entry.names.place) ticket.entry
            result.0.pass result.1 }
    {
        self.filled.notify_one();
        ticket.collect(rt)
    }

    // The pass of the ticket's job and the memory for its reply, where no lane has taken it.
    fn take_back<W: Wait>(
        &self,
        rt: &W,
        ticket: &Ticket<'_, B, F, O, N>,
    ) -> Option<(Pass<B, F, O, N>, ReplyMemory)>
        ensures { IfSome result (λ back.
            handed_of back.0 ticket.now.names.asked ticket.now.data_in ticket.now.names.by_group ≡ ticket.now) }
    {
        let mut queue = self.queue.lock(rt);
        let at = index_of(&queue, ticket)?;
        let waiting = queue.take_at(at)?;
        Some((waiting.pass, waiting.room))
    }

    /// What becomes of the ticket's job: its worker serves it where no lane has taken it, and else waits for the answer.
    pub fn serve_own<W: Wait>(
        &self,
        rt: &W,
        units: &Units<B, F, O, N>,
        ticket: Ticket<'_, B, F, O, N>,
    ) -> (Pass<B, F, O, N>, Result<Reply, Refused<Group>>)
        requires { ticket.names.place < units.now }
        ensures place { result.0.place ≡ ticket.entry.names.place }
        ensures end { HasAnsweredJob (devices B.Blocks F.Blocks O.Opener) (N.opening ticket.entry.names.place) ticket.entry
            result.0.pass result.1 }
    {
        match self.take_back(rt, &ticket) {
            Some((pass, room)) => ticket.serve(rt, room, units, pass),
            None => ticket.collect(rt),
        }
    }

    // Serves a command at once, past those that wait. Which of them comes first is nobody's promise, so this is one of the orders
    // in which lanes may serve them, and nothing is copied.
    fn serve_at_once<W: Wait>(
        &self,
        rt: &W,
        room: ReplyMemory,
        units: &Units<B, F, O, N>,
        pass: Pass<B, F, O, N>,
        asked: &Asked,
        bytes: &[u8],
    ) -> Settled<B, F, O, N>
        requires { pass.place < units.now }
        ensures { IsSettled (devices B.Blocks F.Blocks O.Opener) (N.opening pass.place) pass
            (handed_of pass asked.now bytes.now self.now) result.0 result.1 }
    {
        if self.is_closed.load(Ordering::SeqCst) {
            return (pass, Err(DeskFault::Closed));
        }
        let (pass, end) = units.serve(rt, pass, room, &self.group, asked, bytes);
        (pass, Ok(end))
    }

    // Serves a command as a job in the queue, which its worker serves where no lane has taken it; at once where there is no memory
    // for the job: so what fences needs none.
    fn serve_queued<W: Wait>(
        &self,
        rt: &W,
        room: ReplyMemory,
        units: &Units<B, F, O, N>,
        pass: Pass<B, F, O, N>,
        asked: &Asked,
        bytes: &[u8],
    ) -> Settled<B, F, O, N>
        requires { pass.place < units.now }
        ensures { IsSettled (devices B.Blocks F.Blocks O.Opener) (N.opening pass.place) pass
            (handed_of pass asked.now bytes.now self.now) result.0 result.1 }
    {
        match self.submit(rt, room, pass, asked, bytes) {
            Ok(ticket) => {
                let (pass, end) = self.serve_own(rt, units, ticket);
                (pass, Ok(end))
            }
            Err((DeskFault::NoMemory, pass, room)) => {
                self.serve_at_once(rt, room, units, pass, asked, bytes)
            }
            Err((fault, pass, _)) => (pass, Err(fault)),
        }
    }

    /// Serves a command of a session through the desk: its worker serves it itself, at once where its data is long or few others
    /// are served so, and else by way of the queue. Refused by the desk, which is full or closed, no unit was asked, and the pass
    /// is as it was.
    pub fn serve<W: Wait>(
        &self,
        rt: &W,
        room: ReplyMemory,
        units: &Units<B, F, O, N>,
        pass: Pass<B, F, O, N>,
        asked: &Asked,
        bytes: &[u8],
    ) -> Settled<B, F, O, N>
        requires { pass.place < units.now }
        ensures { IsSettled (devices B.Blocks F.Blocks O.Opener) (N.opening pass.place) pass
            (handed_of pass asked.now bytes.now self.now) result.0 result.1 }
    {
        if bytes.len() > LONGEST_COPY {
            return self.serve_at_once(rt, room, units, pass, asked, bytes);
        }
        if self.at_once.fetch_add(1, Ordering::SeqCst) < AT_ONCE {
            let served = self.serve_at_once(rt, room, units, pass, asked, bytes);
            self.at_once.fetch_sub(1, Ordering::SeqCst);
            return served;
        }
        self.at_once.fetch_sub(1, Ordering::SeqCst);
        self.serve_queued(rt, room, units, pass, asked, bytes)
    }
}
