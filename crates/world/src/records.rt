//! What is on its way in the array.
ghost use Rattle.std.specs.Prelude.{◌≡◌, ◌<◌, ◌∷◌, [], ℕ, Some, length, slice_get, OnOk, IfOk, IfSome, IfNone, MatchOption, if◌then◌else◌};
ghost use Rattle.std.specs.List.{remove};
ghost use Rattle.world.specs.Records.{HasRoom, sent, traffic_of, turned};
ghost use Rattle.world.specs.Traffic.{at_stage, attached, closed, ended, given, given_up, handed_in};
ghost use Rattle.world.specs.Traffic.{IsAgain, IsTakenBack, in_hand, in_lane, is_closed, is_idle, no_traffic, note_of, noted, posted};
ghost use Rattle.world.specs.Traffic.{taken, waiting, with_waiting};

use crate::desk::Desk;
use crate::late::handed;
use crate::note::{Note, What};
use crate::session::{Session, Stage, Turn};
use scsi_types::{Group, NoMemory};
use std::alloc::Global;
use unit_events::{End, Job};

// Who serves a session's command: a lane that takes it from its desk, or the session's worker, which has it in hand.
#[derive(Clone, Copy)]
pub(crate) enum Way {
    Desk,
    Hand,
}

// The sessions, the desks of both groups, and what was submitted and collected.
#[derive(Drop)]
pub(crate) struct Records {
    pub(crate) sessions: Vec<Session>,
    pub(crate) one: Desk,
    pub(crate) two: Desk,
    pub(crate) one_is_closed: bool,
    pub(crate) two_is_closed: bool,
    pub(crate) notes: Vec<Note>,
}

/// What a session does, where its unit has had so many entries.
pub(crate) fn note_of(session: &Session, count: u64, what: What) -> Note
    ensures { result ≡ note_of count session.now what }
{
    Note {
        place: session.place,
        session: session.id,
        serial: session.next,
        count,
        what,
    }
}

impl Records {
    // Nobody has attached.
    pub(crate) fn new(alloc: Global) -> Result<Records, NoMemory>
        ensures { IfOk result (λ r. traffic_of r ≡ no_traffic) }
    {
        let (Ok(one), Ok(two)) = (Desk::new(alloc), Desk::new(alloc)) else {
            return Err(NoMemory);
        };
        Ok(Records {
            sessions: Vec::new(alloc),
            one,
            two,
            one_is_closed: false,
            two_is_closed: false,
            notes: Vec::new(alloc),
        })
    }

    // Takes the memory that an event may need.
    pub(crate) fn make_room(&mut self) -> Result<(), NoMemory>
        ensures same { traffic_of self.new ≡ traffic_of self.old }
        ensures room { OnOk result (HasRoom self.new) }
    {
        if self.sessions.reserve(1).is_err() || self.notes.reserve(1).is_err() {
            return Err(NoMemory);
        }
        Ok(())
    }

    // The session at a place of the list.
    pub(crate) fn session(&self, n: usize) -> Option<&Session>
        ensures { MatchOption result (slice_get self.now.sessions.items n ≡ None)
            (λ x. slice_get self.now.sessions.items n ≡ Some x.now) }
    {
        self.sessions.get(n)
    }

    // A session attached to a unit.
    pub(crate) fn attach(&mut self, place: usize, id: u64)
        requires { HasRoom self.old }
        ensures { traffic_of self.new ≡ attached (traffic_of self.old) place id }
    {
        self.sessions.push_reserved(Session {
            place,
            id,
            next: 1,
            stage: Stage::Idle,
        });
    }

    // A session's command goes on to this stage, and it is noted what the session did.
    pub(crate) fn go_on(&mut self, n: usize, count: u64, stage: Stage, what: What)
        requires room { HasRoom self.old }
        requires there { n < length self.old.sessions.items }
        ensures { IfSome (slice_get self.old.sessions.items n)
            (λ x. traffic_of self.new ≡ noted (at_stage (traffic_of self.old) n x stage) (note_of count x what)) }
    {
        let session = &mut self.sessions[n];
        let note = note_of(session, count, what);
        session.go_to(stage);
        self.notes.push_reserved(note);
    }

    // A session's command ends without a reply.
    pub(crate) fn give_up(&mut self, n: usize, count: u64, what: What)
        requires room { HasRoom self.old }
        requires there { n < length self.old.sessions.items }
        ensures { IfSome (slice_get self.old.sessions.items n)
            (λ x. traffic_of self.new ≡ given_up count (traffic_of self.old) n x what) }
    {
        self.go_on(n, count, Stage::Idle, what);
    }

    // Hands a session's job in.
    fn hand_in(&mut self, n: usize, count: u64, job: Job)
        requires room { HasRoom self.old }
        requires there { n < length self.old.sessions.items }
        ensures { IfSome (slice_get self.old.sessions.items n)
            (λ x. traffic_of self.new ≡ handed_in count (traffic_of self.old) n x job) }
    {
        let is_taken = match job.by_group {
            Group::One => !self.one_is_closed && self.one.push(n),
            Group::Two => !self.two_is_closed && self.two.push(n),
        };
        if !is_taken {
            self.give_up(n, count, What::Busy);
            return;
        }
        self.go_on(n, count, Stage::Waits(job), What::Submitted);
    }

    // Whether the desk of a group is closed.
    fn is_closed(&self, group: Group) -> bool
        ensures { result ≡ is_closed (traffic_of self.now) group }
    {
        match group {
            Group::One => self.one_is_closed,
            Group::Two => self.two_is_closed,
        }
    }

    // From now on the desk of a group takes no job.
    pub(crate) fn close(&mut self, group: Group)
        ensures { traffic_of self.new ≡ closed (traffic_of self.old) group }
    {
        match group {
            Group::One => self.one_is_closed = true,
            Group::Two => self.two_is_closed = true,
        }
    }

    // A session's worker takes its command in hand itself.
    fn take_in_hand(&mut self, n: usize, count: u64, job: Job)
        requires room { HasRoom self.old }
        requires there { n < length self.old.sessions.items }
        ensures { IfSome (slice_get self.old.sessions.items n)
            (λ x. traffic_of self.new ≡ in_hand count (traffic_of self.old) n x job) }
    {
        if self.is_closed(job.by_group) {
            self.give_up(n, count, What::Busy);
            return;
        }
        self.go_on(n, count, Stage::InLane(job), What::Submitted);
    }

    // Sends a session's job this way.
    fn send(&mut self, n: usize, count: u64, way: Way, job: Job)
        requires room { HasRoom self.old }
        requires there { n < length self.old.sessions.items }
        ensures { IfSome (slice_get self.old.sessions.items n)
            (λ x. traffic_of self.new ≡ sent way count (traffic_of self.old) n x job) }
    {
        match way {
            Way::Desk => self.hand_in(n, count, job),
            Way::Hand => self.take_in_hand(n, count, job),
        }
    }

    // Sends a new command, where the session has none on its way.
    pub(crate) fn submit(&mut self, n: usize, count: u64, way: Way, job: Job)
        requires { HasRoom self.old }
        ensures { traffic_of self.new ≡ given (traffic_of self.old) (slice_get self.old.sessions.items n)
            (λ x. if is_idle x.stage then sent way count (traffic_of self.old) n x job else traffic_of self.old) }
    {
        let Some(session) = self.session(n) else {
            return;
        };
        if session.stage.is_idle() {
            self.send(n, count, way, job);
        }
    }

    // Sends a command that came to Moved once more.
    pub(crate) fn submit_again(&mut self, n: usize, count: u64, way: Way, is_late: bool)
        requires { HasRoom self.old }
        ensures { MatchOption (slice_get self.old.sessions.items n) (traffic_of self.new ≡ traffic_of self.old)
            (λ x. IsAgain (sent way count) is_late (traffic_of self.old) n x (traffic_of self.new)) }
    {
        let Some(session) = self.sessions.get_mut(n) else {
            return;
        };
        if let Some(job) = session.stage.take_returned() {
            self.send(n, count, way, handed(job, is_late));
        }
    }

    // Where a session's job waits at the desk of a group.
    fn index_of(&self, group: Group, n: usize) -> Option<usize>
        ensures there { IfSome result (λ at. slice_get (waiting (traffic_of self.now) group) at ≡ Some n) }
        ensures nowhere { IfNone result ((at : ℕ) → slice_get (waiting (traffic_of self.now) group) at ≡ Some n → ⊥) }
    {
        match group {
            Group::One => self.one.index_of(n),
            Group::Two => self.two.index_of(n),
        }
    }

    // Takes out what waits at a place of the desk of a group.
    fn take_at(&mut self, group: Group, at: usize)
        requires { at < length (waiting (traffic_of self.old) group) }
        ensures { traffic_of self.new
            ≡ with_waiting (traffic_of self.old) group (remove (waiting (traffic_of self.old) group) at) }
    {
        match group {
            Group::One => self.one.take_at(at),
            Group::Two => self.two.take_at(at),
        }
    }

    // A session's worker takes its job back from the desk.
    pub(crate) fn take_back(&mut self, n: usize)
        ensures { MatchOption (slice_get self.old.sessions.items n) (traffic_of self.new ≡ traffic_of self.old)
            (λ x. IsTakenBack (traffic_of self.old) n x (traffic_of self.new)) }
    {
        let Some(session) = self.session(n) else {
            return;
        };
        let Some(group) = session.stage.waits_at() else {
            return;
        };
        let Some(at) = self.index_of(group, n) else {
            return;
        };
        self.take_at(group, at);
        self.to_lane(n);
    }

    // Takes the session whose job waits first at the desk of a group.
    fn take_first(&mut self, group: Group) -> Option<usize>
        ensures left { traffic_of self.new ≡ with_waiting (traffic_of self.old) group (waiting (traffic_of self.new) group) }
        ensures first { IfSome result (λ n. waiting (traffic_of self.old) group ≡ n ∷ waiting (traffic_of self.new) group) }
        ensures none { IfNone result ((waiting (traffic_of self.old) group ≡ []) × (traffic_of self.new ≡ traffic_of self.old)) }
    {
        match group {
            Group::One => self.one.take(),
            Group::Two => self.two.take(),
        }
    }

    // A session's command takes a turn.
    fn turn(&mut self, n: usize, turn: Turn)
        ensures { traffic_of self.new ≡ given (traffic_of self.old) (slice_get self.old.sessions.items n)
            (λ x. at_stage (traffic_of self.old) n x (turned turn x.stage)) }
    {
        if let Some(session) = self.sessions.get_mut(n) {
            session.turn(turn);
        }
    }

    // A lane holds a session's job, which had waited.
    fn to_lane(&mut self, n: usize)
        ensures { traffic_of self.new ≡ given (traffic_of self.old) (slice_get self.old.sessions.items n)
            (λ x. in_lane (traffic_of self.old) n x) }
    {
        self.turn(n, Turn::ToLane);
    }

    // A lane takes the job that waits first at the desk of a group.
    pub(crate) fn take(&mut self, group: Group)
        ensures { traffic_of self.new ≡ taken (traffic_of self.old) group }
    {
        if let Some(n) = self.take_first(group) {
            self.to_lane(n);
        }
    }

    // A lane has the answer to a session's job.
    pub(crate) fn end(&mut self, n: usize, end: End)
        ensures { traffic_of self.new ≡ given (traffic_of self.old) (slice_get self.old.sessions.items n)
            (λ x. ended (traffic_of self.old) n x end) }
    {
        self.turn(n, Turn::End(end));
    }

    // A lane posts the answer of a session's job.
    pub(crate) fn post(&mut self, n: usize)
        ensures { traffic_of self.new ≡ given (traffic_of self.old) (slice_get self.old.sessions.items n)
            (λ x. posted (traffic_of self.old) n x) }
    {
        self.turn(n, Turn::Post);
    }
}
