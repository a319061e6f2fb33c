//! The sessions of a world, and where their commands are.
ghost use Rattle.std.specs.Prelude.{◌≡◌, IfNone, MatchOption, None};
ghost use Rattle.world.specs.Records.{turned};
ghost use Rattle.world.specs.Traffic.{answered_in, flush_in, is_idle, returned_in, waits_in};

use scsi_types::{Group, Reply};
use std::mem;
use unit_events::{End, Job};

/// Where a session's command is.
#[derive(Drop)]
pub enum Stage {
    /// There is none.
    Idle,
    /// Its job waits at a desk.
    Waits(Job),
    /// A lane, or its worker, holds its job.
    InLane(Job),
    /// A lane, or its worker, holds its answer.
    Ended(Job, End),
    /// Its answer was posted.
    Answered(Job, End),
    /// The session collected GOOD, and a flush is on its way behind its command.
    Flushes(Flush),
    /// The session heard of the first Moved: this is what it is to hand in once more.
    Returned(Job),
}

/// A command behind which a flush is on its way.
#[derive(Drop)]
pub struct Flush {
    /// The command, as it was asked.
    pub job: Job,
    /// The GOOD of what its unit was asked in its place.
    pub reply: Reply,
    /// The place of the entry in the unit's history.
    pub place: u64,
    /// The serial of the session's next command.
    pub next: u64,
}

/// A session of a unit.
#[derive(Drop)]
pub struct Session {
    /// The place of its unit.
    pub place: usize,
    /// Its id: the place of its attach in the unit's history.
    pub id: u64,
    /// The serial of the command that it submits next, or that is on its way.
    pub next: u64,
    /// Where its command is.
    pub stage: Stage,
}

/// What moves a session's command on, where it is at the stage that this asks for.
#[derive(Drop)]
pub(crate) enum Turn {
    // A lane, or its worker, takes the job that waits.
    ToLane,
    // It has this answer to the job that it holds.
    End(End),
    // It posts its answer.
    Post,
}

// What is kept at a stage, which is then idle; at any other stage nothing, and it stays.
macro_rules! take_at {
    ($stage:expr, $at:pat => $kept:expr) => {
        match mem::replace($stage, Stage::Idle) {
            $at => Some($kept),
            other => {
                *$stage = other;
                None
            }
        }
    };
}

impl Stage {
    // The stage behind a turn.
    fn turned(self, turn: Turn) -> Stage
        ensures { result ≡ turned turn self }
    {
        match turn {
            Turn::ToLane => match self {
                Stage::Waits(job) => Stage::InLane(job),
                other => other,
            },
            Turn::End(end) => match self {
                Stage::InLane(job) => Stage::Ended(job, end),
                other => other,
            },
            Turn::Post => match self {
                Stage::Ended(job, end) => Stage::Answered(job, end),
                other => other,
            },
        }
    }

    // Whether there is no command.
    pub(crate) fn is_idle(&self) -> bool
        ensures { result ≡ is_idle self.now }
    {
        match self {
            Stage::Idle => true,
            Stage::Waits(_)
            | Stage::InLane(_)
            | Stage::Ended(_, _)
            | Stage::Answered(_, _)
            | Stage::Flushes(_)
            | Stage::Returned(_) => false,
        }
    }

    // The group at whose desk its job waits.
    pub(crate) fn waits_at(&self) -> Option<Group>
        ensures { MatchOption result (waits_in self.now ≡ None) (λ group. MatchOption (waits_in self.now) ⊥ (λ job. job.by_group ≡ group)) }
    {
        match self {
            Stage::Waits(job) => Some(job.by_group),
            Stage::Idle
            | Stage::InLane(_)
            | Stage::Ended(_, _)
            | Stage::Answered(_, _)
            | Stage::Flushes(_)
            | Stage::Returned(_) => None,
        }
    }

    // The job whose answer was posted.
    pub(crate) fn take_answered(&mut self) -> Option<(Job, End)>
        ensures job { result ≡ answered_in self.old }
        ensures none { IfNone result (self.new ≡ self.old) }
    {
        take_at!(self, Stage::Answered(job, end) => (job, end))
    }

    // The command behind which a flush is on its way.
    pub(crate) fn take_flush(&mut self) -> Option<Flush>
        ensures flush { result ≡ flush_in self.old }
        ensures none { IfNone result (self.new ≡ self.old) }
    {
        take_at!(self, Stage::Flushes(flush) => flush)
    }

    // The job that came to Moved.
    pub(crate) fn take_returned(&mut self) -> Option<Job>
        ensures job { result ≡ returned_in self.old }
        ensures none { IfNone result (self.new ≡ self.old) }
    {
        take_at!(self, Stage::Returned(job) => job)
    }
}

impl Session {
    // Its command takes a turn.
    pub(crate) fn turn(&mut self, turn: Turn)
        ensures { self.new ≡ record self.old { stage = turned turn self.old.stage } }
    {
        let stage = mem::replace(&mut self.stage, Stage::Idle).turned(turn);
        self.go_to(stage);
    }

    // Its command is there now.
    pub(crate) fn go_to(&mut self, stage: Stage)
        ensures { self.new ≡ record self.old { stage = stage } }
    {
        self.stage = stage;
    }
}
