//! What a session hears of its command.
ghost use Rattle.std.specs.Prelude.{◌≡◌, ◌<◌, length, slice_get, IfSome};
ghost use Rattle.world.specs.Records.{HasRoom, traffic_of};
ghost use Rattle.world.specs.Traffic.{collected, flush_ended, free, given, heard, note_of, noted, replied, settled};
ghost use Rattle.world.specs.Traffic.{told_behind, with_session};
ghost use Rattle.unit_lock.specs.declared.machine.Refused.TheVariants as causes;
ghost use Rattle.unit_events.specs.declared.job.End.TheVariants as ends;

use crate::late::{asked_of, is_good, told_behind};
use crate::note::What;
use crate::records::{Records, note_of};
use crate::session::{Flush, Stage};
use scsi_types::{Group, Reply};
use std::alloc::Global;
use unit_events::{End, Job};
use unit_lock::Refused;

impl Records {
    // A session hears the answer to its job.
    fn hear(&mut self, n: usize, count: u64, job: Job, end: End)
        requires room { HasRoom self.old }
        requires there { n < length self.old.sessions.items }
        ensures { IfSome (slice_get self.old.sessions.items n)
            (λ x. traffic_of self.new ≡ heard count (traffic_of self.old) n x job end) }
    {
        match end {
            End::Replied(reply, place, next) => self.hear_reply(n, count, job, reply, place, next),
            End::Refused(Refused::Gone) => self.give_up(n, count, What::Gone),
            End::Refused(Refused::NoMemory) => self.give_up(n, count, What::Busy),
            End::Refused(Refused::Moved(to)) => self.hear_moved(n, count, job, to),
        }
    }

    // It hears the reply of the entry at this place.
    fn hear_reply(&mut self, n: usize, count: u64, job: Job, reply: Reply, place: u64, next: u64)
        requires room { HasRoom self.old }
        requires there { n < length self.old.sessions.items }
        ensures { IfSome (slice_get self.old.sessions.items n)
            (λ x. traffic_of self.new ≡ replied count (traffic_of self.old) n x job job.late reply place next) }
    {
        let Some(asked) = job.late else {
            self.end_command(n, count, next, What::Replied(job, reply, place));
            return;
        };
        let Job {
            by_group,
            bytes,
            is_second,
            ..
        } = job;
        let job = Job {
            by_group,
            asked,
            bytes,
            is_second,
            late: None,
        };
        if is_good(&reply) {
            let flush = Flush {
                job,
                reply,
                place,
                next,
            };
            self.go_on(n, count, Stage::Flushes(flush), What::FlushBegan);
        } else {
            self.end_command(n, count, next, What::Settled(job, reply, place, false));
        }
    }

    // Its command ends with what it was told, and its next one has this serial.
    fn end_command(&mut self, n: usize, count: u64, next: u64, what: What)
        requires room { HasRoom self.old }
        requires there { n < length self.old.sessions.items }
        ensures { IfSome (slice_get self.old.sessions.items n)
            (λ x. traffic_of self.new ≡ noted (with_session (traffic_of self.old) n (free x next)) (note_of count x what)) }
    {
        let session = &mut self.sessions[n];
        let note = note_of(session, count, what);
        session.next = next;
        session.go_to(Stage::Idle);
        self.notes.push_reserved(note);
    }

    // The flush behind a session's command ends.
    pub(crate) fn end_flush(&mut self, alloc: Global, n: usize, count: u64, is_done: bool)
        requires { HasRoom self.old }
        ensures { traffic_of self.new ≡ given (traffic_of self.old) (slice_get self.old.sessions.items n)
            (λ x. flush_ended count (traffic_of self.old) n x is_done) }
    {
        let Some(session) = self.sessions.get_mut(n) else {
            return;
        };
        if let Some(flush) = session.stage.take_flush() {
            self.settle(alloc, n, count, flush, is_done);
        }
    }

    // The session is told what its command came to.
    fn settle(&mut self, alloc: Global, n: usize, count: u64, flush: Flush, is_done: bool)
        requires room { HasRoom self.old }
        requires there { n < length self.old.sessions.items }
        ensures { IfSome (slice_get self.old.sessions.items n)
            (λ x. traffic_of self.new ≡ settled count (traffic_of self.old) n x flush.job (told_behind is_done flush.reply)
            flush.place flush.next is_done) }
    {
        let Flush {
            job,
            reply,
            place,
            next,
        } = flush;
        let told = told_behind(alloc, is_done, reply);
        self.end_command(n, count, next, What::Settled(job, told, place, is_done));
    }

    // It hears that the unit moved.
    fn hear_moved(&mut self, n: usize, count: u64, job: Job, to: Group)
        requires room { HasRoom self.old }
        requires there { n < length self.old.sessions.items }
        ensures { IfSome (slice_get self.old.sessions.items n)
            (λ x. traffic_of self.new ≡ heard count (traffic_of self.old) n x job (ends.Refused (causes.Moved to))) }
    {
        if job.is_second {
            self.give_up(n, count, What::Busy);
            return;
        }
        let Job {
            asked,
            bytes,
            late,
            ..
        } = job;
        self.sessions[n].go_to(Stage::Returned(Job {
            by_group: to,
            asked: asked_of(late, asked),
            bytes,
            is_second: true,
            late: None,
        }));
    }

    // A session collects its answer.
    pub(crate) fn collect(&mut self, n: usize, count: u64)
        requires { HasRoom self.old }
        ensures { traffic_of self.new ≡ given (traffic_of self.old) (slice_get self.old.sessions.items n)
            (λ x. collected count (traffic_of self.old) n x) }
    {
        let Some(session) = self.sessions.get_mut(n) else {
            return;
        };
        if let Some((job, end)) = session.stage.take_answered() {
            self.hear(n, count, job, end);
        }
    }
}
