//! Commands whose flush is left to come behind them.
ghost use Rattle.std.specs.Prelude.{◌≡◌};
ghost use Rattle.world.specs.Traffic.{IsHanded, asked_of, is_good, put_off, told_behind};

use scsi_types::{Asked, Reply, Sense, Status};
use std::alloc::Global;
use unit_events::{Job, without_flush};

// What a session hands in for a command: without its flush, where flushes may be left to come behind their commands.
pub(crate) fn handed(job: Job, is_late: bool) -> Job
    ensures { IsHanded is_late job result }
{
    if !is_late {
        return job;
    }
    match without_flush(&job.asked) {
        Some(served) => put_off(job, served),
        None => job,
    }
}

// The unit is asked this in place of a command.
fn put_off(job: Job, served: Asked) -> Job
    ensures { result ≡ put_off job served }
{
    let Job {
        by_group,
        asked,
        bytes,
        is_second,
        ..
    } = job;
    Job {
        by_group,
        asked: served,
        bytes,
        is_second,
        late: Some(asked),
    }
}

// What a session asked, by what is kept of it where it was put off.
pub(crate) fn asked_of(late: Option<Asked>, asked: Asked) -> Asked
    ensures { result ≡ asked_of late asked }
{
    match late {
        Some(first) => first,
        None => asked,
    }
}

// What is told behind a flush that was done, or that has failed.
pub(crate) fn told_behind(alloc: Global, is_done: bool, reply: Reply) -> Reply
    ensures { result ≡ told_behind is_done reply }
{
    if is_done {
        return reply;
    }
    Reply::check(alloc, Sense::WRITE_ERROR)
}

// Whether a reply is GOOD.
pub(crate) fn is_good(reply: &Reply) -> bool
    ensures { result ≡ is_good reply.now.status }
{
    match reply.status() {
        Status::Good => true,
        Status::CheckCondition | Status::Busy | Status::ReservationConflict | Status::TaskSetFull =>
            false,
    }
}
