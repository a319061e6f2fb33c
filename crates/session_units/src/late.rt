//! What is told of commands whose flush comes behind them, when their unit is free again for others.
ghost use Rattle.unit_events.specs.Flushes.{IsToldBehindFlush};

use crate::gate::Gate;
use crate::units::Pass;
use scsi_types::{Reply, Sense, Status};
use std::alloc::Global;

/// What is told in place of a reply to a command without its flush: GOOD only behind a flush that began when the session's pass had
/// seen it.
pub(crate) fn answer_behind_flush<G: Gate, P: Pass>(
    alloc: Global,
    gate: &G,
    pass: &P,
    reply: Reply,
) -> Reply
    ensures { IsToldBehindFlush (G.lasts (P.held pass.now)) reply result }
{
    if reply.status() != Status::Good || gate.flush_behind(pass) {
        return reply;
    }
    Reply::check(alloc, Sense::WRITE_ERROR)
}
